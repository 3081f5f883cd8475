//! The keeper that a program names by its store.

ghost use Rattle.std.specs.Prelude.{◌≡◌, ◌≤◌, Some, None, codes, IfOk, IsErrOf};
ghost use Rattle.gk_io.specs.Faults.{Rose};
ghost use Rattle.memory_keeper.specs.Memory.{no_rows};
ghost use Rattle.policy_keeper.specs.Change.{change_of};
ghost use Rattle.policy_keeper.specs.Told.{Loads, Applies, CanApply};
ghost use Rattle.sql_keeper.specs.Program.{store_told, store_faults};

use crate::fault::SqlFault;
use crate::keeper::SqlKeeper;
use memory_keeper::MemoryKeeper;
use policy_keeper::{Change, KeepFault, Keeper};
use raw_tables::RawTables;
use sqlite::{Connection, File, FileStore};
use std::alloc::{AllocError, Global};

/// Where the rows are.
#[derive(Drop)]
enum Store {
    Memory(MemoryKeeper),
    /// In a file that no call has opened yet.
    Unopened,
    Opened(SqlKeeper<FileStore<File>>),
    /// In a file that couldn't be opened, and how many calls failed for it.
    Unopenable { faults: u64 },
}

/// A memory keeper for `:memory:`, else a keeper over the SQLite file of that name, which its first call opens.
#[derive(Drop)]
pub struct ProgramKeeper<'a> {
    runtime: &'a HostRuntime,
    name: &'a str,
    store: Store,
}

impl<'a> ProgramKeeper<'a> {
    /// Opens nothing yet.
    pub fn named(runtime: &'a HostRuntime, name: &'a str) -> ProgramKeeper<'a>
        ensures memory { name.now ≡ codes ":memory:" → store_told result.store ≡ Some no_rows }
        ensures faults { store_faults result.store ≡ 0 }
    {
        let store = if name == ":memory:" {
            Store::Memory(MemoryKeeper::new(runtime.alloc()))
        } else {
            Store::Unopened
        };
        ProgramKeeper {
            runtime,
            name,
            store,
        }
    }

    /// Copies the log of an opened file into the file. Where that fails, or isn't done, the log is kept beside the
    /// file, and the next opening reads both.
    pub fn close(self) {
        match self.store {
            Store::Opened(keeper) => drop(keeper.release().close()),
            Store::Memory(keeper) => drop(keeper),
            Store::Unopened | Store::Unopenable { .. } => {}
        }
    }
}

impl Keeper for ProgramKeeper<'_> {
    ghost told = { λ k. store_told k.store };

    ghost faults = { λ k. store_faults k.store };

    fn load(&mut self, alloc: Global) -> Result<RawTables, KeepFault> {
        open(self.runtime, self.name, &mut self.store)?;
        self.store.load(alloc)
    }

    fn apply(&mut self, alloc: Global, change: &Change) -> Result<(), KeepFault> {
        open(self.runtime, self.name, &mut self.store)?;
        self.store.apply(alloc, change)
    }
}

/// Opens the file, where that wasn't tried yet. A lack of memory is no try.
fn open(runtime: &HostRuntime, name: &str, store: &mut Store) -> Result<(), AllocError>
    ensures told { store_told store.new ≡ store_told store.old }
    ensures faults { store_faults store.new ≡ store_faults store.old }
{
    if let Store::Unopened = store {
        *store = opened(runtime, name)?;
    }
    Ok(())
}

fn opened(runtime: &HostRuntime, name: &str) -> Result<Store, AllocError>
    ensures told { IfOk result (λ store. store_told store ≡ None) }
    ensures faults { IfOk result (λ store. store_faults store ≡ 0) }
{
    match Connection::open(runtime, name) {
        Ok(connection) => Ok(Store::Opened(SqlKeeper::adopt(connection))),
        Err(error) => match SqlFault::from(error) {
            SqlFault::OutOfMemory => Err(AllocError),
            SqlFault::Refused => Ok(Store::Unopenable { faults: 0 }),
        },
    }
}

impl Store {
    fn load(&mut self, alloc: Global) -> Result<RawTables, KeepFault>
        ensures loads { Loads (store_told self.old) (store_told self.new) result }
        ensures later { store_faults self.old ≤ store_faults self.new }
        ensures cause { IsErrOf result KeepFault.Failed → Rose (store_faults self.old) (store_faults self.new) }
        ensures steady { (IsErrOf result KeepFault.Failed → ⊥) → store_faults self.new ≡ store_faults self.old }
    {
        match self {
            Store::Memory(keeper) => keeper.load(alloc),
            Store::Opened(keeper) => keeper.load(alloc),
            // It was opened before, or there was no memory for that.
            Store::Unopened => Err(KeepFault::OutOfMemory),
            Store::Unopenable { faults } => Err(failed(faults)),
        }
    }

    fn apply(&mut self, alloc: Global, change: &Change) -> Result<(), KeepFault>
        requires { CanApply (store_told self.old) (change_of change.now) }
        ensures applies { Applies (store_told self.old) (store_told self.new) (change_of change.now) result }
        ensures later { store_faults self.old ≤ store_faults self.new }
        ensures cause { IsErrOf result KeepFault.Failed → Rose (store_faults self.old) (store_faults self.new) }
        ensures steady { (IsErrOf result KeepFault.Failed → ⊥) → store_faults self.new ≡ store_faults self.old }
    {
        match self {
            Store::Memory(keeper) => keeper.apply(alloc, change),
            Store::Opened(keeper) => keeper.apply(alloc, change),
            // It was opened before, or there was no memory for that.
            Store::Unopened => Err(KeepFault::OutOfMemory),
            Store::Unopenable { faults } => Err(failed(faults)),
        }
    }
}

/// One call more that failed.
fn failed(faults: &mut u64) -> KeepFault
    ensures fault { result ≡ KeepFault.Failed }
    ensures later { faults.old ≤ faults.new }
    ensures rose { Rose faults.old faults.new }
{
    *faults = faults.saturating_add(1);
    KeepFault::Failed
}
