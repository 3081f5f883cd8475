//! A keeper in memory, which tells its rows.

ghost use Rattle.std.specs.Prelude.{◌≡◌, ◌≤◌, ◌↔◌, Some, [], IsTrue, IsErrOf, Contains, if◌then◌else◌};
ghost use Rattle.gk_io.specs.Faults.{Rose, counted};
ghost use Rattle.raw_tables.specs.Raw.{plain_tables};
ghost use Rattle.policy_keeper.specs.Change.{change_of};
ghost use Rattle.policy_keeper.specs.Told.{Loads, Applies, CanApply};

use crate::kept_rows::KeptRows;
use gk_io::CallNumbers;
use policy_keeper::{Change, KeepFault, Keeper};
use raw_tables::RawTables;
use std::alloc::Global;

/// Keeps the rows and tells them. All its calls are counted together, from 1.
#[derive(Drop)]
pub struct MemoryKeeper {
    rows: KeptRows,
    failing: CallNumbers,
    calls: u64,
    faults: u64,
}

impl MemoryKeeper {
    ghost use Rattle.memory_keeper.specs.Kept.{kept_rows};
    ghost use Rattle.memory_keeper.specs.Memory.{kept, keeper_failing, keeper_calls, keeper_faults, no_rows};

    /// A keeper without rows, where assessments are switched on; none of its calls fail.
    pub fn new(alloc: Global) -> MemoryKeeper
        ensures kept { kept result ≡ no_rows }
        ensures failing { keeper_failing result ≡ [] }
        ensures calls { keeper_calls result ≡ 0 }
        ensures faults { keeper_faults result ≡ 0 }
    {
        MemoryKeeper::over(KeptRows::new(alloc), CallNumbers::new(alloc))
    }

    /// A keeper with these rows, whose calls of these numbers fail.
    pub fn with(tables: RawTables, failing: CallNumbers) -> MemoryKeeper
        ensures kept { kept result ≡ plain_tables tables }
        ensures failing { keeper_failing result ≡ failing }
        ensures calls { keeper_calls result ≡ 0 }
        ensures faults { keeper_faults result ≡ 0 }
    {
        MemoryKeeper::over(KeptRows::of(tables), failing)
    }

    fn over(rows: KeptRows, failing: CallNumbers) -> MemoryKeeper
        ensures kept { kept result ≡ kept_rows rows }
        ensures failing { keeper_failing result ≡ failing }
        ensures calls { keeper_calls result ≡ 0 }
        ensures faults { keeper_faults result ≡ 0 }
    {
        MemoryKeeper {
            rows,
            failing,
            calls: 0,
            faults: 0,
        }
    }

    /// How many of its calls failed, up to the greatest u64.
    pub fn faults(&self) -> u64
        ensures { result ≡ keeper_faults self.now }
    {
        self.faults
    }

    /// Counts a call, and says whether it is one of those that fail.
    fn fails(&mut self) -> bool
        ensures fails { IsTrue result ↔ Contains (keeper_failing self.old) (counted (keeper_calls self.old)) }
        ensures kept { kept self.new ≡ kept self.old }
        ensures failing { keeper_failing self.new ≡ keeper_failing self.old }
        ensures calls { keeper_calls self.new ≡ counted (keeper_calls self.old) }
        ensures faults { keeper_faults self.new
            ≡ (if result then counted (keeper_faults self.old) else keeper_faults self.old) }
        ensures later { keeper_faults self.old ≤ keeper_faults self.new }
    {
        self.calls = self.calls.saturating_add(1);
        let failed = self.failing.contains(self.calls);
        if failed {
            self.faults = self.faults.saturating_add(1);
        }
        failed
    }
}

impl Keeper for MemoryKeeper {
    ghost use Rattle.memory_keeper.specs.Memory.{kept, keeper_failing, keeper_calls, keeper_faults};

    ghost told = { λ k. Some (kept k) };

    ghost faults = { keeper_faults };

    fn load(&mut self, alloc: Global) -> Result<RawTables, KeepFault>
        ensures loads { Loads (Some (kept self.old)) (Some (kept self.new)) result }
        ensures later { keeper_faults self.old ≤ keeper_faults self.new }
        ensures cause { IsErrOf result KeepFault.Failed → Rose (keeper_faults self.old) (keeper_faults self.new) }
        ensures steady { (IsErrOf result KeepFault.Failed → ⊥) → keeper_faults self.new ≡ keeper_faults self.old }

        // The calls that fail are those that were named, and each is counted.
        ensures fails { IsErrOf result KeepFault.Failed ↔ Contains (keeper_failing self.old) (counted (keeper_calls self.old)) }
        ensures kept { kept self.new ≡ kept self.old }
        ensures failing { keeper_failing self.new ≡ keeper_failing self.old }
        ensures calls { keeper_calls self.new ≡ counted (keeper_calls self.old) }
    {
        if self.fails() {
            return Err(KeepFault::Failed);
        }
        let tables = self.rows.copied(alloc)?;
        Ok(tables)
    }

    fn apply(&mut self, alloc: Global, change: &Change) -> Result<(), KeepFault>
        requires { CanApply (Some (kept self.old)) (change_of change.now) }
        ensures applies { Applies (Some (kept self.old)) (Some (kept self.new)) (change_of change.now) result }
        ensures later { keeper_faults self.old ≤ keeper_faults self.new }
        ensures cause { IsErrOf result KeepFault.Failed → Rose (keeper_faults self.old) (keeper_faults self.new) }
        ensures steady { (IsErrOf result KeepFault.Failed → ⊥) → keeper_faults self.new ≡ keeper_faults self.old }

        // The calls that fail are those that were named, and each is counted.
        ensures fails { IsErrOf result KeepFault.Failed ↔ Contains (keeper_failing self.old) (counted (keeper_calls self.old)) }
        ensures failing { keeper_failing self.new ≡ keeper_failing self.old }
        ensures calls { keeper_calls self.new ≡ counted (keeper_calls self.old) }
    {
        if self.fails() {
            return Err(KeepFault::Failed);
        }
        self.rows.make(alloc, change)?;
        Ok(())
    }
}
