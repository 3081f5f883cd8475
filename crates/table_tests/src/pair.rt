//! A desk beside the keeper of its tables, and the commands over them.

ghost use Rattle.std.specs.Prelude.{Some};
ghost use Rattle.memory_keeper.specs.Memory.{kept};
ghost use Rattle.policy_keeper.specs.Mirror.{Mirrors};
ghost use Rattle.desk_state.specs.Stands.{tables};

use code_facts::FactTable;
use desk_state::Desk;
use gk_io::{CallNumbers, MemoryFile, MemoryShelf};
use memory_keeper::MemoryKeeper;
use raw_tables::{RawReceipts, RawRules, RawTables};
use run_status::{Said, Status};
use std::alloc::Global;
use std::sync::Arc;
use table_commands::{edit_line, import, list, status};

/// A desk, and a keeper that tells its tables.
#[derive(Drop)]
pub struct Pair {
    desk: Desk,
    keeper: MemoryKeeper,
    ghost mirrors: { Mirrors (Some (kept keeper)) (tables desk) },
}

impl Pair {
    /// A desk without rules, beside a keeper whose call of this number fails; the load is call 1.
    pub fn failing_at(alloc: Global, call: u64) -> Option<Pair> {
        let mut failing = CallNumbers::new(alloc);
        failing.push(call).ok()?;
        let rows = RawTables {
            format: 1,
            switch: 1,
            receipts: RawReceipts::new(alloc),
            rules: RawRules::new(alloc),
        };
        let mut keeper = MemoryKeeper::with(rows, failing);
        let facts = Arc::new(alloc, FactTable::empty(alloc)).ok()?;
        let desk = Desk::load(alloc, &mut keeper, facts).ok()?;
        Some(Pair { desk, keeper })
    }

    /// Whether the line of an edit is answered so.
    pub fn edits(&mut self, alloc: Global, line: &[u8], ended: Status, text: &[u8]) -> bool {
        match edit_line(alloc, &mut self.desk, &mut self.keeper, line) {
            Ok(said) => is_said(&said, ended, text),
            Err(_) => false,
        }
    }

    /// Whether an import of the bytes, in a file of that name, is answered so.
    pub fn imports(
        &mut self,
        alloc: Global,
        bytes: &[u8],
        ended: Status,
        text: &[u8],
    ) -> Option<bool> {
        let mut shelf = shelf_of(alloc, bytes)?;
        let said = import(
            alloc,
            &mut self.desk,
            &mut self.keeper,
            "rules.csv",
            &mut shelf,
        )
        .ok()?;
        Some(is_said(&said, ended, text))
    }

    /// Whether an import of a file that isn't there is answered so.
    pub fn imports_nothing(&mut self, alloc: Global, ended: Status, text: &[u8]) -> Option<bool> {
        let mut shelf = shelf_of(alloc, b"")?;
        let said = import(
            alloc,
            &mut self.desk,
            &mut self.keeper,
            "other.csv",
            &mut shelf,
        )
        .ok()?;
        Some(is_said(&said, ended, text))
    }

    /// Whether the status reads so.
    pub fn has_status(&self, alloc: Global, text: &[u8]) -> bool {
        match status(alloc, &self.desk) {
            Ok(said) => is_said(&said, Status::Fine, text),
            Err(_) => false,
        }
    }

    /// Whether the list reads so.
    pub fn has_list(&self, alloc: Global, text: &[u8]) -> bool {
        match list(alloc, &self.desk) {
            Ok(said) => is_said(&said, Status::Fine, text),
            Err(_) => false,
        }
    }
}

fn is_said(said: &Said, ended: Status, text: &[u8]) -> bool {
    said.status == ended && said.text.as_slice() == text
}

fn shelf_of(alloc: Global, bytes: &[u8]) -> Option<MemoryShelf> {
    let mut files = Vec::new(alloc);
    let file = MemoryFile {
        name: String::from_str(alloc, "rules.csv").ok()?,
        bytes: Vec::from_slice(alloc, bytes).ok()?,
    };
    files.push(file).ok()?;
    Some(MemoryShelf::new(files, CallNumbers::new(alloc)))
}
