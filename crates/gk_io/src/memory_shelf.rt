//! A shelf of files in memory, some of whose calls fail.

ghost use Rattle.std.specs.Prelude.{◌≡◌, ◌≢◌, ◌≤◌, ◌↔◌, Some, List, [], Ok, Err, Contains, MatchOption, length, map, None};
ghost use Rattle.gk_io.specs.Faults.{Rose, counted};
ghost use Rattle.gk_io.specs.Memory.{as_file, shelf_files, shelf_failing, shelf_calls, shelf_faults};
ghost use Rattle.gk_io.specs.Shelf.{IsFetched, IsHandedOver, KeepsFiles, NamesDiffer, file_named};

use crate::call_numbers::CallNumbers;
use crate::shelf::{Fetched, Shelf, ShelfFault};
use std::alloc::Global;

/// A file in memory.
#[derive(Drop)]
pub struct MemoryFile {
    pub name: String,
    pub bytes: Vec<u8>,
}

/// Holds the files that it was made of, and tells them.
#[derive(Drop)]
pub struct MemoryShelf {
    files: Vec<MemoryFile>,
    failing: CallNumbers,
    calls: u64,
    faults: u64,
}

impl MemoryShelf {
    pub fn new(files: Vec<MemoryFile>, failing: CallNumbers) -> MemoryShelf
        requires { NamesDiffer (map as_file files.items) }
        ensures files { shelf_files result ≡ map as_file files.items }
        ensures failing { shelf_failing result ≡ failing }
        ensures calls { shelf_calls result ≡ 0 }
        ensures faults { shelf_faults result ≡ 0 }
    {
        MemoryShelf {
            files,
            failing,
            calls: 0,
            faults: 0,
        }
    }

    /// How many of its calls failed, up to the greatest u64.
    pub fn faults(&self) -> u64
        ensures { result ≡ shelf_faults self.now }
    {
        self.faults
    }
}

impl Shelf for MemoryShelf {
    ghost files = { λ s. Some (shelf_files s) };

    ghost faults = { shelf_faults };

    fn fetch(
        &mut self,
        _alloc: Global,
        name: &str,
        limit: usize,
        into: &mut Vec<u8>,
    ) -> Result<Fetched, ShelfFault>
        requires { into.old.items ≡ [] }
        ensures fetched { IsFetched (Some (shelf_files self.old)) name.now limit into.new.items result }
        ensures within { result ≡ Ok Fetched.Found → length into.new.items ≤ limit }
        ensures kept { KeepsFiles (Some (shelf_files self.old)) (Some (shelf_files self.new)) }
        ensures later { shelf_faults self.old ≤ shelf_faults self.new }
        ensures cause { result ≡ Err ShelfFault.Failed → Rose (shelf_faults self.old) (shelf_faults self.new) }
        ensures steady { result ≢ Err ShelfFault.Failed → shelf_faults self.new ≡ shelf_faults self.old }

        // The calls that fail are those that were named, and each is counted.
        ensures fails { (result ≡ Err ShelfFault.Failed) ↔ Contains (shelf_failing self.old) (counted (shelf_calls self.old)) }
        ensures failing { shelf_failing self.new ≡ shelf_failing self.old }
        ensures calls { shelf_calls self.new ≡ counted (shelf_calls self.old) }
        ensures faults { result ≡ Err ShelfFault.Failed → shelf_faults self.new ≡ counted (shelf_faults self.old) }
    {
        self.calls = self.calls.saturating_add(1);
        if self.failing.contains(self.calls) {
            self.faults = self.faults.saturating_add(1);
            return Err(ShelfFault::Failed);
        }
        match bytes_of(self.files.as_slice(), name) {
            Some(bytes) => hand_over(bytes, limit, into),
            None => Ok(Fetched::Missing),
        }
    }
}

// The bytes of the file of that name.
fn bytes_of<'a>(files: &'a [MemoryFile], name: &str) -> Option<&'a [u8]>
    ensures { MatchOption result (file_named (map as_file files.now) name.now ≡ None)
        (λ bytes. file_named (map as_file files.now) name.now ≡ Some bytes.now) }
{
    for file in files {
        if file.name.as_str() == name {
            return Some(file.bytes.as_slice());
        }
    }
    None
}

// Copies a file that isn't too long.
fn hand_over(bytes: &[u8], limit: usize, into: &mut Vec<u8>) -> Result<Fetched, ShelfFault>
    requires { into.old.items ≡ [] }
    ensures { IsHandedOver bytes.now limit into.new.items result }
{
    if limit < bytes.len() {
        return Ok(Fetched::TooLong);
    }
    into.extend_from_slice(bytes)?;
    Ok(Fetched::Found)
}
