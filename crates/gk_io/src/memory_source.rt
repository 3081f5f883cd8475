//! A source over bytes in memory, some of whose calls fail.

ghost use Rattle.std.specs.Prelude.{◌≡◌, ◌≤◌, ◌↔◌, Some, List, [], OnOk, OnErr, IsErr, Contains, is_ok, is_some, length, min, take, if◌then◌else◌};
ghost use Rattle.std.specs.Io.{ReadsAtMost};
ghost use Rattle.std.specs.Io.KnownBytes.{ReadConsumes};
ghost use Rattle.gk_io.specs.Faults.{Rose, counted};

use crate::call_numbers::CallNumbers;
use crate::fault::Failed;
use crate::source::Source;

/// Gives the bytes it was made of, and tells them.
#[derive(Drop)]
pub struct MemorySource {
    bytes: Vec<u8>,
    next: usize,
    failing: CallNumbers,
    calls: u64,
    faults: u64,
    ghost within: { next ≤ length bytes.items },
}

impl MemorySource {
    ghost use Rattle.gk_io.specs.Memory.{source_left, source_failing, source_calls, source_faults};

    pub fn new(bytes: Vec<u8>, failing: CallNumbers) -> MemorySource
        ensures left { source_left result ≡ bytes.items }
        ensures failing { source_failing result ≡ failing }
        ensures calls { source_calls result ≡ 0 }
        ensures faults { source_faults result ≡ 0 }
    {
        MemorySource {
            bytes,
            next: 0,
            failing,
            calls: 0,
            faults: 0,
        }
    }

    /// How many of its calls failed, up to the greatest u64.
    pub fn faults(&self) -> u64
        ensures { result ≡ source_faults self.now }
    {
        self.faults
    }
}

impl Source for MemorySource {
    ghost use Rattle.gk_io.specs.Memory.{source_left, source_failing, source_calls, source_faults};

    ghost left = { λ s. Some (source_left s) };

    ghost faults = { source_faults };

    fn read(&mut self, buf: &mut [u8]) -> Result<usize, Failed>
        ensures bound { ReadsAtMost result buf.new }
        ensures bytes { ReadConsumes (Some (source_left self.old)) (Some (source_left self.new)) result buf.new }
        ensures telling { is_some (Some (source_left self.new)) ≡ is_some (Some (source_left self.old)) }
        ensures later { source_faults self.old ≤ source_faults self.new }
        ensures cause { OnErr result (Rose (source_faults self.old) (source_faults self.new)) }
        ensures steady { OnOk result (source_faults self.new ≡ source_faults self.old) }

        // The calls that fail are those that were named, and each is counted.
        ensures fails { IsErr result ↔ Contains (source_failing self.old) (counted (source_calls self.old)) }
        ensures failing { source_failing self.new ≡ source_failing self.old }
        ensures calls { source_calls self.new ≡ counted (source_calls self.old) }
        ensures faults { source_faults self.new
            ≡ (if is_ok result then source_faults self.old else counted (source_faults self.old)) }
    {
        self.calls = self.calls.saturating_add(1);
        if self.failing.contains(self.calls) {
            self.faults = self.faults.saturating_add(1);
            return Err(Failed);
        }
        let count = copy_front(&self.bytes.as_slice()[self.next..], buf);
        self.next += count;
        Ok(count)
    }
}

// Copies as many bytes as both have.
fn copy_front(from: &[u8], into: &mut [u8]) -> usize
    ensures count { result ≡ min (length from.now) (length into.new) }
    ensures front { take result into.new ≡ take result from.now }
{
    let count = from.len().min(into.len());
    into[..count].copy_from_slice(&from[..count]);
    count
}
