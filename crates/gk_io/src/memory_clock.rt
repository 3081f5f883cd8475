//! A clock over moments in memory, some of whose calls fail.

ghost use Rattle.std.specs.Prelude.{◌≡◌, ◌≢◌, ◌≤◌, ◌<◌, ◌↔◌, Some, List, [], OnOk, OnErr, IsErr, Contains, is_ok, is_some, length, if◌then◌else◌};
ghost use Rattle.gk_io.specs.Clock.{IsNow};
ghost use Rattle.gk_io.specs.Faults.{Rose, counted};

use crate::call_numbers::CallNumbers;
use crate::clock::Clock;
use crate::fault::Failed;

/// Tells one moment after the other, and the last of them for ever.
#[derive(Drop)]
pub struct MemoryClock {
    moments: Vec<u64>,
    next: usize,
    failing: CallNumbers,
    calls: u64,
    faults: u64,
    ghost within: { next < length moments.items },
}

impl MemoryClock {
    ghost use Rattle.gk_io.specs.Memory.{clock_moments, clock_failing, clock_calls, clock_faults};

    pub fn new(moments: Vec<u64>, failing: CallNumbers) -> MemoryClock
        requires { moments.items ≢ [] }
        ensures moments { clock_moments result ≡ moments.items }
        ensures failing { clock_failing result ≡ failing }
        ensures calls { clock_calls result ≡ 0 }
        ensures faults { clock_faults result ≡ 0 }
    {
        MemoryClock {
            moments,
            next: 0,
            failing,
            calls: 0,
            faults: 0,
        }
    }

    /// How many of its calls failed, up to the greatest u64.
    pub fn faults(&self) -> u64
        ensures { result ≡ clock_faults self.now }
    {
        self.faults
    }
}

impl Clock for MemoryClock {
    ghost use Rattle.gk_io.specs.Memory.{clock_moments, clock_failing, clock_calls, clock_faults};

    ghost moments = { λ c. Some (clock_moments c) };

    ghost faults = { clock_faults };

    fn now(&mut self) -> Result<u64, Failed>
        ensures moment { IsNow (Some (clock_moments self.old)) (Some (clock_moments self.new)) result }
        ensures telling { is_some (Some (clock_moments self.new)) ≡ is_some (Some (clock_moments self.old)) }
        ensures later { clock_faults self.old ≤ clock_faults self.new }
        ensures cause { OnErr result (Rose (clock_faults self.old) (clock_faults self.new)) }
        ensures steady { OnOk result (clock_faults self.new ≡ clock_faults self.old) }

        // The calls that fail are those that were named, and each is counted.
        ensures fails { IsErr result ↔ Contains (clock_failing self.old) (counted (clock_calls self.old)) }
        ensures failing { clock_failing self.new ≡ clock_failing self.old }
        ensures calls { clock_calls self.new ≡ counted (clock_calls self.old) }
        ensures faults { clock_faults self.new
            ≡ (if is_ok result then clock_faults self.old else counted (clock_faults self.old)) }
    {
        self.calls = self.calls.saturating_add(1);
        if self.failing.contains(self.calls) {
            self.faults = self.faults.saturating_add(1);
            return Err(Failed);
        }
        let moment = self.moments[self.next];
        self.next = self.next.saturating_add(1).min(self.moments.len() - 1);
        Ok(moment)
    }
}
