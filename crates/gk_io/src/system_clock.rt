//! The system's clock. It tells nothing of the moments to come.

ghost use Rattle.std.specs.Prelude.{◌≡◌, ◌≤◌, ℕ, List, None, OnOk, OnErr, is_some};
ghost use Rattle.gk_io.specs.Clock.{IsNow};
ghost use Rattle.gk_io.specs.Faults.{Rose};

use crate::clock::Clock;
use crate::fault::Failed;
use std::time;

/// Asks the runtime for the time.
#[derive(Drop)]
pub struct SystemClock<R> {
    runtime: R,
    faults: u64,
}

impl<R: time::Clock> SystemClock<R> {
    pub fn new(runtime: R) -> SystemClock<R>
        ensures faults { result.faults ≡ 0 }
    {
        SystemClock { runtime, faults: 0 }
    }
}

impl<R: time::Clock> Clock for SystemClock<R> {
    ghost moments = { λ _. None };

    ghost faults = { λ c. c.faults };

    fn now(&mut self) -> Result<u64, Failed>
        ensures moment { IsNow None None result }
        ensures telling { is_some {T = List ℕ} None ≡ is_some {T = List ℕ} None }
        ensures later { self.old.faults ≤ self.new.faults }
        ensures cause { OnErr result (Rose self.old.faults self.new.faults) }
        ensures steady { OnOk result (self.new.faults ≡ self.old.faults) }
    {
        match self.runtime.since_1970() {
            Ok(since) => Ok(since.as_secs()),
            Err(_) => {
                self.faults = self.faults.saturating_add(1);
                Err(Failed)
            }
        }
    }
}
