//! The time of day.

ghost use Rattle.std.specs.Prelude.{◌≡◌, ◌≤◌, ℕ, List, Option, OnOk, OnErr, is_some};
ghost use Rattle.gk_io.specs.Clock.{IsNow};
ghost use Rattle.gk_io.specs.Faults.{Rose};

use crate::fault::Failed;

/// What tells the time.
pub trait Clock {
    // The moments to come, at least one, where the clock tells them.
    ghost moments: { Self → Option (List ℕ) };

    // How many of its calls failed, up to the greatest u64.
    ghost faults: { Self → ℕ };

    /// The seconds since the beginning of 1970.
    fn now(&mut self) -> Result<u64, Failed>
        ensures moment { IsNow (moments self.old) (moments self.new) result }
        ensures telling { is_some (moments self.new) ≡ is_some (moments self.old) }

        // A failure shows in the count, which never falls, and nothing else moves it.
        ensures later { faults self.old ≤ faults self.new }
        ensures cause { OnErr result (Rose (faults self.old) (faults self.new)) }
        ensures steady { OnOk result (faults self.new ≡ faults self.old) };
}
