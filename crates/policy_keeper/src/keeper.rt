//! Where the rows of the desk's tables are kept.

ghost use Rattle.std.specs.Prelude.{◌≡◌, ◌≤◌, ℕ, IsErrOf};
ghost use Rattle.gk_io.specs.Faults.{Rose};
ghost use Rattle.policy_keeper.specs.Change.{change_of};
ghost use Rattle.policy_keeper.specs.Told.{Told, Loads, Applies, CanApply};

use crate::change::Change;
use crate::fault::KeepFault;
use raw_tables::RawTables;
use std::alloc::Global;

/// What keeps the rows of the desk's tables.
pub trait Keeper {
    // The stored rows, where the keeper tells them. It may begin to tell them with a load that gives them.
    ghost told: { Self → Told };

    // How many of its calls failed, up to the greatest u64.
    ghost faults: { Self → ℕ };

    /// All stored rows.
    fn load(&mut self, alloc: Global) -> Result<RawTables, KeepFault>
        ensures loads { Loads (told self.old) (told self.new) result }

        // A failure shows in the count, which never falls, and nothing else moves it.
        ensures later { faults self.old ≤ faults self.new }
        ensures cause { IsErrOf result KeepFault.Failed → Rose (faults self.old) (faults self.new) }
        ensures steady { (IsErrOf result KeepFault.Failed → ⊥) → faults self.new ≡ faults self.old };

    /// Stores the receipt of an accepted edit and changes the rules that it touches; or nothing of it is stored.
    fn apply(&mut self, alloc: Global, change: &Change) -> Result<(), KeepFault>
        requires { CanApply (told self.old) (change_of change.now) }
        ensures applies { Applies (told self.old) (told self.new) (change_of change.now) result }

        // As for a load.
        ensures later { faults self.old ≤ faults self.new }
        ensures cause { IsErrOf result KeepFault.Failed → Rose (faults self.old) (faults self.new) }
        ensures steady { (IsErrOf result KeepFault.Failed → ⊥) → faults self.new ≡ faults self.old };
}
