//! Bytes that come in.

ghost use Rattle.std.specs.Prelude.{◌≡◌, ◌≤◌, ℕ, List, Option, OnOk, OnErr, is_some};
ghost use Rattle.std.specs.Io.{ReadsAtMost};
ghost use Rattle.std.specs.Io.KnownBytes.{ReadConsumes};
ghost use Rattle.gk_io.specs.Faults.{Rose};

use crate::fault::Failed;

/// What gives bytes, in order, until its end.
pub trait Source {
    // The bytes that are left, where the source tells them.
    ghost left: { Self → Option (List ℕ) };

    // How many of its calls failed, up to the greatest u64.
    ghost faults: { Self → ℕ };

    /// Fills the front of `buf` with the bytes that come next, and says with how many. At the end of input it
    /// is with none, though `buf` has room.
    fn read(&mut self, buf: &mut [u8]) -> Result<usize, Failed>
        ensures bound { ReadsAtMost result buf.new }
        ensures bytes { ReadConsumes (left self.old) (left self.new) result buf.new }
        ensures telling { is_some (left self.new) ≡ is_some (left self.old) }

        // A failure shows in the count, which never falls, and nothing else moves it.
        ensures later { faults self.old ≤ faults self.new }
        ensures cause { OnErr result (Rose (faults self.old) (faults self.new)) }
        ensures steady { OnOk result (faults self.new ≡ faults self.old) };
}
