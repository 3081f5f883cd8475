//! Bytes that go out.

ghost use Rattle.std.specs.Prelude.{◌≡◌, ◌≤◌, ℕ, List, Option, None, OnOk, OnErr, is_some};
ghost use Rattle.std.specs.Io.KnownBytes.{Keeps};
ghost use Rattle.gk_io.specs.Faults.{Rose};
ghost use Rattle.gk_io.specs.Told.{IsFlushed, IsFrontFlushed, PutAppends};

use crate::fault::Failed;

/// What takes bytes, in order.
pub trait Sink {
    // The bytes that were written, where the sink tells them.
    ghost written: { Self → Option (List ℕ) };

    // The bytes that were flushed, where the sink tells them.
    ghost flushed: { Self → Option (List ℕ) } = { λ _. None };

    // How many of its calls failed, up to the greatest u64.
    ghost faults: { Self → ℕ };

    /// Writes all the bytes, or at a failure a front of them.
    fn put(&mut self, bytes: &[u8]) -> Result<(), Failed>
        ensures bytes { PutAppends (written self.old) (written self.new) result bytes.now }
        ensures keeps { Keeps (flushed self.old) (flushed self.new) }
        ensures front { IsFrontFlushed (flushed self.old) (written self.old)
            → IsFrontFlushed (flushed self.new) (written self.new) }
        ensures telling { is_some (written self.new) ≡ is_some (written self.old) }
        ensures flushed_telling { is_some (flushed self.new) ≡ is_some (flushed self.old) }

        // A failure shows in the count, which never falls, and nothing else moves it.
        ensures later { faults self.old ≤ faults self.new }
        ensures cause { OnErr result (Rose (faults self.old) (faults self.new)) }
        ensures steady { OnOk result (faults self.new ≡ faults self.old) };

    /// Hands on what was written. The bytes stay written whether it fails or not.
    fn flush(&mut self) -> Result<(), Failed>
        ensures bytes { Keeps (written self.old) (written self.new) }
        ensures flushes { OnOk result (IsFlushed (flushed self.new) (written self.new)) }
        ensures front { IsFrontFlushed (flushed self.old) (written self.old)
            → IsFrontFlushed (flushed self.new) (written self.new) }
        ensures telling { is_some (written self.new) ≡ is_some (written self.old) }
        ensures flushed_telling { is_some (flushed self.new) ≡ is_some (flushed self.old) }

        // A failure shows in the count, which never falls, and nothing else moves it.
        ensures later { faults self.old ≤ faults self.new }
        ensures cause { OnErr result (Rose (faults self.old) (faults self.new)) }
        ensures steady { OnOk result (faults self.new ≡ faults self.old) };
}
