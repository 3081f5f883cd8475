//! The front of a line, held in place.

ghost use Rattle.std.specs.Prelude.{◌≡◌, ◌==◌, ◌++◌, [], length, take};
ghost use Rattle.line_reader.specs.Held.{held_bytes};
ghost use Rattle.line_text.specs.declared.limits.TheConstants.{LINE_HELD};

use arrayvec::ArrayVec;
use line_text::LINE_HELD;

/// The first `LINE_HELD` bytes of a line, however long it is.
#[derive(Drop)]
pub struct HeldLine {
    bytes: ArrayVec<u8, LINE_HELD>,
}

impl HeldLine {
    pub fn new() -> HeldLine
        ensures { held_bytes result ≡ [] }
    {
        HeldLine {
            bytes: ArrayVec::new(),
        }
    }

    pub fn as_slice(&self) -> &[u8]
        ensures { result.now ≡ held_bytes self.now }
    {
        self.bytes.as_slice()
    }

    pub fn is_empty(&self) -> bool
        ensures { result ≡ (length (held_bytes self.now) == 0) }
    {
        self.bytes.is_empty()
    }

    pub fn clear(&mut self)
        ensures { held_bytes self.new ≡ [] }
    {
        self.bytes.clear();
    }

    /// Appends a run of the line's bytes, of which those past the limit are dropped.
    pub fn hold(&mut self, run: &[u8])
        ensures { held_bytes self.new ≡ take LINE_HELD (held_bytes self.old ++ run.now) }
    {
        let room = LINE_HELD - self.bytes.len();
        let count = run.len().min(room);
        let _ = self.bytes.try_extend_from_slice(&run[..count]);
    }
}
