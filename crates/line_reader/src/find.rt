//! The first LF of some bytes.

ghost use Rattle.std.specs.Prelude.{MatchOption};
ghost use Rattle.line_reader.specs.Lines.{HasNoLf, IsFirstLf};

use memchr::memchr;

/// The place of the first LF.
pub fn find_lf(bytes: &[u8]) -> Option<usize>
    ensures { MatchOption result (HasNoLf bytes.now) (IsFirstLf bytes.now) }
{
    memchr(b'\n', bytes)
}
