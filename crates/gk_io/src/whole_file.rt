//! A file that is read to its end, or one byte past a limit.

ghost use Rattle.std.specs.Prelude.{◌≡◌, ◌≢◌, ◌+◌, ◌≤◌, [], Ok, Err, true, false, is_some, length};
ghost use Rattle.std.specs.Io.KnownBytes.{Consumes, IsAtEnd};
ghost use Rattle.gk_io.specs.Faults.{Rose};
ghost use Rattle.gk_io.specs.Shelf.{IsReadPast, IsReadUpTo};

use crate::shelf::ShelfFault;
use crate::source::Source;

/// How many bytes are asked of the source at once.
const PIECE: usize = 16_384;

/// Reads all that the source has left, and says so; or says that it is more than the limit allows, of which
/// one byte past the limit is enough.
pub fn read_whole<S: Source>(
    source: &mut S,
    limit: usize,
    into: &mut Vec<u8>,
) -> Result<bool, ShelfFault>
    requires { into.old.items ≡ [] }
    ensures whole { result ≡ Ok true → Consumes (S.left source.old) (S.left source.new) into.new.items
        × IsAtEnd (S.left source.new) }
    ensures within { result ≡ Ok true → length into.new.items ≤ limit }
    ensures longer { result ≡ Ok false → IsReadPast (S.left source.old) (S.left source.new) limit }
    ensures further { IsReadUpTo (S.left source.old) (S.left source.new) (limit + 1) }
    ensures telling { is_some (S.left source.new) ≡ is_some (S.left source.old) }
    ensures later { S.faults source.old ≤ S.faults source.new }
    ensures cause { result ≡ Err ShelfFault.Failed → Rose (S.faults source.old) (S.faults source.new) }
    ensures steady { result ≢ Err ShelfFault.Failed → S.faults source.new ≡ S.faults source.old }
{
    let mut piece = [0; PIECE];
    loop {
        let room = limit - into.len();
        let asked = PIECE.min(room.saturating_add(1));
        let count = source.read(&mut piece[..asked])?;
        if count == 0 {
            return Ok(true);
        }
        if room < count {
            return Ok(false);
        }
        into.extend_from_slice(&piece[..count])?;
    }
}
