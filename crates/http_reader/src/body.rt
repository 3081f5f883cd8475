//! The body behind a head.

ghost use Rattle.std.specs.Prelude.{◌≡◌, ◌≢◌, ◌≤◌, length, Err, is_some};
ghost use Rattle.gk_io.specs.Faults.{Rose};
ghost use Rattle.http_reader.specs.Body.{IsBodyRead};

use gk_io::{Failed, Source};
use std::alloc::Global;

/// How many bytes are asked of the source at once.
const PIECE: usize = 16_384;

/// Why a body isn't whole.
#[derive(Clone, Copy, PartialEq, Eq)]
pub enum BodyFault {
    /// The source ended.
    Cut,
    /// The source failed.
    Failed,
    OutOfMemory,
}

impl From<Failed> for BodyFault {
    ghost use Rattle.std.specs.Prelude.{◌≡◌};
    ghost use Rattle.http_reader.specs.declared.body.BodyFault.TheVariants as fault;

    ghost from_gives = { λ _ f. f ≡ fault.Failed };

    fn from(_: Failed) -> BodyFault {
        BodyFault::Failed
    }
}

/// Reads on behind the front of a body until it has so many bytes, and no further. It takes memory as bytes come, however
/// long the body is to be.
pub fn read_body<S: Source>(
    alloc: Global,
    front: &[u8],
    size: usize,
    source: &mut S,
) -> Result<Vec<u8>, BodyFault>
    requires { length front.now ≤ size }
    ensures read { IsBodyRead (λ body. body.items) front.now size (S.left source.old) (S.left source.new) result }
    ensures telling { is_some (S.left source.new) ≡ is_some (S.left source.old) }
    ensures later { S.faults source.old ≤ S.faults source.new }
    ensures cause { result ≡ Err BodyFault.Failed → Rose (S.faults source.old) (S.faults source.new) }
    ensures steady { result ≢ Err BodyFault.Failed → S.faults source.new ≡ S.faults source.old }
{
    let mut body = Vec::new(alloc);
    if body.extend_from_slice(front).is_err() {
        return Err(BodyFault::OutOfMemory);
    }
    let mut piece = [0; PIECE];
    while body.len() < size {
        let asked = PIECE.min(size - body.len());
        let count = source.read(&mut piece[..asked])?;
        if count == 0 {
            return Err(BodyFault::Cut);
        }
        if body.extend_from_slice(&piece[..count]).is_err() {
            return Err(BodyFault::OutOfMemory);
        }
    }
    Ok(body)
}
