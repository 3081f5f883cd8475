//! The identifier of code: 1 to 256 bytes other than zero, held in place.

ghost use Rattle.std.specs.Prelude.{◌<◌, ◌≤◌, ◌↔◌, All, IsTrue};
ghost use Rattle.std.proofs.Props.{props};
ghost use Rattle.arrayvec.specs.ArrayVec.{array_vec_len};
ghost use Rattle.req_tree.specs.declared.limits.TheConstants.{MOST_IDENTIFIER_BYTES};

use crate::limits::MOST_IDENTIFIER_BYTES;
use arrayvec::ArrayVec;

/// The identifier that code was signed with.
#[derive(Debug, Drop, PartialEq, Eq, Hash)]
pub struct Identifier {
    bytes: ArrayVec<u8, MOST_IDENTIFIER_BYTES>,
    pub ghost some: { 1 ≤ array_vec_len bytes },
    pub ghost short: { array_vec_len bytes ≤ MOST_IDENTIFIER_BYTES },
    pub ghost no_zero: { All (λ b. 0 < b) bytes.items } by { Prim.hlevel props },
}

impl Identifier {
    ghost use Rattle.std.specs.Prelude.{◌≡◌, ◌<◌, ◌≤◌, ◌↔◌, length, All, IsSome, IfSome, IsTrue};
    ghost use Rattle.req_tree.specs.Subject.{identifier_bytes, IsIdentifier};

    /// The identifier of these bytes, and `None` where they are too many, or none, or one is zero.
    pub fn of(bytes: &[u8]) -> Option<Identifier>
        ensures fits { IsSome result ↔ IsIdentifier bytes.now }
        ensures bytes { IfSome result (λ identifier. identifier_bytes identifier ≡ bytes.now) }
    {
        let sized = !bytes.is_empty() && bytes.len() <= MOST_IDENTIFIER_BYTES;
        let no_zero = has_no_zero(bytes);
        if sized && no_zero {
            Some(Identifier::held(bytes))
        } else {
            None
        }
    }

    /// The same identifier, without memory.
    pub fn copied(&self) -> Identifier
        ensures { identifier_bytes result ≡ identifier_bytes self.now }
    {
        Identifier::held(self.as_slice())
    }

    pub fn as_slice(&self) -> &[u8]
        ensures bytes { result.now ≡ identifier_bytes self.now }
        ensures fits { IsIdentifier result.now }
    {
        self.bytes.as_slice()
    }

    fn held(bytes: &[u8]) -> Identifier
        requires { IsIdentifier bytes.now }
        ensures { identifier_bytes result ≡ bytes.now }
    {
        let mut held = ArrayVec::new();
        let _ = held.try_extend_from_slice(bytes);
        Identifier { bytes: held }
    }
}

fn has_no_zero(bytes: &[u8]) -> bool
    ensures { IsTrue result ↔ All (λ b. 0 < b) bytes.now }
{
    bytes.iter().all(|b| *b > 0)
}
