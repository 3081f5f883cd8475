//! How many bytes an expression has, counted up to one more than a blob may have.

ghost use Rattle.std.specs.Prelude.{◌≡◌, ◌+◌, length, min};
ghost use Rattle.req_blob.specs.declared.limits.TheConstants.{MOST_BYTES};
ghost use Rattle.req_tree.specs.Tree.{tree_of};
ghost use Rattle.req_blob.specs.Words.{datum, unpadded, match_text};
ghost use Rattle.req_blob.specs.Spelling.{plain};

use crate::field::padding;
use crate::limits::MOST_BYTES;
use req_tree::{Bytes, Match, Oid, Req};

/// One more byte than a blob may have.
const CAP: usize = MOST_BYTES + 1;

/// The bytes of the plain spelling, or the cap.
#[tactic(auto, using(crate::proofs::Lengths::lengths))]
pub(crate) fn plain_size(req: &Req) -> usize
    ensures { result ≡ min (length (plain (tree_of req.now))) (MOST_BYTES + 1) }
{
    match req {
        Req::Never => 4,
        Req::Always => 4,
        Req::Ident { value } => capped(4 + text_size(value)),
        Req::AppleAnchor => 4,
        Req::AnchorHash { slot: _, hash } => capped(8 + datum_size(&hash.bytes)),
        Req::LegacyInfo { key, value } => capped(4 + text_size(key) + text_size(value)),
        Req::Both { left, right } => capped(4 + plain_size(left) + plain_size(right)),
        Req::Either { left, right } => capped(4 + plain_size(left) + plain_size(right)),
        Req::CdHash { hash } => capped(4 + datum_size(&hash.bytes)),
        Req::Negate { inner } => capped(4 + plain_size(inner)),
        Req::InfoField { key, test } => capped(4 + text_size(key) + match_size(test)),
        Req::CertField { slot: _, key, test } => capped(8 + text_size(key) + match_size(test)),
        Req::TrustedCert { slot: _ } => 8,
        Req::TrustedAny => 4,
        Req::CertOid { slot: _, oid, test } => capped(8 + oid_size(oid) + match_size(test)),
        Req::AppleGeneric => 4,
        Req::EntitlementField { key, test } => capped(4 + text_size(key) + match_size(test)),
        Req::CertPolicy { slot: _, oid, test } => capped(8 + oid_size(oid) + match_size(test)),
        Req::NamedAnchor { name } => capped(4 + text_size(name)),
        Req::NamedCode { name } => capped(4 + text_size(name)),
        Req::Platform { number: _ } => 8,
        Req::Notarized => 4,
        Req::LegacyDevId => 4,
        Req::SkipFalse { op: _, skipped } => capped(4 + unpadded_size(skipped)),
        Req::SkipNext {
            op: _,
            skipped,
            inner,
        } => capped(4 + unpadded_size(skipped) + plain_size(inner)),
    }
}

#[tactic(auto, using(crate::proofs::Lengths::lengths))]
fn match_size(test: &Match) -> usize
    ensures { result ≡ min (length (match_text test.now)) (MOST_BYTES + 1) }
{
    match test {
        Match::Exists => 4,
        Match::Equal(value) => capped(4 + text_size(value)),
        Match::Contains(value) => capped(4 + text_size(value)),
        Match::Begins(value) => capped(4 + text_size(value)),
        Match::Ends(value) => capped(4 + text_size(value)),
        Match::Less(value) => capped(4 + text_size(value)),
        Match::Greater(value) => capped(4 + text_size(value)),
        Match::LessEqual(value) => capped(4 + text_size(value)),
        Match::GreaterEqual(value) => capped(4 + text_size(value)),
        Match::Absent => 4,
    }
}

fn text_size(text: &Bytes) -> usize
    ensures { result ≡ min (length (datum text.now)) (MOST_BYTES + 1) }
{
    datum_size(text.as_slice())
}

fn oid_size(oid: &Oid) -> usize
    ensures { result ≡ min (length (datum oid.now)) (MOST_BYTES + 1) }
{
    datum_size(oid.as_slice())
}

#[tactic(auto, using(crate::proofs::Lengths::lengths))]
fn datum_size(bytes: &[u8]) -> usize
    ensures { result ≡ min (length (datum bytes.now)) (MOST_BYTES + 1) }
{
    if bytes.len() >= CAP {
        return CAP;
    }
    capped(4 + bytes.len() + padding(bytes.len()))
}

#[tactic(auto, using(crate::proofs::Lengths::lengths))]
fn unpadded_size(bytes: &Bytes) -> usize
    ensures { result ≡ min (length (unpadded bytes.now)) (MOST_BYTES + 1) }
{
    let size = bytes.as_slice().len();
    if size >= CAP {
        return CAP;
    }
    capped(4 + size)
}

fn capped(size: usize) -> usize
    ensures { result ≡ min size (MOST_BYTES + 1) }
{
    size.min(CAP)
}
