//! The operands of an opcode: words, data, and what stands in them.

ghost use Rattle.std.specs.Prelude.{◌≡◌, ◌≤◌, ◌==◌, length};
ghost use Rattle.std.specs.List.{list_all};
ghost use Rattle.req_blob.specs.Reading.{Gives};
ghost use Rattle.req_blob.specs.Reading as spec;
ghost use Rattle.req_blob.specs.Words as words;

use crate::fault::OpsFault;
use req_tree::{Bytes, Hash20, Match, Oid, OidBytesFault, is_reserved, oid_from_bytes};
use std::alloc::Global;

/// Where the rest begins in a blob of this size.
pub(crate) fn place(size: u32, rest: &[u8]) -> u32
    ensures { result ≡ spec.place size rest.now }
{
    (size as usize).saturating_sub(rest.len()) as u32
}

/// Four bytes, the highest first.
#[tactic(auto, unfolding(crate::specs::Reading::word_at))]
pub(crate) fn word_at(size: u32, bytes: &[u8]) -> Result<(u32, &[u8]), OpsFault>
    ensures { Gives (λ x. (x.0, x.1.now)) result (spec.word_at size bytes.now) }
{
    if bytes.len() < 4 {
        return Err(OpsFault::Cut {
            at: place(size, bytes),
        });
    }
    let (front, rest) = bytes.split_at(4);
    let number = u32::from_be_bytes([front[0], front[1], front[2], front[3]]);
    Ok((number, rest))
}

/// A word in two's complement: a slot or a platform.
#[tactic(auto, unfolding(crate::specs::Reading::signed_at))]
pub(crate) fn signed_at(size: u32, bytes: &[u8]) -> Result<(i32, &[u8]), OpsFault>
    ensures { Gives (λ x. (x.0, x.1.now)) result (spec.signed_at size bytes.now) }
{
    let (number, rest) = word_at(size, bytes)?;
    Ok((number.cast_signed(), rest))
}

/// How many zeros fill a length up to a multiple of four.
pub(crate) fn padding(length: usize) -> usize
    ensures value { result ≡ words.padding length }
    ensures small { result ≤ 3 }
{
    (4 - length % 4) % 4
}

#[tactic(auto, unfolding(crate::specs::Reading::padded_at))]
fn padded_at(at: u32, count: u32, rest: &[u8]) -> Result<(&[u8], &[u8]), OpsFault>
    ensures { Gives (λ x. (x.0.now, x.1.now)) result (spec.padded_at at count rest.now) }
{
    let count = count as usize;
    let filled = padding(count);
    if rest.len() < count + filled {
        return Err(OpsFault::Cut { at });
    }
    let (text, rest) = rest.split_at(count);
    let (zeros, rest) = rest.split_at(filled);
    if all_zero(zeros) {
        Ok((text, rest))
    } else {
        Err(OpsFault::BadPadding { at })
    }
}

fn all_zero(bytes: &[u8]) -> bool
    ensures { result ≡ list_all (λ b. b == 0) bytes.now }
{
    bytes.iter().all(|byte| *byte == 0)
}

/// A length, that many bytes, and zeros up to a multiple of four.
#[tactic(auto, unfolding(crate::specs::Reading::datum_at))]
fn datum_at(size: u32, bytes: &[u8]) -> Result<(&[u8], &[u8]), OpsFault>
    ensures { Gives (λ x. (x.0.now, x.1.now)) result (spec.datum_at size bytes.now) }
{
    let (count, rest) = word_at(size, bytes)?;
    padded_at(place(size, bytes), count, rest)
}

pub(crate) fn text_at(alloc: Global, size: u32, bytes: &[u8]) -> Result<(Bytes, &[u8]), OpsFault>
    ensures { Gives (λ x. (x.0, x.1.now)) result (spec.datum_at size bytes.now) }
{
    let (text, rest) = datum_at(size, bytes)?;
    let text = Bytes::copy_of(alloc, text)?;
    Ok((text, rest))
}

/// A length and that many bytes, which nothing fills up.
#[tactic(auto, unfolding(crate::specs::Reading::unpadded_at))]
pub(crate) fn unpadded_at(
    alloc: Global,
    size: u32,
    bytes: &[u8],
) -> Result<(Bytes, &[u8]), OpsFault>
    ensures { Gives (λ x. (x.0, x.1.now)) result (spec.unpadded_at size bytes.now) }
{
    let (count, rest) = word_at(size, bytes)?;
    let count = count as usize;
    if rest.len() < count {
        return Err(OpsFault::Cut {
            at: place(size, bytes),
        });
    }
    let (text, rest) = rest.split_at(count);
    let text = Bytes::copy_of(alloc, text)?;
    Ok((text, rest))
}

#[tactic(auto, unfolding(crate::specs::Reading::hash_at))]
pub(crate) fn hash_at(size: u32, bytes: &[u8]) -> Result<(Hash20, &[u8]), OpsFault>
    ensures { Gives (λ x. (x.0.bytes, x.1.now)) result (spec.hash_at size bytes.now) }
{
    let (text, rest) = datum_at(size, bytes)?;
    if text.len() != 20 {
        return Err(OpsFault::BadHashLength {
            at: place(size, bytes),
        });
    }
    Ok((hash_of(text), rest))
}

fn hash_of(text: &[u8]) -> Hash20
    requires { length text.now ≡ 20 }
    ensures { result.bytes ≡ text.now }
{
    let mut bytes = [0; 20];
    bytes.copy_from_slice(text);
    Hash20 { bytes }
}

/// The key of a certificate's field, which none of the fronts that belong to other opcodes begins.
#[tactic(auto, unfolding(crate::specs::Reading::key_at))]
pub(crate) fn key_at(alloc: Global, size: u32, bytes: &[u8]) -> Result<(Bytes, &[u8]), OpsFault>
    ensures { Gives (λ x. (x.0, x.1.now)) result (spec.key_at size bytes.now) }
{
    let (text, rest) = datum_at(size, bytes)?;
    if is_reserved(text) {
        return Err(OpsFault::BadKey {
            at: place(size, bytes),
        });
    }
    let text = Bytes::copy_of(alloc, text)?;
    Ok((text, rest))
}

#[tactic(auto, unfolding(crate::specs::Reading::oid_at))]
pub(crate) fn oid_at(alloc: Global, size: u32, bytes: &[u8]) -> Result<(Oid, &[u8]), OpsFault>
    ensures { Gives (λ x. (x.0, x.1.now)) result (spec.oid_at size bytes.now) }
{
    let (text, rest) = datum_at(size, bytes)?;
    let oid = oid_of(alloc, place(size, bytes), text)?;
    Ok((oid, rest))
}

/// The object identifier in a datum that begins at a place.
#[tactic(auto, unfolding(crate::specs::Reading::oid_of))]
fn oid_of(alloc: Global, at: u32, text: &[u8]) -> Result<Oid, OpsFault>
    ensures { Gives (λ x. x) result (spec.oid_of at text.now) }
{
    match oid_from_bytes(alloc, text) {
        Ok(oid) => Ok(oid),
        Err(OidBytesFault::BadOid) => Err(OpsFault::BadOid { at }),
        Err(OidBytesFault::OutOfMemory) => Err(OpsFault::OutOfMemory),
    }
}

/// A suffix, and the text that it compares with.
#[tactic(auto, unfolding(crate::specs::Reading::match_at))]
pub(crate) fn match_at(alloc: Global, size: u32, bytes: &[u8]) -> Result<(Match, &[u8]), OpsFault>
    ensures { Gives (λ x. (x.0, x.1.now)) result (spec.match_at size bytes.now) }
{
    let (suffix, rest) = word_at(size, bytes)?;
    test_at(alloc, size, place(size, bytes), suffix, rest)
}

#[tactic(auto, unfolding(crate::specs::Reading::test_at))]
fn test_at(
    alloc: Global,
    size: u32,
    at: u32,
    suffix: u32,
    rest: &[u8],
) -> Result<(Match, &[u8]), OpsFault>
    ensures { Gives (λ x. (x.0, x.1.now)) result (spec.test_at size at suffix rest.now) }
{
    if suffix == 0 {
        return Ok((Match::Exists, rest));
    }
    if suffix == 14 {
        return Ok((Match::Absent, rest));
    }
    if 8 < suffix {
        return Err(OpsFault::UnknownMatch { at, suffix });
    }
    comparison_at(alloc, size, suffix, rest)
}

#[tactic(auto, unfolding(crate::specs::Reading::comparison_at))]
fn comparison_at(
    alloc: Global,
    size: u32,
    suffix: u32,
    bytes: &[u8],
) -> Result<(Match, &[u8]), OpsFault>
    ensures { Gives (λ x. (x.0, x.1.now)) result (spec.comparison_at size suffix bytes.now) }
{
    let (value, rest) = text_at(alloc, size, bytes)?;
    Ok((comparison(suffix, value), rest))
}

/// The comparison of a suffix from 1 to 8.
fn comparison(suffix: u32, value: Bytes) -> Match
    ensures { result ≡ spec.comparison suffix value }
{
    match suffix {
        1 => Match::Equal(value),
        2 => Match::Contains(value),
        3 => Match::Begins(value),
        4 => Match::Ends(value),
        5 => Match::Less(value),
        6 => Match::Greater(value),
        7 => Match::LessEqual(value),
        _ => Match::GreaterEqual(value),
    }
}
