//! Object identifiers read from bytes and written to them: numbers in base 128.

ghost use Rattle.std.specs.Prelude.{◌≡◌, ◌↔◌, ◌<◌, ◌++◌, ℕ, List, length, true, false, option_map, IfOk, IfSome, OnOk, IsErrOf, IsTrue};
ghost use Rattle.req_tree.specs.Oid.{IsOidBytes, WritesNumber};
ghost use Rattle.req_tree.specs.Steps.{HasNumbers, IsNumberFront};
ghost use Rattle.req_tree.specs.Steps as steps;
ghost use Rattle.req_tree.specs.OidReading as reading;

use crate::fault::OidBytesFault;
use crate::oid::Oid;
use line_text::Bytes;
use std::alloc::{AllocError, Global};

/// Refuses bytes that aren't those of an object identifier.
pub fn oid_from_bytes(alloc: Global, bytes: &[u8]) -> Result<Oid, OidBytesFault>
    ensures bytes { IfOk result (λ oid. oid ≡ bytes.now) }
    ensures found { OnOk result (IsOidBytes bytes.now) }
    ensures bad { IsErrOf result OidBytesFault.BadOid ↔ ¬ (IsOidBytes bytes.now) }

    // The same in the words of the reading.
    ensures read { OnOk result (reading.is_oid bytes.now ≡ true) }
    ensures refused { IsErrOf result OidBytesFault.BadOid → reading.is_oid bytes.now ≡ false }
{
    if !is_oid(bytes) {
        return Err(OidBytesFault::BadOid);
    }
    let bytes = Bytes::copy_of(alloc, bytes)?;
    Ok(Oid::held(bytes))
}

/// Whether bytes are those of an object identifier.
pub fn is_oid(bytes: &[u8]) -> bool
    ensures oid { IsTrue result ↔ IsOidBytes bytes.now }
    ensures read { result ≡ reading.is_oid bytes.now }
{
    if bytes.is_empty() {
        return false;
    }
    has_numbers(bytes)
}

fn has_numbers(bytes: &[u8]) -> bool
    ensures { IsTrue result ↔ HasNumbers bytes.now }
{
    let mut rest = bytes;
    while let Some((_, after)) = number_at(rest) {
        rest = after;
    }
    rest.is_empty()
}

/// The number at the front of the bytes, and what follows it.
pub(crate) fn number_at(bytes: &[u8]) -> Option<(u32, &[u8])>
    ensures number { option_map (λ p. (p.0, p.1.now)) result ≡ reading.septets_at bytes.now }
    ensures shorter { IfSome result (λ p. length p.1.now < length bytes.now) }
{
    if bytes.first() == Some(&128) {
        return None;
    }
    number_from(bytes)
}

fn number_from(bytes: &[u8]) -> Option<(u32, &[u8])>
    ensures number { option_map (λ p. (p.0, p.1.now)) result ≡ reading.septets_from 0 bytes.now }
    ensures shorter { IfSome result (λ p. length p.1.now < length bytes.now) }
{
    let mut part = 0;
    for (at, byte) in bytes.iter().enumerate() {
        let number = with_septet(part, *byte)?;
        if *byte < 128 {
            return Some((number, bytes.split_at(at + 1).1));
        }
        part = number;
    }
    None
}

/// The part of a number with seven more bits, and `None` where it is 2^32 or more.
fn with_septet(part: u32, byte: u8) -> Option<u32>
    ensures { result ≡ steps.with_septet part byte }
{
    let number = 128 * u64::from(part) + u64::from(byte % 128);
    u32::try_from(number).ok()
}

/// Appends a number in the fewest bytes of base 128.
pub(crate) fn push_number(out: &mut Vec<u8>, number: u32) -> Result<(), AllocError>
    ensures { OnOk result ((bytes : List ℕ) × WritesNumber number bytes × (out.new.items ≡ out.old.items ++ bytes)) }
{
    push_front(out, number / 128)?;
    out.push((number % 128) as u8)?;
    Ok(())
}

fn push_front(out: &mut Vec<u8>, number: u32) -> Result<(), AllocError>
    ensures { OnOk result ((front : List ℕ) × IsNumberFront number front × (out.new.items ≡ out.old.items ++ front)) }
{
    if number == 0 {
        return Ok(());
    }
    push_front(out, number / 128)?;
    out.push(128 + (number % 128) as u8)?;
    Ok(())
}
