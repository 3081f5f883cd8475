//! Object identifiers read from text and written to it: arcs in decimal with dots between them.

ghost use Rattle.std.specs.Prelude.{◌≡◌, ◌≢◌, ◌≤◌, ◌^◌, ◌-◌, ◌*◌, ◌/◌, min, true, false, MatchOption, ◌∷◌, ◌++◌, ◌<◌, ℕ, List, length, Ok, Err, option_map, IfOk, IfErr, IfSome, OnOk, MatchResult, decimal};
ghost use Rattle.req_tree.specs.Oid.{IsOid, IsOidBytes, IsOidText, WriteNumbers, dotted};
ghost use Rattle.req_tree.specs.OidReading as reading;
ghost use Rattle.req_tree.specs.OidReading.{ReadsNumbers};
ghost use Rattle.req_tree.specs.Steps.{IsArcValue, PushesNumbers, dotted_arc};
ghost use Rattle.req_tree.specs.Steps as steps;
ghost use Rattle.req_tree.specs.NumericOrder.{number_of};
ghost use Rattle.std.specs.List.{flat_map};
ghost use Rattle.std.specs.Str.{all_ascii_digits};
ghost use Rattle.std.specs.Result.{result_map_both};

use crate::fault::OidFault;
use crate::oid::Oid;
use crate::oid_bytes::{number_at, push_number};
use itoa::Buffer;
use line_text::Bytes;
use std::alloc::{AllocError, Global};

/// The least number that is too large for one number of an object identifier.
const TOO_LARGE: u64 = 1 << 32;

/// Reads arcs from the left; the first that is bad decides what is refused.
pub fn oid_from_text(alloc: Global, text: &[u8]) -> Result<Oid, OidFault>
    ensures found { IfOk result (λ oid. IsOidText oid text.now) }
    ensures only { (oid : List ℕ) → IsOidText oid text.now → MatchResult result (λ read. read ≡ oid) (λ fault. fault ≡ OidFault.OutOfMemory) }
    // The numbers of its arcs were read, or the fault is the first.
    ensures numbers { ReadsNumbers (reading.numbers_of_text text.now) result }
{
    match read_numbers(alloc, text) {
        Ok(bytes) => Ok(Oid::held(Bytes::from_vec(bytes))),
        Err(fault) => Err(fault),
    }
}

/// The arcs in decimal, with dots between them.
pub fn oid_to_text(alloc: Global, oid: &Oid) -> Result<Bytes, AllocError>
    ensures { IfOk result (λ text. IsOidText oid.now text) }
{
    let mut text = Vec::new(alloc);
    push_oid(&mut text, oid.as_slice())?;
    Ok(Bytes::from_vec(text))
}

fn read_numbers(alloc: Global, text: &[u8]) -> Result<Vec<u8>, OidFault>
    ensures { ReadsNumbers (reading.numbers_of_text text.now) (result_map_both (λ bytes. bytes.items) (λ fault. fault) result) }
{
    let (number, rest) = first_number(text)?;
    let mut bytes = Vec::new(alloc);
    push_number(&mut bytes, number)?;
    push_later_numbers(&mut bytes, rest)?;
    Ok(bytes)
}

/// The number of the first two arcs, and the text behind the dot that follows them.
fn first_number(text: &[u8]) -> Result<(u32, Option<&[u8]>), OidFault>
    ensures { result_map_both (λ p. (p.0, steps.words_of (option_map (λ r. r.now) p.1))) (λ fault. fault) result ≡ reading.first_number (reading.arc_words text.now) }
{
    let (word, rest) = cut_word(text);
    let Some(first) = arc_value(word) else {
        return Err(OidFault::BadArc);
    };
    if first > 2 {
        return Err(OidFault::BadArc);
    }
    let Some(rest) = rest else {
        return Err(OidFault::TooShort);
    };
    second_number(first, rest)
}

fn second_number(first: u64, text: &[u8]) -> Result<(u32, Option<&[u8]>), OidFault>
    requires { first ≤ 2 }
    ensures { result_map_both (λ p. (p.0, steps.words_of (option_map (λ r. r.now) p.1))) (λ fault. fault) result ≡ reading.second_number first (reading.arc_words text.now) }
{
    let (word, rest) = cut_word(text);
    let Some(second) = arc_value(word) else {
        return Err(OidFault::BadArc);
    };
    if first < 2 && second > 39 {
        return Err(OidFault::BadArc);
    }
    let Ok(number) = u32::try_from(40 * first + second) else {
        return Err(OidFault::ArcTooLarge);
    };
    Ok((number, rest))
}

fn push_later_numbers(out: &mut Vec<u8>, text: Option<&[u8]>) -> Result<(), OidFault>
    ensures { PushesNumbers out.old.items out.new.items (reading.later_numbers (steps.words_of (option_map (λ r. r.now) text.entry))) result }
{
    let mut rest = text;
    while let Some(text) = rest {
        let (word, after) = cut_word(text);
        push_number(out, arc_number(word)?)?;
        rest = after;
    }
    Ok(())
}

fn arc_number(word: &[u8]) -> Result<u32, OidFault>
    ensures { result ≡ reading.arc_number word.now }
{
    let Some(value) = arc_value(word) else {
        return Err(OidFault::BadArc);
    };
    let Ok(number) = u32::try_from(value) else {
        return Err(OidFault::ArcTooLarge);
    };
    Ok(number)
}

/// The bytes up to the first dot, and what follows it.
fn cut_word(text: &[u8]) -> (&[u8], Option<&[u8]>)
    ensures words { reading.arc_words text.now ≡ result.0.now ∷ steps.words_of (option_map (λ r. r.now) result.1) }
    ensures shorter { IfSome result.1 (λ rest. length rest.now < length text.now) }
{
    for (at, byte) in text.iter().enumerate() {
        if *byte == b'.' {
            return (text.split_at(at).0, Some(text.split_at(at + 1).1));
        }
    }
    (text, None)
}

/// An arc's value, or 2^32 where it is more, and `None` where the word is no arc.
fn arc_value(word: &[u8]) -> Option<u64>
    ensures { IsArcValue word.now result }
{
    match word {
        [] => None,
        [b'0', _, ..] => None,
        _ => digits_value(word),
    }
}

fn digits_value(word: &[u8]) -> Option<u64>
    ensures { MatchOption result (all_ascii_digits word.now ≡ false) (λ value. (all_ascii_digits word.now ≡ true) × (value ≡ min (number_of word.now) (2 ^ 32))) }
{
    let mut value = 0u64;
    for byte in word {
        if !byte.is_ascii_digit() {
            return None;
        }
        value = (10 * value + u64::from(*byte - b'0')).min(TOO_LARGE);
    }
    Some(value)
}

fn push_oid(text: &mut Vec<u8>, bytes: &[u8]) -> Result<(), AllocError>
    requires { IsOidBytes bytes.now }
    ensures { OnOk result ((arcs : List ℕ) × IsOid arcs bytes.now × (text.new.items ≡ text.old.items ++ dotted arcs)) }
{
    let Some((number, rest)) = number_at(bytes) else {
        unreachable!();
    };
    push_first(text, number)?;
    push_arcs(text, rest)?;
    Ok(())
}

/// Appends the two arcs of the first number.
fn push_first(text: &mut Vec<u8>, number: u32) -> Result<(), AllocError>
    ensures { OnOk result (text.new.items ≡ text.old.items ++ (decimal (min (number / 40) 2) ++ 46 ∷ decimal (number - 40 * min (number / 40) 2))) }
{
    let first = (number / 40).min(2);
    push_decimal(text, first)?;
    text.push(b'.')?;
    push_decimal(text, number - 40 * first)?;
    Ok(())
}

fn push_arcs(text: &mut Vec<u8>, bytes: &[u8]) -> Result<(), AllocError>
    ensures { OnOk result ((numbers : List ℕ) → WriteNumbers numbers bytes.now → text.new.items ≡ text.old.items ++ flat_map dotted_arc numbers) }
{
    let mut rest = bytes;
    while let Some((number, after)) = number_at(rest) {
        text.push(b'.')?;
        push_decimal(text, number)?;
        rest = after;
    }
    Ok(())
}

fn push_decimal(text: &mut Vec<u8>, number: u32) -> Result<(), AllocError>
    ensures { OnOk result (text.new.items ≡ text.old.items ++ decimal number) }
{
    let mut buffer = Buffer::new();
    text.extend_from_slice(buffer.format(number).as_bytes())?;
    Ok(())
}
