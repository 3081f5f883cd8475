//! The words of a row behind its scope, read as what the row says.

ghost use Rattle.std.specs.Prelude.{◌≡◌, ◌≤◌, ℕ, length, option_map, IfOk, if◌then◌else◌, Some, None};
ghost use Rattle.std.specs.List.{list_all};
ghost use Rattle.req_tree.specs.NumericOrder.{is_digit, number_of};
ghost use Rattle.fact_values.specs.declared.place.Place.TheVariants.{CertField, CertOid, CertPolicy};
ghost use Rattle.code_facts.specs.OidText.{oid_of_text};
ghost use Rattle.code_facts.specs.Rows as spec;
ghost use Rattle.code_facts.specs.RowCode.{scope_of, fact_of, key_of, given_of};

use crate::row::{Fact, Given, Key};
use crate::scope::Scope;
use crate::slot::Slot;
use fact_values::{FactFlag, Place};
use req_tree::{OidFault, oid_from_text, read_hash};
use std::alloc::{AllocError, Global};

/// What a row of the scope says, or `None` where its words have no form of the scope's.
pub(crate) fn read_fact<'a>(
    alloc: Global,
    scope: Scope,
    slot: &[u8],
    key: &'a [u8],
    kind: &[u8],
    value: &'a [u8],
) -> Result<Option<Fact<'a>>, AllocError>
    ensures { IfOk result (λ fact. option_map fact_of fact ≡ spec.fact_words (scope_of scope) slot.now key.now kind.now value.now) }
{
    match scope {
        Scope::Flag => Ok(read_flag(slot, key, kind, value)),
        Scope::AnchorName => Ok(read_anchor_name(slot, key, kind, value)),
        Scope::CodeName => Ok(read_code_name(slot, key, kind, value)),
        Scope::Cert => Ok(read_certificate(slot, key, kind, value)),
        Scope::CertTrusted => Ok(read_trust(slot, key, kind, value)),
        Scope::CertField => Ok(read_entry(field_place(slot), Some(Key::Text(key)), kind, value)),
        Scope::CertOid => read_keyed_by_oid(alloc, extension_place(slot), key, kind, value),
        Scope::CertPolicy => read_keyed_by_oid(alloc, policy_place(slot), key, kind, value),
        Scope::Info => Ok(read_entry(
            no_place(slot, Place::Info),
            Some(Key::Text(key)),
            kind,
            value,
        )),
        Scope::Entitlement => Ok(read_entry(
            no_place(slot, Place::Entitlement),
            Some(Key::Text(key)),
            kind,
            value,
        )),
    }
}

fn read_flag<'a>(slot: &[u8], key: &'a [u8], kind: &[u8], value: &'a [u8]) -> Option<Fact<'a>>
    ensures { option_map fact_of result ≡ spec.fact_words spec.flag_scope slot.now key.now kind.now value.now }
{
    if !(slot.is_empty() && kind.is_empty() && value.is_empty()) {
        return None;
    }
    match flag_of(key) {
        Some(which) => Some(Fact::Flag(which)),
        None => None,
    }
}

fn flag_of(word: &[u8]) -> Option<FactFlag>
    ensures { result ≡ spec.flag_word word.now }
{
    if word == b"anchor-apple".as_slice() {
        Some(FactFlag::AppleAnchor)
    } else if word == b"anchor-apple-generic".as_slice() {
        Some(FactFlag::AppleGeneric)
    } else if word == b"notarized".as_slice() {
        Some(FactFlag::Notarized)
    } else if word == b"legacy".as_slice() {
        Some(FactFlag::LegacyDevId)
    } else {
        None
    }
}

fn read_anchor_name<'a>(
    slot: &[u8],
    key: &'a [u8],
    kind: &[u8],
    value: &'a [u8],
) -> Option<Fact<'a>>
    ensures { option_map fact_of result ≡ spec.fact_words spec.anchor_name_scope slot.now key.now kind.now value.now }
{
    if slot.is_empty() && kind.is_empty() && value.is_empty() {
        Some(Fact::AnchorName(key))
    } else {
        None
    }
}

fn read_code_name<'a>(slot: &[u8], key: &'a [u8], kind: &[u8], value: &'a [u8]) -> Option<Fact<'a>>
    ensures { option_map fact_of result ≡ spec.fact_words spec.code_name_scope slot.now key.now kind.now value.now }
{
    if slot.is_empty() && kind.is_empty() && value.is_empty() {
        Some(Fact::CodeName(key))
    } else {
        None
    }
}

fn read_certificate<'a>(
    slot: &[u8],
    key: &'a [u8],
    kind: &[u8],
    value: &'a [u8],
) -> Option<Fact<'a>>
    ensures { option_map fact_of result ≡ spec.certificate_words slot.now key.now kind.now value.now }
{
    if !(key.is_empty() && kind == b"hash".as_slice()) {
        return None;
    }
    let place = read_slot(slot)?;
    let hash = read_hash(value)?;
    Some(Fact::Certificate { place, hash })
}

fn read_trust<'a>(slot: &[u8], key: &'a [u8], kind: &[u8], value: &'a [u8]) -> Option<Fact<'a>>
    ensures { option_map fact_of result ≡ spec.trust_words slot.now key.now kind.now value.now }
{
    if !(key.is_empty() && kind.is_empty() && value.is_empty()) {
        return None;
    }
    let place = read_slot(slot)?;
    Some(Fact::Trust { place })
}

fn read_keyed_by_oid<'a>(
    alloc: Global,
    place: Option<Place>,
    key: &[u8],
    kind: &[u8],
    value: &'a [u8],
) -> Result<Option<Fact<'a>>, AllocError>
    ensures { IfOk result (λ fact. option_map fact_of fact ≡ spec.value_from place (oid_of_text key.now) (spec.given_words kind.now value.now)) }
{
    let key = read_oid(alloc, key)?;
    Ok(read_entry(place, key, kind, value))
}

/// A key that is the text of an object identifier.
fn read_oid<'a>(alloc: Global, key: &[u8]) -> Result<Option<Key<'a>>, AllocError>
    ensures { IfOk result (λ read. option_map key_of read ≡ oid_of_text key.now) }
{
    match oid_from_text(alloc, key) {
        Ok(oid) => Ok(Some(Key::Oid(oid))),
        Err(OidFault::OutOfMemory) => Err(AllocError),
        Err(_) => Ok(None),
    }
}

fn read_entry<'a>(
    place: Option<Place>,
    key: Option<Key<'a>>,
    kind: &[u8],
    value: &'a [u8],
) -> Option<Fact<'a>>
    ensures { option_map fact_of result ≡ spec.value_from place (option_map key_of key.entry) (spec.given_words kind.now value.now) }
{
    let place = place?;
    let key = key?;
    let given = read_given(kind, value)?;
    Some(Fact::Entry { place, key, given })
}

fn read_given<'a>(kind: &[u8], value: &'a [u8]) -> Option<Given<'a>>
    ensures { option_map given_of result ≡ spec.given_words kind.now value.now }
{
    if kind == b"text".as_slice() {
        Some(Given::Text(value))
    } else if kind == b"item".as_slice() {
        Some(Given::Item(value))
    } else if kind == b"true".as_slice() {
        no_more(value, Given::Truth(true))
    } else if kind == b"false".as_slice() {
        no_more(value, Given::Truth(false))
    } else {
        None
    }
}

/// What stands without a value.
fn no_more<'a>(value: &[u8], given: Given<'a>) -> Option<Given<'a>>
    ensures { option_map given_of result ≡ spec.given_if (spec.is_empty value.now) (given_of given.entry) }
{
    if value.is_empty() { Some(given) } else { None }
}

fn no_place(slot: &[u8], place: Place) -> Option<Place>
    ensures { result ≡ spec.unslotted slot.now place }
{
    if slot.is_empty() { Some(place) } else { None }
}

fn field_place(word: &[u8]) -> Option<Place>
    ensures { result ≡ option_map CertField (spec.place_word word.now) }
{
    let slot = read_slot(word)?;
    Some(Place::CertField(slot.number))
}

fn extension_place(word: &[u8]) -> Option<Place>
    ensures { result ≡ option_map CertOid (spec.place_word word.now) }
{
    let slot = read_slot(word)?;
    Some(Place::CertOid(slot.number))
}

fn policy_place(word: &[u8]) -> Option<Place>
    ensures { result ≡ option_map CertPolicy (spec.place_word word.now) }
{
    let slot = read_slot(word)?;
    Some(Place::CertPolicy(slot.number))
}

/// A number of at most five digits without a leading zero.
fn read_slot(word: &[u8]) -> Option<Slot>
    ensures { option_map (λ slot. slot.number) result ≡ spec.place_word word.now }
{
    match word {
        [] => None,
        [b'0', _, ..] => None,
        _ => {
            if word.len() > 5 {
                None
            } else {
                read_digits(word)
            }
        }
    }
}

fn read_digits(word: &[u8]) -> Option<Slot>
    requires { length word.now ≤ 5 }
    ensures { option_map (λ slot. slot.number) result ≡ (if list_all is_digit word.now then Some (number_of word.now) else None) }
{
    let mut number = 0;
    for digit in word {
        if !digit.is_ascii_digit() {
            return None;
        }
        number = number * 10 + u32::from(*digit - b'0');
    }
    Some(Slot { number })
}
