//! What a single word stands for.

ghost use Rattle.std.specs.Prelude.{◌≡◌, ◌≤◌, ◌*◌, ◌≤ℤ◌, ◌==◌, nat_le, nat_lt, pos, position, length, Some, None, if◌then◌else◌, IfSome};
ghost use Rattle.std.specs.Option.{option_map};
ghost use Rattle.std.specs.List.{list_all};
ghost use Rattle.policy_model.specs.declared.limits.TheConstants.{UNIT};
ghost use Rattle.line_model.specs.declared.limits.TheConstants.{GREATEST_UNITS};
ghost use Rattle.line_model.specs.Words.{moment_word, expiry_word, kind_word, any_kind_word, rule_word, switch_word, allow_word, priority_word, amount_word, units_word, fraction_word, label_word, name_word, flags_word, identifier_word, platform_word};
ghost use Rattle.rule_values.specs.Label.{label_bytes};
ghost use Rattle.line_words.specs.Flags.{flags_of};
ghost use Rattle.req_tree.specs.Subject.{identifier_bytes};
ghost use Rattle.rule_values.specs.Kind.{kind_of};

use crate::flags::Flags;
use crate::number::read_number;
use crate::word_text::read_bytes;
use line_model::limits::{
    FRACTION_DIGITS, GREATEST_PLATFORM, GREATEST_UNITS, MOMENT_DIGITS, PLATFORM_DIGITS,
    PRIORITY_DIGITS, RULE_DIGITS,
};
use policy_model::limits::{GREATEST_MOMENT, MOST_LABEL_BYTES, MOST_RECEIPTS, UNIT};
use req_tree::{Identifier, MOST_IDENTIFIER_BYTES};
use rule_values::{Kind, Label, Moment, Priority, RuleId};

pub fn read_moment(word: &[u8]) -> Option<Moment>
    ensures { result ≡ moment_word word.now }
{
    Moment::of(read_number(word, MOMENT_DIGITS, GREATEST_MOMENT)?)
}

/// A moment, or `Some(None)` for the word `never`.
pub fn read_expiry(word: &[u8]) -> Option<Option<Moment>>
    ensures { result ≡ expiry_word word.now }
{
    if word == b"never".as_slice() {
        return Some(None);
    }
    let moment = read_moment(word)?;
    Some(Some(moment))
}

pub fn read_kind(word: &[u8]) -> Option<Kind>
    ensures { option_map kind_of result ≡ kind_word word.now }
{
    if word == b"execute".as_slice() {
        Some(Kind::Execute)
    } else if word == b"install".as_slice() {
        Some(Kind::Install)
    } else if word == b"open".as_slice() {
        Some(Kind::Document)
    } else {
        None
    }
}

/// A kind, or `Some(None)` for the word `any`.
pub fn read_any_kind(word: &[u8]) -> Option<Option<Kind>>
    ensures { option_map (λ kind. option_map kind_of kind) result ≡ any_kind_word word.now }
{
    if word == b"any".as_slice() {
        return Some(None);
    }
    let kind = read_kind(word)?;
    Some(Some(kind))
}

/// The number of a rule, which may have zeros in front.
pub fn read_rule(word: &[u8]) -> Option<RuleId>
    ensures { result ≡ rule_word word.now }
{
    RuleId::of(read_number(word, RULE_DIGITS, u64::from(MOST_RECEIPTS))? as u32)
}

/// Whether assessments are switched on.
pub fn read_switch(word: &[u8]) -> Option<bool>
    ensures { result ≡ switch_word word.now }
{
    match word {
        b"on" => Some(true),
        b"off" => Some(false),
        _ => None,
    }
}

/// Whether a rule allows.
pub fn read_allow(word: &[u8]) -> Option<bool>
    ensures { result ≡ allow_word word.now }
{
    match word {
        b"allow" => Some(true),
        b"deny" => Some(false),
        _ => None,
    }
}

/// A priority: whole units and perhaps a fraction, with a minus sign or none.
pub fn read_priority(word: &[u8]) -> Option<Priority>
    ensures { result ≡ priority_word word.now }
{
    match word {
        [] => None,
        [b'-', amount @ ..] => {
            let millionths = read_amount(amount)?;
            Priority::of(-millionths)
        }
        _ => Priority::of(read_amount(word)?),
    }
}

/// Up to a million units, in millionths.
fn read_amount(word: &[u8]) -> Option<i64>
    ensures value { result ≡ option_map pos (amount_word word.now) }
    ensures least { IfSome result (λ n. pos 0 ≤ℤ n) }
    ensures greatest { IfSome result (λ n. n ≤ℤ pos 1000000000000) }
{
    let millionths = match find_dot(word) {
        None => read_units(word)?,
        Some(dot) => {
            let units = read_units(&word[..dot])?;
            let fraction = read_fraction(&word[dot + 1..])?;
            within(units + fraction)?
        }
    };
    Some(millionths as i64)
}

/// The place of the first dot.
fn find_dot(word: &[u8]) -> Option<usize>
    ensures { result ≡ position (λ byte. byte == 46) word.now }
{
    word.iter().position(|byte| *byte == b'.')
}

/// Up to a million whole units, in millionths.
fn read_units(word: &[u8]) -> Option<u64>
    ensures value { result ≡ units_word word.now }
    ensures most { IfSome result (λ n. n ≤ GREATEST_UNITS * UNIT) }
{
    let units = read_number(word, PRIORITY_DIGITS, GREATEST_UNITS)?;
    Some(units * UNIT)
}

/// The digits of a fraction, in millionths.
fn read_fraction(word: &[u8]) -> Option<u64>
    ensures value { result ≡ fraction_word word.now }
    ensures most { IfSome result (λ n. n ≤ 1000000000000) }
{
    let number = read_number(word, FRACTION_DIGITS, UNIT - 1)?;
    Some(number * 10u64.pow((FRACTION_DIGITS - word.len()) as u32))
}

/// At most the greatest priority.
fn within(millionths: u64) -> Option<u64>
    ensures { result ≡ (if nat_le millionths (GREATEST_UNITS * UNIT) then Some millionths else None) }
{
    if millionths <= GREATEST_UNITS * UNIT {
        Some(millionths)
    } else {
        None
    }
}

/// A rule's label.
pub fn read_label(word: &[u8]) -> Option<Label>
    ensures { option_map label_bytes result ≡ label_word word.now }
{
    let bytes = read_bytes(word, MOST_LABEL_BYTES)?;
    Some(Label::holding(bytes.as_slice()))
}

/// A label that isn't empty.
pub fn read_name(word: &[u8]) -> Option<Label>
    ensures bytes { option_map label_bytes result ≡ name_word word.now }
    ensures named { IfSome result (λ label. 1 ≤ length (label_bytes label)) }
{
    let label = read_label(word)?;
    if label.as_slice().is_empty() {
        None
    } else {
        Some(label)
    }
}

/// A rule's flags.
pub fn read_flags(word: &[u8]) -> Option<Flags>
    ensures { option_map flags_of result ≡ flags_word word.now }
{
    if word == b"-".as_slice() {
        Some(flags(false, false))
    } else if word == b"default".as_slice() {
        Some(flags(true, false))
    } else if word == b"inhibit".as_slice() {
        Some(flags(false, true))
    } else if word == b"default+inhibit".as_slice() {
        Some(flags(true, true))
    } else {
        None
    }
}

fn flags(is_default: bool, inhibit: bool) -> Flags
    ensures { flags_of result ≡ record { is_default = is_default; inhibit = inhibit } }
{
    Flags {
        is_default,
        inhibit,
    }
}

/// An identifier.
pub fn read_identifier(word: &[u8]) -> Option<Identifier>
    ensures { option_map identifier_bytes result ≡ identifier_word word.now }
{
    let bytes = read_bytes(word, MOST_IDENTIFIER_BYTES)?;
    if has_no_zero(bytes.as_slice()) {
        Identifier::of(bytes.as_slice())
    } else {
        None
    }
}

fn has_no_zero(bytes: &[u8]) -> bool
    ensures { result ≡ list_all (λ b. nat_lt 0 b) bytes.now }
{
    bytes.iter().all(|byte| 0 < *byte)
}

/// The number of a platform, 0 to 255.
pub fn read_platform(word: &[u8]) -> Option<u8>
    ensures { result ≡ platform_word word.now }
{
    let number = read_number(word, PLATFORM_DIGITS, GREATEST_PLATFORM)?;
    Some(number as u8)
}
