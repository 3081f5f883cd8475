//! How long the token, separator or comment at the front of a text is.

ghost use Rattle.std.specs.Prelude.{◌≡◌, ◌≤◌, ◌+◌, ◌==◌, ◌%◌, ◌&&◌, length};
ghost use Rattle.std.specs.List.{list_all};
ghost use Rattle.req_grammar.specs.declared.limits.TheConstants.{MOST_TEXT_BYTES};
ghost use Rattle.req_tokens.specs.Sorts.{plain_sort};
ghost use Rattle.req_tokens.specs.Cutting as spec;

use crate::fault::TextFault;
use crate::number::{TOO_LARGE, number_of};
use crate::part::{behind, first};
use crate::reach::{End, cut, reach};
use crate::sort::Sort;
use crate::word::sign_of;

/// How many bytes are cut off the front of a text that is of this sort and begins at a place.
pub(crate) fn length_of(sort: Sort, at: u32, text: &[u8]) -> Result<usize, TextFault>
    requires { at + length text.now ≤ MOST_TEXT_BYTES }
    ensures { result ≡ spec.length_of (plain_sort sort) at text.now }
{
    match sort {
        Sort::Hash => hash_length(at, text),
        Sort::Hex => hex_length(at, text),
        Sort::Integer => integer_length(at, text),
        Sort::Word => Ok(reach(End::Word, text)),
        Sort::Quoted => quoted_length(at, text),
        Sort::Symbol => symbol_length(at, text),
        Sort::Blank => Ok(1),
        Sort::Block => block_length(at, text),
        Sort::Line => Ok(reach(End::Line, text)),
    }
}

/// `H"`, 40 hexadecimal digits and the closing quote.
#[tactic(auto, unfolding(crate::specs::Cutting::hash_length))]
fn hash_length(at: u32, text: &[u8]) -> Result<usize, TextFault>
    ensures { result ≡ spec.hash_length at text.now }
{
    let (digits, rest) = cut(End::Hash, behind(text, 2));
    if rest.is_empty() {
        Err(TextFault::OpenString { at })
    } else if is_hash_text(digits) {
        Ok(43)
    } else {
        Err(TextFault::BadHex { at })
    }
}

fn is_hash_text(digits: &[u8]) -> bool
    ensures { result ≡ spec.is_hash_text digits.now }
{
    let whole = digits.len() == 40;
    whole && is_hex_text(digits)
}

fn is_hex_text(digits: &[u8]) -> bool
    ensures { result ≡ list_all spec.is_hex_digit digits.now }
{
    digits.iter().all(|digit| digit.is_ascii_hexdigit())
}

/// `0x`, and the letters and digits behind it.
#[tactic(auto, unfolding(crate::specs::Cutting::hex_length))]
fn hex_length(at: u32, text: &[u8]) -> Result<usize, TextFault>
    ensures { result ≡ spec.hex_length at text.now }
{
    let (digits, _) = cut(End::Run, behind(text, 2));
    if is_bytes_text(digits) {
        Ok(digits.len() + 2)
    } else {
        Err(TextFault::BadHex { at })
    }
}

/// Whether these are digits of bytes, one byte at least.
fn is_bytes_text(digits: &[u8]) -> bool
    ensures { result ≡ spec.is_bytes_text digits.now }
{
    let even = digits.len() % 2 == 0;
    is_some_hex(digits) & even
}

fn is_some_hex(digits: &[u8]) -> bool
    ensures { result ≡ spec.is_some_hex digits.now }
{
    match digits.split_first() {
        Some((first, rest)) => first.is_ascii_hexdigit() && is_hex_text(rest),
        None => false,
    }
}

/// All digits from the first on.
#[tactic(auto, unfolding(crate::specs::Cutting::integer_length))]
fn integer_length(at: u32, text: &[u8]) -> Result<usize, TextFault>
    ensures { result ≡ spec.integer_length at text.now }
{
    let (digits, _) = cut(End::Digits, text);
    if number_of(digits) < TOO_LARGE {
        Ok(digits.len())
    } else {
        Err(TextFault::IntTooLarge { at })
    }
}

/// A quoted string with its quotes. That it isn't closed is found before what is wrong inside it.
#[tactic(auto, unfolding(crate::specs::Cutting::quoted_length))]
fn quoted_length(at: u32, text: &[u8]) -> Result<usize, TextFault>
    requires { at + length text.now ≤ MOST_TEXT_BYTES }
    ensures { result ≡ spec.quoted_length at text.now }
{
    let (open, rest) = cut(End::Quoted, text);
    if rest.is_empty() {
        return Err(TextFault::OpenString { at });
    }
    escaped_length(at, first(text, open.len() + 2))
}

/// A quoted string that is closed; each backslash has to stand before a quote.
#[tactic(auto, unfolding(crate::specs::Cutting::escaped_length))]
fn escaped_length(at: u32, text: &[u8]) -> Result<usize, TextFault>
    requires { at + length text.now ≤ MOST_TEXT_BYTES }
    ensures { result ≡ spec.escaped_length at text.now }
{
    let sound = reach(End::Escapes, text);
    if sound == text.len() {
        Ok(text.len())
    } else {
        Err(TextFault::BadByte {
            at: at + sound as u32,
        })
    }
}

/// The longer of two symbols that begin alike.
#[tactic(auto, unfolding(crate::specs::Cutting::symbol_length))]
fn symbol_length(at: u32, text: &[u8]) -> Result<usize, TextFault>
    ensures { result ≡ spec.symbol_length at text.now }
{
    let two = first(text, 2);
    if sign_of(two).is_some() {
        Ok(two.len())
    } else if sign_of(first(text, 1)).is_some() {
        Ok(1)
    } else {
        Err(TextFault::BadByte { at })
    }
}

/// `/*`, and what follows up to the next `*/`.
#[tactic(auto, unfolding(crate::specs::Cutting::block_length))]
fn block_length(at: u32, text: &[u8]) -> Result<usize, TextFault>
    ensures { result ≡ spec.block_length at text.now }
{
    let (inside, rest) = cut(End::Block, behind(text, 2));
    if rest.is_empty() {
        Err(TextFault::OpenComment { at })
    } else {
        Ok(inside.len() + 4)
    }
}
