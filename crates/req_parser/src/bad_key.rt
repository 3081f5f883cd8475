//! The first key of a certificate's test that stands for no test.

ghost use Rattle.std.specs.Prelude.{◌≡◌, ◌≤◌, ◌↔◌, ℕ, length, drop, option_map, IfOk, MatchOption};
ghost use Rattle.req_grammar.specs.declared.limits.TheConstants.{MOST_TEXT_BYTES};
ghost use Rattle.req_grammar.specs.ReadingFaults.{IsFirstBadKey};
ghost use Rattle.req_grammar.specs.ReadingFaults as faults;
ghost use Rattle.req_tokens.specs.Terminals.{plain, plains};
ghost use Rattle.req_tokens.specs.Words.{plain_sign, plain_word};
ghost use Rattle.req_tokens.specs.Strings.{str_value};
ghost use Rattle.req_parser.specs.BadKeys.{FrontTold};
ghost use Rattle.req_grammar.specs.Laws.{HasGoodKeys};
ghost use Rattle.req_parser.specs.BadKeys as spec;

use req_primary::{Rest, cut, is_bad_key};
use req_tokens::{Sign, StrToken, Terminal, Word};
use std::alloc::{AllocError, Global};

/// The place of the first bad key, where there is one.
pub(crate) fn first_bad_key<'a>(alloc: Global, list: Rest<'a>) -> Result<Option<u32>, AllocError>
    requires { length list.now ≤ MOST_TEXT_BYTES }
    ensures { IfOk result (λ found. MatchOption found (HasGoodKeys (plains list.now)) (IsFirstBadKey (plains list.now))) }
{
    for at in 0..list.len() {
        if is_bad_front(alloc, list.split_at(at).1)? {
            return Ok(Some(at as u32 + 2));
        }
    }
    Ok(None)
}

/// Whether terminals begin with one and a bracket, and then a bad key of a certificate's test.
fn is_bad_front<'a>(alloc: Global, here: Rest<'a>) -> Result<bool, AllocError>
    ensures { IfOk result (λ bad. FrontTold bad (plains here.now)) }
{
    match cert_key(here) {
        None => Ok(false),
        Some(token) => {
            let key = token.value(alloc)?;
            is_bad_key(alloc, key.as_slice())
        }
    }
}

/// The key behind a terminal and a bracket, unless the terminal is `info` or `entitlement`.
fn cert_key<'a>(here: Rest<'a>) -> Option<StrToken<'a>>
    ensures { option_map str_value result ≡ spec.cert_key (plains here.now) }
{
    let (before, rest) = cut(here)?;
    if is_field_word(before) {
        return None;
    }
    let rest = bracket_at(rest)?;
    string_at(rest)
}

fn string_at<'a>(here: Rest<'a>) -> Option<StrToken<'a>>
    ensures { option_map str_value result ≡ spec.string_at (plains here.now) }
{
    let (first, _) = cut(here)?;
    match first {
        Terminal::Str(token) => Some(token),
        _ => None,
    }
}

fn bracket_at<'a>(here: Rest<'a>) -> Option<Rest<'a>>
    ensures { option_map (λ x. plains x.now) result ≡ spec.bracket_at (plains here.now) }
{
    let (first, rest) = cut(here)?;
    match first {
        Terminal::Sign(sign) => bracket_of(sign, rest),
        _ => None,
    }
}

fn bracket_of<'a>(sign: Sign, rest: Rest<'a>) -> Option<Rest<'a>>
    ensures { option_map (λ x. plains x.now) result ≡ spec.bracket_of (plain_sign sign) (plains rest.now) }
{
    match sign {
        Sign::LeftBracket => Some(rest),
        _ => None,
    }
}

/// Whether a terminal is `info` or `entitlement`.
fn is_field_word(terminal: Terminal<'_>) -> bool
    ensures { result ≡ faults.is_field_word (plain terminal.entry) }
{
    match terminal {
        Terminal::Word(word) => is_field(word),
        _ => false,
    }
}

fn is_field(word: Word) -> bool
    ensures { result ≡ spec.is_field (plain_word word) }
{
    match word {
        Word::Info => true,
        Word::Entitlement => true,
        _ => false,
    }
}
