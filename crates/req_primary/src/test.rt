//! Tests of a value.

ghost use Rattle.std.specs.Prelude.{◌≡◌};
ghost use Rattle.req_tokens.specs.Terminals.{plain, plains};
ghost use Rattle.req_tokens.specs.Words.{plain_sign, plain_word};
ghost use Rattle.req_primary.specs.Steps.{Gives};
ghost use Rattle.req_primary.specs.Tests as spec;

use crate::fault::ReadingFault;
use crate::step::{Rest, cut, star_at, text_at};
use req_tokens::{Sign, Terminal, Word};
use req_tree::{Bytes, Match};
use std::alloc::Global;

/// What is asked of a value; where nothing is, that it is there.
#[tactic(auto, unfolding(crate::specs::Tests::test_at))]
pub(crate) fn test_at<'a>(
    alloc: Global,
    size: u32,
    here: Rest<'a>,
) -> Result<(Match, Rest<'a>), ReadingFault>
    ensures { Gives (λ x. (x.0, plains x.1.now)) result (spec.test_at size (plains here.now)) }
{
    match cut(here) {
        None => Ok((Match::Exists, here)),
        Some((first, rest)) => test_of(alloc, size, here, first, rest),
    }
}

fn test_of<'a>(
    alloc: Global,
    size: u32,
    here: Rest<'a>,
    first: Terminal<'a>,
    rest: Rest<'a>,
) -> Result<(Match, Rest<'a>), ReadingFault>
    ensures { Gives (λ x. (x.0, plains x.1.now)) result (spec.test_of size (plains here.now) (plain first.entry) (plains rest.now)) }
{
    match first {
        Terminal::Word(word) => Ok(test_of_word(here, word, rest)),
        Terminal::Sign(sign) => test_of_sign(alloc, size, here, sign, rest),
        _ => Ok((Match::Exists, here)),
    }
}

fn test_of_word<'a>(here: Rest<'a>, word: Word, rest: Rest<'a>) -> (Match, Rest<'a>)
    ensures test { result.0 ≡ (spec.test_of_word (plains here.now) (plain_word word) (plains rest.now)).0 }
    ensures rest { plains result.1.now ≡ (spec.test_of_word (plains here.now) (plain_word word) (plains rest.now)).1 }
{
    match word {
        Word::Exists => (Match::Exists, rest),
        Word::Absent => (Match::Absent, rest),
        _ => (Match::Exists, here),
    }
}

fn test_of_sign<'a>(
    alloc: Global,
    size: u32,
    here: Rest<'a>,
    sign: Sign,
    rest: Rest<'a>,
) -> Result<(Match, Rest<'a>), ReadingFault>
    ensures { Gives (λ x. (x.0, plains x.1.now)) result (spec.test_of_sign size (plains here.now) (plain_sign sign) (plains rest.now)) }
{
    match sign {
        Sign::Equal => value_at(alloc, size, rest),
        Sign::Tilde => compared_at(alloc, size, sign, rest),
        Sign::Less => compared_at(alloc, size, sign, rest),
        Sign::Greater => compared_at(alloc, size, sign, rest),
        Sign::LessEqual => compared_at(alloc, size, sign, rest),
        Sign::GreaterEqual => compared_at(alloc, size, sign, rest),
        _ => Ok((Match::Exists, here)),
    }
}

/// The string behind a symbol that compares.
#[tactic(auto, unfolding(crate::specs::Tests::compared_at))]
fn compared_at<'a>(
    alloc: Global,
    size: u32,
    sign: Sign,
    here: Rest<'a>,
) -> Result<(Match, Rest<'a>), ReadingFault>
    ensures { Gives (λ x. (x.0, plains x.1.now)) result (spec.compared_at size (plain_sign sign) (plains here.now)) }
{
    let (text, rest) = text_at(alloc, size, here)?;
    Ok((compared(sign, text), rest))
}

fn compared(sign: Sign, text: Bytes) -> Match
    ensures { result ≡ spec.compared (plain_sign sign) text }
{
    match sign {
        Sign::Tilde => Match::Contains(text),
        Sign::Less => Match::Less(text),
        Sign::Greater => Match::Greater(text),
        Sign::LessEqual => Match::LessEqual(text),
        _ => Match::GreaterEqual(text),
    }
}

/// What stands behind an equals sign.
#[tactic(auto, unfolding(crate::specs::Tests::value_at))]
fn value_at<'a>(alloc: Global, size: u32, here: Rest<'a>) -> Result<(Match, Rest<'a>), ReadingFault>
    ensures { Gives (λ x. (x.0, plains x.1.now)) result (spec.value_at size (plains here.now)) }
{
    match star_at(here) {
        None => begins_at(alloc, size, here),
        Some(rest) => ends_at(alloc, size, rest),
    }
}

#[tactic(auto, unfolding(crate::specs::Tests::begins_at))]
fn begins_at<'a>(
    alloc: Global,
    size: u32,
    here: Rest<'a>,
) -> Result<(Match, Rest<'a>), ReadingFault>
    ensures { Gives (λ x. (x.0, plains x.1.now)) result (spec.begins_at size (plains here.now)) }
{
    let (text, rest) = text_at(alloc, size, here)?;
    match star_at(rest) {
        None => Ok((Match::Equal(text), rest)),
        Some(after) => Ok((Match::Begins(text), after)),
    }
}

#[tactic(auto, unfolding(crate::specs::Tests::ends_at))]
fn ends_at<'a>(alloc: Global, size: u32, here: Rest<'a>) -> Result<(Match, Rest<'a>), ReadingFault>
    ensures { Gives (λ x. (x.0, plains x.1.now)) result (spec.ends_at size (plains here.now)) }
{
    let (text, rest) = text_at(alloc, size, here)?;
    match star_at(rest) {
        None => Ok((Match::Ends(text), rest)),
        Some(after) => Ok((Match::Contains(text), after)),
    }
}
