//! Numbers and slots.

ghost use Rattle.std.specs.Prelude.{◌≡◌, map};
ghost use Rattle.req_tokens.specs.Terminals.{plain, plains};
ghost use Rattle.req_tokens.specs.Words.{plain_sign, plain_word};
ghost use Rattle.req_primary.specs.Steps.{Gives};
ghost use Rattle.req_primary.specs.Tests as spec;

use crate::fault::ReadingFault;
use crate::step::{Rest, first_at, refused};
use req_tokens::{Sign, Terminal, Word};

/// The least number that is too large without a dash; with one it is the greatest.
const TOO_LARGE: u32 = 0x8000_0000;

/// A number of 32 bits with its sign.
#[tactic(auto, unfolding(crate::specs::Tests::number_at))]
pub(crate) fn number_at<'a>(size: u32, here: Rest<'a>) -> Result<(i32, Rest<'a>), ReadingFault>
    ensures { Gives (λ x. (x.0, plains x.1.now)) result (spec.number_at size (plains here.now)) }
{
    let (first, rest) = first_at(size, here)?;
    match first {
        Terminal::Int(number) => positive_of(size, here, number, rest),
        Terminal::Sign(sign) => signed_of(size, here, sign, rest),
        _ => Err(refused(size, here)),
    }
}

fn positive_of<'a>(
    size: u32,
    here: Rest<'a>,
    number: u32,
    rest: Rest<'a>,
) -> Result<(i32, Rest<'a>), ReadingFault>
    ensures { Gives (λ x. (x.0, plains x.1.now)) result (spec.positive_of size (plains here.now) number (plains rest.now)) }
{
    if number < TOO_LARGE {
        Ok((number as i32, rest))
    } else {
        Err(refused(size, here))
    }
}

fn signed_of<'a>(
    size: u32,
    here: Rest<'a>,
    sign: Sign,
    rest: Rest<'a>,
) -> Result<(i32, Rest<'a>), ReadingFault>
    ensures { Gives (λ x. (x.0, plains x.1.now)) result (spec.signed_of size (plains here.now) (plain_sign sign) (plains rest.now)) }
{
    match sign {
        Sign::Dash => negative_at(size, rest),
        _ => Err(refused(size, here)),
    }
}

/// A number that stands behind a dash.
#[tactic(auto, unfolding(crate::specs::Tests::negative_at))]
fn negative_at<'a>(size: u32, here: Rest<'a>) -> Result<(i32, Rest<'a>), ReadingFault>
    ensures { Gives (λ x. (x.0, plains x.1.now)) result (spec.negative_at size (plains here.now)) }
{
    let (first, rest) = first_at(size, here)?;
    match first {
        Terminal::Int(number) => below_zero(size, here, number, rest),
        _ => Err(refused(size, here)),
    }
}

fn below_zero<'a>(
    size: u32,
    here: Rest<'a>,
    number: u32,
    rest: Rest<'a>,
) -> Result<(i32, Rest<'a>), ReadingFault>
    ensures { Gives (λ x. (x.0, plains x.1.now)) result (spec.below_zero size (plains here.now) number (plains rest.now)) }
{
    if number <= TOO_LARGE {
        Ok((-(i64::from(number)) as i32, rest))
    } else {
        Err(refused(size, here))
    }
}

/// A place in the chain of certificates.
#[tactic(auto, unfolding(crate::specs::Tests::slot_at))]
pub(crate) fn slot_at<'a>(size: u32, here: Rest<'a>) -> Result<(i32, Rest<'a>), ReadingFault>
    ensures { Gives (λ x. (x.0, plains x.1.now)) result (spec.slot_at size (plains here.now)) }
{
    let (first, rest) = first_at(size, here)?;
    match first {
        Terminal::Word(word) => slot_of_word(size, here, word, rest),
        _ => number_at(size, here),
    }
}

fn slot_of_word<'a>(
    size: u32,
    here: Rest<'a>,
    word: Word,
    rest: Rest<'a>,
) -> Result<(i32, Rest<'a>), ReadingFault>
    ensures { Gives (λ x. (x.0, plains x.1.now)) result (spec.slot_of_word size (plains here.now) (plain_word word) (plains rest.now)) }
{
    match word {
        Word::Leaf => Ok((0, rest)),
        Word::Root => Ok((-1, rest)),
        _ => Err(refused(size, here)),
    }
}
