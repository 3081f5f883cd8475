//! One terminal at the front of the rest.

ghost use Rattle.std.specs.Prelude.{◌≡◌, ◌<◌, ◌^◌, length, map, option_map, IfOk, IsOk};
ghost use Rattle.req_tokens.specs.Terminals.{plain, plains};
ghost use Rattle.req_tokens.specs.Words.{plain_sign};
ghost use Rattle.req_primary.specs.Steps.{Gives};
ghost use Rattle.req_primary.specs.Steps as spec;

use crate::fault::ReadingFault;
use req_tokens::{Sign, Terminal};
use req_tree::{Bytes, Hash20};
use std::alloc::Global;

/// The terminals that are still to be read.
pub type Rest<'a> = &'a [Terminal<'a>];

/// The place of the first terminal of the rest, of so many terminals in all.
pub fn place<'a>(size: u32, rest: Rest<'a>) -> u32
    ensures { result ≡ spec.place size (plains rest.now) }
{
    (size as usize).saturating_sub(rest.len()) as u32
}

/// The fault of a terminal, or of the end, that may not stand there.
pub fn refused<'a>(size: u32, here: Rest<'a>) -> ReadingFault
    ensures { result ≡ ReadingFault.Syntax (spec.place size (plains here.now)) }
{
    ReadingFault::Syntax {
        token: place(size, here),
    }
}

/// The first terminal, and those behind it.
pub fn cut<'a>(here: Rest<'a>) -> Option<(Terminal<'a>, Rest<'a>)>
    ensures { option_map (λ x. (plain x.0, plains x.1.now)) result ≡ spec.cut (plains here.now) }
{
    match here {
        [] => None,
        [first, rest @ ..] => Some((*first, rest)),
    }
}

/// The same where there has to be one.
#[tactic(auto, unfolding(crate::specs::Steps::first_at))]
pub fn first_at<'a>(size: u32, here: Rest<'a>) -> Result<(Terminal<'a>, Rest<'a>), ReadingFault>
    ensures { Gives (λ x. (plain x.0, plains x.1.now)) result (spec.first_at size (plains here.now)) }
{
    match cut(here) {
        Some(parts) => Ok(parts),
        None => Err(refused(size, here)),
    }
}

/// Any symbol.
#[tactic(auto, unfolding(crate::specs::Steps::sign_at))]
pub fn sign_at<'a>(size: u32, here: Rest<'a>) -> Result<(Sign, Rest<'a>), ReadingFault>
    ensures { Gives (λ x. (plain_sign x.0, plains x.1.now)) result (spec.sign_at size (plains here.now)) }
{
    let (first, rest) = first_at(size, here)?;
    match first {
        Terminal::Sign(sign) => Ok((sign, rest)),
        _ => Err(refused(size, here)),
    }
}

/// What follows a right parenthesis.
#[tactic(auto, unfolding(crate::specs::Steps::close_at))]
pub fn close_at<'a>(size: u32, here: Rest<'a>) -> Result<Rest<'a>, ReadingFault>
    ensures { Gives (λ x. plains x.now) result (spec.close_at size (plains here.now)) }
{
    let (sign, rest) = sign_at(size, here)?;
    match sign {
        Sign::RightParen => Ok(rest),
        _ => Err(refused(size, here)),
    }
}

/// What follows a left bracket.
#[tactic(auto, unfolding(crate::specs::Steps::left_bracket_at))]
pub(crate) fn left_bracket_at<'a>(size: u32, here: Rest<'a>) -> Result<Rest<'a>, ReadingFault>
    ensures { Gives (λ x. plains x.now) result (spec.left_bracket_at size (plains here.now)) }
{
    let (sign, rest) = sign_at(size, here)?;
    match sign {
        Sign::LeftBracket => Ok(rest),
        _ => Err(refused(size, here)),
    }
}

/// What follows a right bracket.
#[tactic(auto, unfolding(crate::specs::Steps::right_bracket_at))]
pub(crate) fn right_bracket_at<'a>(size: u32, here: Rest<'a>) -> Result<Rest<'a>, ReadingFault>
    ensures { Gives (λ x. plains x.now) result (spec.right_bracket_at size (plains here.now)) }
{
    let (sign, rest) = sign_at(size, here)?;
    match sign {
        Sign::RightBracket => Ok(rest),
        _ => Err(refused(size, here)),
    }
}

/// What follows an equals sign.
#[tactic(auto, unfolding(crate::specs::Steps::equal_at))]
pub(crate) fn equal_at<'a>(size: u32, here: Rest<'a>) -> Result<Rest<'a>, ReadingFault>
    ensures { Gives (λ x. plains x.now) result (spec.equal_at size (plains here.now)) }
{
    let (sign, rest) = sign_at(size, here)?;
    match sign {
        Sign::Equal => Ok(rest),
        _ => Err(refused(size, here)),
    }
}

/// The bytes of a string.
#[tactic(auto, unfolding(crate::specs::Steps::text_at))]
pub(crate) fn text_at<'a>(
    alloc: Global,
    size: u32,
    here: Rest<'a>,
) -> Result<(Bytes, Rest<'a>), ReadingFault>
    ensures { Gives (λ x. (x.0, plains x.1.now)) result (spec.text_at size (plains here.now)) }
{
    let (first, rest) = first_at(size, here)?;
    match first {
        Terminal::Str(token) => {
            let text = token.value(alloc)?;
            Ok((text, rest))
        }
        _ => Err(refused(size, here)),
    }
}

/// The bytes of a hash.
#[tactic(auto, unfolding(crate::specs::Steps::hash_at))]
pub(crate) fn hash_at<'a>(size: u32, here: Rest<'a>) -> Result<(Hash20, Rest<'a>), ReadingFault>
    ensures { Gives (λ x. (x.0.bytes, plains x.1.now)) result (spec.hash_at size (plains here.now)) }
{
    let (first, rest) = first_at(size, here)?;
    match first {
        Terminal::Hash(hash) => Ok((hash, rest)),
        _ => Err(refused(size, here)),
    }
}

/// The symbol at the front and what follows it, where one stands there.
pub(crate) fn sign_first<'a>(here: Rest<'a>) -> Option<(Sign, Rest<'a>)>
    ensures { option_map (λ x. (plain_sign x.0, plains x.1.now)) result ≡ spec.sign_first (plains here.now) }
{
    let (first, rest) = cut(here)?;
    match first {
        Terminal::Sign(sign) => Some((sign, rest)),
        _ => None,
    }
}

/// What follows a star, where one stands there.
#[tactic(auto, unfolding(crate::specs::Steps::star_at))]
pub(crate) fn star_at<'a>(here: Rest<'a>) -> Option<Rest<'a>>
    ensures { option_map (λ x. plains x.now) result ≡ spec.star_at (plains here.now) }
{
    let (sign, rest) = sign_first(here)?;
    match sign {
        Sign::Star => Some(rest),
        _ => None,
    }
}
