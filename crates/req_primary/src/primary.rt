//! What a reserved word begins.

ghost use Rattle.std.specs.Prelude.{◌≡◌};
ghost use Rattle.req_primary.specs.Keys.{operand_tree};
ghost use Rattle.req_tokens.specs.Terminals.{plains};
ghost use Rattle.req_tokens.specs.Words.{plain_sign, plain_word};
ghost use Rattle.req_primary.specs.Steps.{Gives};
ghost use Rattle.req_primary.specs.Primaries as spec;

use crate::anchor::{anchor_at, cert_at};
use crate::fault::ReadingFault;
use crate::key::{entitlement_at, info_at};
use crate::number::number_at;
use crate::operand::Operand;
use crate::plain::plain;
use crate::step::{Rest, equal_at, hash_at, refused, sign_first, text_at};
use req_tokens::{Sign, Word};
use req_tree::Req;
use std::alloc::Global;

/// The operand that a word begins; the word is the first of the terminals here, and the rest stands behind it.
/// The key of a certificate's test is taken as a field's, whatever it is.
#[tactic(auto, unfolding(crate::specs::Primaries::primary_at))]
pub fn primary_at<'a>(
    alloc: Global,
    size: u32,
    word: Word,
    here: Rest<'a>,
    rest: Rest<'a>,
) -> Result<(Operand, Rest<'a>), ReadingFault>
    ensures { Gives (λ x. (operand_tree x.0, plains x.1.now)) result (spec.primary_at size (plain_word word) (plains here.now) (plains rest.now)) }
{
    match word {
        Word::Always => Ok((plain(Req::Always), rest)),
        Word::True => Ok((plain(Req::Always), rest)),
        Word::Never => Ok((plain(Req::Never), rest)),
        Word::False => Ok((plain(Req::Never), rest)),
        Word::Identifier => ident_at(alloc, size, rest),
        Word::Cdhash => cd_hash_at(size, rest),
        Word::Platform => platform_at(size, rest),
        Word::Notarized => Ok((plain(Req::Notarized), rest)),
        Word::Legacy => Ok((plain(Req::LegacyDevId), rest)),
        Word::Anchor => anchor_at(alloc, size, rest),
        Word::Certificate => cert_at(alloc, size, rest),
        Word::Cert => cert_at(alloc, size, rest),
        Word::Info => info_at(alloc, size, rest),
        Word::Entitlement => entitlement_at(alloc, size, rest),
        _ => Err(refused(size, here)),
    }
}

#[tactic(auto, unfolding(crate::specs::Primaries::ident_at))]
fn ident_at<'a>(
    alloc: Global,
    size: u32,
    here: Rest<'a>,
) -> Result<(Operand, Rest<'a>), ReadingFault>
    ensures { Gives (λ x. (operand_tree x.0, plains x.1.now)) result (spec.ident_at size (plains here.now)) }
{
    let (value, rest) = text_at(alloc, size, behind_equal(here))?;
    Ok((plain(Req::Ident { value }), rest))
}

/// The terminals behind an equals sign, or all of them where none is there.
#[tactic(auto, unfolding(crate::specs::Primaries::behind_equal))]
fn behind_equal<'a>(here: Rest<'a>) -> Rest<'a>
    ensures { plains result.now ≡ spec.behind_equal (plains here.now) }
{
    match sign_first(here) {
        Some((sign, rest)) => behind_sign(here, sign, rest),
        None => here,
    }
}

fn behind_sign<'a>(here: Rest<'a>, sign: Sign, rest: Rest<'a>) -> Rest<'a>
    ensures { plains result.now ≡ spec.behind_sign (plains here.now) (plain_sign sign) (plains rest.now) }
{
    match sign {
        Sign::Equal => rest,
        _ => here,
    }
}

#[tactic(auto, unfolding(crate::specs::Primaries::cd_hash_at))]
fn cd_hash_at<'a>(size: u32, here: Rest<'a>) -> Result<(Operand, Rest<'a>), ReadingFault>
    ensures { Gives (λ x. (operand_tree x.0, plains x.1.now)) result (spec.cd_hash_at size (plains here.now)) }
{
    let (hash, rest) = hash_at(size, here)?;
    Ok((plain(Req::CdHash { hash }), rest))
}

#[tactic(auto, unfolding(crate::specs::Primaries::platform_at))]
fn platform_at<'a>(size: u32, here: Rest<'a>) -> Result<(Operand, Rest<'a>), ReadingFault>
    ensures { Gives (λ x. (operand_tree x.0, plains x.1.now)) result (spec.platform_at size (plains here.now)) }
{
    let rest = equal_at(size, here)?;
    let (number, rest) = number_at(size, rest)?;
    Ok((plain(Req::Platform { number }), rest))
}
