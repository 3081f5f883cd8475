//! What is asked of the certificates.

ghost use Rattle.std.specs.Prelude.{◌≡◌, negsuc};
ghost use Rattle.req_primary.specs.Keys.{operand_tree};
ghost use Rattle.req_tokens.specs.Terminals.{plains};
ghost use Rattle.req_tokens.specs.Terminals as terminal;
ghost use Rattle.req_tokens.specs.Words.{plain_sign, plain_word};
ghost use Rattle.req_primary.specs.Steps.{Gives};
ghost use Rattle.req_primary.specs.Primaries as spec;

use crate::fault::ReadingFault;
use crate::key::cert_key_at;
use crate::number::slot_at;
use crate::operand::Operand;
use crate::plain::plain;
use crate::step::{Rest, cut, first_at, hash_at, refused};
use req_tokens::{Sign, Terminal, Word};
use req_tree::Req;
use std::alloc::Global;

/// The slot of the anchor, the last certificate of the chain.
const ANCHOR: i32 = -1;

/// What is asked of the anchor.
#[tactic(auto, unfolding(crate::specs::Primaries::anchor_at))]
pub(crate) fn anchor_at<'a>(
    alloc: Global,
    size: u32,
    here: Rest<'a>,
) -> Result<(Operand, Rest<'a>), ReadingFault>
    ensures { Gives (λ x. (operand_tree x.0, plains x.1.now)) result (spec.anchor_at size (plains here.now)) }
{
    let (first, rest) = first_at(size, here)?;
    match first {
        Terminal::Word(word) => anchor_of_word(alloc, size, here, word, rest),
        Terminal::Sign(sign) => slotted_of_sign(alloc, size, ANCHOR, here, sign, rest),
        _ => Err(refused(size, here)),
    }
}

fn anchor_of_word<'a>(
    alloc: Global,
    size: u32,
    here: Rest<'a>,
    word: Word,
    rest: Rest<'a>,
) -> Result<(Operand, Rest<'a>), ReadingFault>
    ensures { Gives (λ x. (operand_tree x.0, plains x.1.now)) result (spec.anchor_of_word size (plains here.now) (plain_word word) (plains rest.now)) }
{
    match word {
        Word::Apple => apple_at(alloc, rest),
        Word::Trusted => Ok((plain(Req::TrustedAny), rest)),
        _ => Err(refused(size, here)),
    }
}

/// Apple's anchor, any certificate below it, or one by its name.
#[tactic(auto, unfolding(crate::specs::Primaries::apple_at))]
fn apple_at<'a>(alloc: Global, here: Rest<'a>) -> Result<(Operand, Rest<'a>), ReadingFault>
    ensures { Gives (λ x. (operand_tree x.0, plains x.1.now)) result (spec.apple_at (plains here.now)) }
{
    match cut(here) {
        None => Ok((plain(Req::AppleAnchor), here)),
        Some((first, rest)) => apple_of(alloc, here, first, rest),
    }
}

fn apple_of<'a>(
    alloc: Global,
    here: Rest<'a>,
    first: Terminal<'a>,
    rest: Rest<'a>,
) -> Result<(Operand, Rest<'a>), ReadingFault>
    ensures { Gives (λ x. (operand_tree x.0, plains x.1.now)) result (spec.apple_of (plains here.now) (terminal.plain first.entry) (plains rest.now)) }
{
    match first {
        Terminal::Word(word) => apple_of_word(here, word, rest),
        Terminal::Str(token) => {
            let name = token.value(alloc)?;
            Ok((plain(Req::NamedAnchor { name }), rest))
        }
        _ => Ok((plain(Req::AppleAnchor), here)),
    }
}

fn apple_of_word<'a>(
    here: Rest<'a>,
    word: Word,
    rest: Rest<'a>,
) -> Result<(Operand, Rest<'a>), ReadingFault>
    ensures { Gives (λ x. (operand_tree x.0, plains x.1.now)) result (spec.apple_of_word (plains here.now) (plain_word word) (plains rest.now)) }
{
    match word {
        Word::Generic => Ok((plain(Req::AppleGeneric), rest)),
        _ => Ok((plain(Req::AppleAnchor), here)),
    }
}

/// What is asked of a certificate by its slot.
#[tactic(auto, unfolding(crate::specs::Primaries::cert_at))]
pub(crate) fn cert_at<'a>(
    alloc: Global,
    size: u32,
    here: Rest<'a>,
) -> Result<(Operand, Rest<'a>), ReadingFault>
    ensures { Gives (λ x. (operand_tree x.0, plains x.1.now)) result (spec.cert_at size (plains here.now)) }
{
    let (slot, rest) = slot_at(size, here)?;
    slotted_at(alloc, size, slot, rest)
}

#[tactic(auto, unfolding(crate::specs::Primaries::slotted_at))]
fn slotted_at<'a>(
    alloc: Global,
    size: u32,
    slot: i32,
    here: Rest<'a>,
) -> Result<(Operand, Rest<'a>), ReadingFault>
    ensures { Gives (λ x. (operand_tree x.0, plains x.1.now)) result (spec.slotted_at size slot (plains here.now)) }
{
    let (first, rest) = first_at(size, here)?;
    match first {
        Terminal::Word(word) => slotted_of_word(size, slot, here, word, rest),
        Terminal::Sign(sign) => slotted_of_sign(alloc, size, slot, here, sign, rest),
        _ => Err(refused(size, here)),
    }
}

fn slotted_of_word<'a>(
    size: u32,
    slot: i32,
    here: Rest<'a>,
    word: Word,
    rest: Rest<'a>,
) -> Result<(Operand, Rest<'a>), ReadingFault>
    ensures { Gives (λ x. (operand_tree x.0, plains x.1.now)) result (spec.slotted_of_word size slot (plains here.now) (plain_word word) (plains rest.now)) }
{
    match word {
        Word::Trusted => Ok((plain(Req::TrustedCert { slot }), rest)),
        _ => Err(refused(size, here)),
    }
}

fn slotted_of_sign<'a>(
    alloc: Global,
    size: u32,
    slot: i32,
    here: Rest<'a>,
    sign: Sign,
    rest: Rest<'a>,
) -> Result<(Operand, Rest<'a>), ReadingFault>
    ensures { Gives (λ x. (operand_tree x.0, plains x.1.now)) result (spec.slotted_of_sign size slot (plains here.now) (plain_sign sign) (plains rest.now)) }
{
    match sign {
        Sign::Equal => anchor_hash_at(size, slot, rest),
        _ => cert_key_at(alloc, size, slot, here),
    }
}

#[tactic(auto, unfolding(crate::specs::Primaries::anchor_hash_at))]
fn anchor_hash_at<'a>(
    size: u32,
    slot: i32,
    here: Rest<'a>,
) -> Result<(Operand, Rest<'a>), ReadingFault>
    ensures { Gives (λ x. (operand_tree x.0, plains x.1.now)) result (spec.anchor_hash_at size slot (plains here.now)) }
{
    let (hash, rest) = hash_at(size, here)?;
    Ok((plain(Req::AnchorHash { slot, hash }), rest))
}
