//! Keys in brackets, and the tests behind them.

ghost use Rattle.std.specs.Prelude.{◌≡◌};
ghost use Rattle.req_primary.specs.Keys.{operand_tree};
ghost use Rattle.req_tokens.specs.Terminals.{plains};
ghost use Rattle.req_primary.specs.Steps.{Gives};
ghost use Rattle.req_primary.specs.Primaries as spec;

use crate::fault::ReadingFault;
use crate::operand::Operand;
use crate::plain::plain;
use crate::step::{Rest, left_bracket_at, right_bracket_at, text_at};
use crate::test::test_at;
use req_tree::{Bytes, Req};
use std::alloc::Global;

#[tactic(auto, unfolding(crate::specs::Primaries::key_at))]
fn key_at<'a>(alloc: Global, size: u32, here: Rest<'a>) -> Result<(Bytes, Rest<'a>), ReadingFault>
    ensures { Gives (λ x. (x.0, plains x.1.now)) result (spec.key_at size (plains here.now)) }
{
    let rest = left_bracket_at(size, here)?;
    let (key, rest) = text_at(alloc, size, rest)?;
    let rest = right_bracket_at(size, rest)?;
    Ok((key, rest))
}

#[tactic(auto, unfolding(crate::specs::Primaries::info_at))]
pub(crate) fn info_at<'a>(
    alloc: Global,
    size: u32,
    here: Rest<'a>,
) -> Result<(Operand, Rest<'a>), ReadingFault>
    ensures { Gives (λ x. (operand_tree x.0, plains x.1.now)) result (spec.info_at size (plains here.now)) }
{
    let (key, rest) = key_at(alloc, size, here)?;
    let (test, rest) = test_at(alloc, size, rest)?;
    Ok((plain(Req::InfoField { key, test }), rest))
}

#[tactic(auto, unfolding(crate::specs::Primaries::entitlement_at))]
pub(crate) fn entitlement_at<'a>(
    alloc: Global,
    size: u32,
    here: Rest<'a>,
) -> Result<(Operand, Rest<'a>), ReadingFault>
    ensures { Gives (λ x. (operand_tree x.0, plains x.1.now)) result (spec.entitlement_at size (plains here.now)) }
{
    let (key, rest) = key_at(alloc, size, here)?;
    let (test, rest) = test_at(alloc, size, rest)?;
    Ok((plain(Req::EntitlementField { key, test }), rest))
}

/// A test of the certificate in a slot, its key taken as a field's.
#[tactic(auto, unfolding(crate::specs::Primaries::cert_key_at))]
pub(crate) fn cert_key_at<'a>(
    alloc: Global,
    size: u32,
    slot: i32,
    here: Rest<'a>,
) -> Result<(Operand, Rest<'a>), ReadingFault>
    ensures { Gives (λ x. (operand_tree x.0, plains x.1.now)) result (spec.cert_key_at size slot (plains here.now)) }
{
    let (key, rest) = key_at(alloc, size, here)?;
    let (test, rest) = test_at(alloc, size, rest)?;
    Ok((Operand::CertKey { slot, key, test }, rest))
}
