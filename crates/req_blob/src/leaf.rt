//! Opcodes without subexpressions, with their operands.

ghost use Rattle.std.specs.Prelude.{◌≡◌};
ghost use Rattle.req_tree.specs.Tree.{tree_of};
ghost use Rattle.req_blob.specs.Reading.{Gives};
ghost use Rattle.req_blob.specs.Reading as spec;

use crate::fault::OpsFault;
use crate::field::{hash_at, key_at, match_at, oid_at, signed_at, text_at, unpadded_at};
use crate::opcode::Leaf;
use req_tree::Req;
use std::alloc::Global;

/// What stands behind an opcode that has no subexpressions.
#[tactic(auto, unfolding(crate::specs::Reading::leaf_at))]
pub(crate) fn leaf_at(
    alloc: Global,
    size: u32,
    leaf: Leaf,
    bytes: &[u8],
) -> Result<(Req, &[u8]), OpsFault>
    ensures { Gives (λ x. (tree_of x.0, x.1.now)) result (spec.leaf_at size leaf bytes.now) }
{
    match leaf {
        Leaf::Never => Ok((Req::Never, bytes)),
        Leaf::Always => Ok((Req::Always, bytes)),
        Leaf::Ident => ident_at(alloc, size, bytes),
        Leaf::AppleAnchor => Ok((Req::AppleAnchor, bytes)),
        Leaf::AnchorHash => anchor_hash_at(size, bytes),
        Leaf::LegacyInfo => legacy_info_at(alloc, size, bytes),
        Leaf::CdHash => cd_hash_at(size, bytes),
        Leaf::InfoField => info_field_at(alloc, size, bytes),
        Leaf::CertField => cert_field_at(alloc, size, bytes),
        Leaf::TrustedCert => trusted_cert_at(size, bytes),
        Leaf::TrustedAny => Ok((Req::TrustedAny, bytes)),
        Leaf::CertOid => cert_oid_at(alloc, size, bytes),
        Leaf::AppleGeneric => Ok((Req::AppleGeneric, bytes)),
        Leaf::EntitlementField => entitlement_field_at(alloc, size, bytes),
        Leaf::CertPolicy => cert_policy_at(alloc, size, bytes),
        Leaf::NamedAnchor => named_anchor_at(alloc, size, bytes),
        Leaf::NamedCode => named_code_at(alloc, size, bytes),
        Leaf::Platform => platform_at(size, bytes),
        Leaf::Notarized => Ok((Req::Notarized, bytes)),
        Leaf::LegacyDevId => Ok((Req::LegacyDevId, bytes)),
    }
}

#[tactic(auto, unfolding(crate::specs::Reading::ident_at))]
fn ident_at(alloc: Global, size: u32, bytes: &[u8]) -> Result<(Req, &[u8]), OpsFault>
    ensures { Gives (λ x. (tree_of x.0, x.1.now)) result (spec.ident_at size bytes.now) }
{
    let (value, rest) = text_at(alloc, size, bytes)?;
    Ok((Req::Ident { value }, rest))
}

#[tactic(auto, unfolding(crate::specs::Reading::anchor_hash_at))]
fn anchor_hash_at(size: u32, bytes: &[u8]) -> Result<(Req, &[u8]), OpsFault>
    ensures { Gives (λ x. (tree_of x.0, x.1.now)) result (spec.anchor_hash_at size bytes.now) }
{
    let (slot, rest) = signed_at(size, bytes)?;
    let (hash, rest) = hash_at(size, rest)?;
    Ok((Req::AnchorHash { slot, hash }, rest))
}

#[tactic(auto, unfolding(crate::specs::Reading::legacy_info_at))]
fn legacy_info_at(alloc: Global, size: u32, bytes: &[u8]) -> Result<(Req, &[u8]), OpsFault>
    ensures { Gives (λ x. (tree_of x.0, x.1.now)) result (spec.legacy_info_at size bytes.now) }
{
    let (key, rest) = text_at(alloc, size, bytes)?;
    let (value, rest) = text_at(alloc, size, rest)?;
    Ok((Req::LegacyInfo { key, value }, rest))
}

#[tactic(auto, unfolding(crate::specs::Reading::cd_hash_at))]
fn cd_hash_at(size: u32, bytes: &[u8]) -> Result<(Req, &[u8]), OpsFault>
    ensures { Gives (λ x. (tree_of x.0, x.1.now)) result (spec.cd_hash_at size bytes.now) }
{
    let (hash, rest) = hash_at(size, bytes)?;
    Ok((Req::CdHash { hash }, rest))
}

#[tactic(auto, unfolding(crate::specs::Reading::info_field_at))]
fn info_field_at(alloc: Global, size: u32, bytes: &[u8]) -> Result<(Req, &[u8]), OpsFault>
    ensures { Gives (λ x. (tree_of x.0, x.1.now)) result (spec.info_field_at size bytes.now) }
{
    let (key, rest) = text_at(alloc, size, bytes)?;
    let (test, rest) = match_at(alloc, size, rest)?;
    Ok((Req::InfoField { key, test }, rest))
}

#[tactic(auto, unfolding(crate::specs::Reading::cert_field_at))]
fn cert_field_at(alloc: Global, size: u32, bytes: &[u8]) -> Result<(Req, &[u8]), OpsFault>
    ensures { Gives (λ x. (tree_of x.0, x.1.now)) result (spec.cert_field_at size bytes.now) }
{
    let (slot, rest) = signed_at(size, bytes)?;
    let (key, rest) = key_at(alloc, size, rest)?;
    let (test, rest) = match_at(alloc, size, rest)?;
    Ok((Req::CertField { slot, key, test }, rest))
}

#[tactic(auto, unfolding(crate::specs::Reading::trusted_cert_at))]
fn trusted_cert_at(size: u32, bytes: &[u8]) -> Result<(Req, &[u8]), OpsFault>
    ensures { Gives (λ x. (tree_of x.0, x.1.now)) result (spec.trusted_cert_at size bytes.now) }
{
    let (slot, rest) = signed_at(size, bytes)?;
    Ok((Req::TrustedCert { slot }, rest))
}

#[tactic(auto, unfolding(crate::specs::Reading::cert_oid_at))]
fn cert_oid_at(alloc: Global, size: u32, bytes: &[u8]) -> Result<(Req, &[u8]), OpsFault>
    ensures { Gives (λ x. (tree_of x.0, x.1.now)) result (spec.cert_oid_at size bytes.now) }
{
    let (slot, rest) = signed_at(size, bytes)?;
    let (oid, rest) = oid_at(alloc, size, rest)?;
    let (test, rest) = match_at(alloc, size, rest)?;
    Ok((Req::CertOid { slot, oid, test }, rest))
}

#[tactic(auto, unfolding(crate::specs::Reading::entitlement_field_at))]
fn entitlement_field_at(alloc: Global, size: u32, bytes: &[u8]) -> Result<(Req, &[u8]), OpsFault>
    ensures { Gives (λ x. (tree_of x.0, x.1.now)) result (spec.entitlement_field_at size bytes.now) }
{
    let (key, rest) = text_at(alloc, size, bytes)?;
    let (test, rest) = match_at(alloc, size, rest)?;
    Ok((Req::EntitlementField { key, test }, rest))
}

#[tactic(auto, unfolding(crate::specs::Reading::cert_policy_at))]
fn cert_policy_at(alloc: Global, size: u32, bytes: &[u8]) -> Result<(Req, &[u8]), OpsFault>
    ensures { Gives (λ x. (tree_of x.0, x.1.now)) result (spec.cert_policy_at size bytes.now) }
{
    let (slot, rest) = signed_at(size, bytes)?;
    let (oid, rest) = oid_at(alloc, size, rest)?;
    let (test, rest) = match_at(alloc, size, rest)?;
    Ok((Req::CertPolicy { slot, oid, test }, rest))
}

#[tactic(auto, unfolding(crate::specs::Reading::named_anchor_at))]
fn named_anchor_at(alloc: Global, size: u32, bytes: &[u8]) -> Result<(Req, &[u8]), OpsFault>
    ensures { Gives (λ x. (tree_of x.0, x.1.now)) result (spec.named_anchor_at size bytes.now) }
{
    let (name, rest) = text_at(alloc, size, bytes)?;
    Ok((Req::NamedAnchor { name }, rest))
}

#[tactic(auto, unfolding(crate::specs::Reading::named_code_at))]
fn named_code_at(alloc: Global, size: u32, bytes: &[u8]) -> Result<(Req, &[u8]), OpsFault>
    ensures { Gives (λ x. (tree_of x.0, x.1.now)) result (spec.named_code_at size bytes.now) }
{
    let (name, rest) = text_at(alloc, size, bytes)?;
    Ok((Req::NamedCode { name }, rest))
}

#[tactic(auto, unfolding(crate::specs::Reading::platform_at))]
fn platform_at(size: u32, bytes: &[u8]) -> Result<(Req, &[u8]), OpsFault>
    ensures { Gives (λ x. (tree_of x.0, x.1.now)) result (spec.platform_at size bytes.now) }
{
    let (number, rest) = signed_at(size, bytes)?;
    Ok((Req::Platform { number }, rest))
}

/// An unknown opcode that is false, whatever it would have said.
#[tactic(auto, unfolding(crate::specs::Reading::skip_false_at))]
pub(crate) fn skip_false_at(
    alloc: Global,
    size: u32,
    op: u32,
    bytes: &[u8],
) -> Result<(Req, &[u8]), OpsFault>
    ensures { Gives (λ x. (tree_of x.0, x.1.now)) result (spec.skip_false_at size op bytes.now) }
{
    let (skipped, rest) = unpadded_at(alloc, size, bytes)?;
    Ok((Req::SkipFalse { op, skipped }, rest))
}
