//! What the key of a certificate's test stands for.

ghost use Rattle.std.specs.Prelude.{◌≡◌, ◌==◌, ℕ, List, true, drop, codes, IfOk, IsTrue, MatchOption, ◌↔◌};
ghost use Rattle.std.specs.List.{starts_with};
ghost use Rattle.req_tree.specs.Tree.{tree_of};
ghost use Rattle.req_tree.specs.Tree as t;
ghost use Rattle.req_tree.specs.Depth.{depth_of};
ghost use Rattle.req_tree.specs.Oid.{IsOidText};
ghost use Rattle.req_tree.specs.Spellable as spellable;
ghost use Rattle.req_primary.specs.Keys.{Tells, outcome_of, operand_tree, Means, KeyTold};

use crate::built::{Built, leaf};
use crate::operand::{Operand, PlainReq};
use req_tree::{Bytes, Match, Oid, OidFault, Req, is_reserved, oid_from_text};
use std::alloc::{AllocError, Global};

/// What a key asks for.
pub(crate) enum Meaning {
    /// A field, by the key itself.
    Field,
    /// The extension of this identifier.
    Extension(Oid),
    /// The policy of this identifier.
    Policy(Oid),
    /// Nothing: the key is bad.
    Nothing,
}

/// An operand becomes the requirement that is meant.
pub fn settled(alloc: Global, operand: Operand) -> Result<Built, AllocError>
    ensures { depth_of (operand_tree operand) ≡ 1 → IfOk result (λ built. Tells (operand_tree operand) (outcome_of built)) }
{
    match operand {
        Operand::Plain(plain) => settled_plain(alloc, plain),
        Operand::CertKey { slot, key, test } => settled_key(alloc, slot, key, test),
    }
}

fn settled_plain(alloc: Global, plain: PlainReq) -> Result<Built, AllocError>
    ensures { depth_of (tree_of plain.req) ≡ 1 → IfOk result (λ built. Tells (tree_of plain.req) (outcome_of built)) }
{
    leaf(alloc, plain.req)
}

fn settled_key(alloc: Global, slot: i32, key: Bytes, test: Match) -> Result<Built, AllocError>
    ensures { IfOk result (λ built. Tells (t.cert_field slot key test) (outcome_of built)) }
{
    match meaning_of(alloc, key.as_slice()) {
        Ok(meaning) => meant(alloc, slot, key, test, meaning),
        Err(fault) => {
            drop(test);
            Err(fault)
        }
    }
}

fn meant(
    alloc: Global,
    slot: i32,
    key: Bytes,
    test: Match,
    meaning: Meaning,
) -> Result<Built, AllocError>
    requires { Means key meaning }
    ensures { IfOk result (λ built. Tells (t.cert_field slot key test) (outcome_of built)) }
{
    match meaning {
        Meaning::Field => leaf(alloc, Req::CertField { slot, key, test }),
        Meaning::Extension(oid) => leaf(alloc, Req::CertOid { slot, oid, test }),
        Meaning::Policy(oid) => leaf(alloc, Req::CertPolicy { slot, oid, test }),
        Meaning::Nothing => {
            drop(test);
            Ok(Built::BadKey)
        }
    }
}

/// Whether a key stands for no test of a certificate.
pub fn is_bad_key(alloc: Global, key: &[u8]) -> Result<bool, AllocError>
    ensures { IfOk result (λ bad. KeyTold bad key.now) }
{
    let meaning = meaning_of(alloc, key)?;
    Ok(is_nothing(meaning))
}

fn is_nothing(meaning: Meaning) -> bool
    ensures { (key : List ℕ) → Means key meaning → KeyTold result key }
{
    match meaning {
        Meaning::Field => false,
        Meaning::Extension(oid) => {
            drop(oid);
            false
        }
        Meaning::Policy(oid) => {
            drop(oid);
            false
        }
        Meaning::Nothing => true,
    }
}

fn meaning_of(alloc: Global, key: &[u8]) -> Result<Meaning, AllocError>
    ensures { IfOk result (Means key.now) }
{
    if is_reserved(key) {
        reserved_meaning(alloc, key)
    } else {
        Ok(Meaning::Field)
    }
}

fn reserved_meaning(alloc: Global, key: &[u8]) -> Result<Meaning, AllocError>
    requires { spellable.is_reserved key.now ≡ true }
    ensures { IfOk result (Means key.now) }
{
    if key.starts_with(b"field.") {
        extension_of(alloc, key)
    } else if key.starts_with(b"policy.") {
        policy_of(alloc, key)
    } else {
        Ok(Meaning::Nothing)
    }
}

fn extension_of(alloc: Global, key: &[u8]) -> Result<Meaning, AllocError>
    requires { starts_with ◌==◌ key.now (codes "field.") ≡ true }
    ensures { IfOk result (Means key.now) }
{
    match oid_of(alloc, behind(key, 6))? {
        Some(oid) => Ok(Meaning::Extension(oid)),
        None => Ok(Meaning::Nothing),
    }
}

fn policy_of(alloc: Global, key: &[u8]) -> Result<Meaning, AllocError>
    requires { starts_with ◌==◌ key.now (codes "policy.") ≡ true }
    ensures { IfOk result (Means key.now) }
{
    match oid_of(alloc, behind(key, 7))? {
        Some(oid) => Ok(Meaning::Policy(oid)),
        None => Ok(Meaning::Nothing),
    }
}

/// What follows the first bytes.
fn behind(key: &[u8], count: usize) -> &[u8]
    ensures { result.now ≡ drop count key.now }
{
    if count < key.len() {
        key.split_at(count).1
    } else {
        &[]
    }
}

/// The object identifier of a text, where the text is that of one.
fn oid_of(alloc: Global, text: &[u8]) -> Result<Option<Oid>, AllocError>
    ensures { IfOk result (λ oid. MatchOption oid ((other : List ℕ) → IsOidText other text.now → ⊥) (λ oid. IsOidText oid text.now)) }
{
    match oid_from_text(alloc, text) {
        Ok(oid) => Ok(Some(oid)),
        Err(fault) => {
            if is_want_of_memory(fault) {
                return Err(AllocError);
            }
            Ok(None)
        }
    }
}

fn is_want_of_memory(fault: OidFault) -> bool
    ensures { IsTrue result ↔ (fault ≡ OidFault.OutOfMemory) }
{
    match fault {
        OidFault::OutOfMemory => true,
        _ => false,
    }
}
