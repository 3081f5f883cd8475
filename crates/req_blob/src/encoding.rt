//! Requirements written as their plain bytes.

ghost use Rattle.std.specs.Prelude.{◌≡◌, ◌+◌, ◌<◌, ◌↔◌, ◌⊎◌, ◌++◌, length, IfOk, IfErr, OnOk, IsErrOf};
ghost use Rattle.req_tree.specs.Tree.{tree_of};
ghost use Rattle.cs_blob.specs.Numbers.{word};
ghost use Rattle.req_blob.specs.Words.{signed_word, datum, unpadded, match_text};
ghost use Rattle.req_tree.specs.Oid.{IsOidBytes};
ghost use Rattle.req_blob.specs.Spelling.{IsPlain, IsSlot, IsHash, plain, plain_blob, requirement};
ghost use Rattle.req_tree.specs.Spellable.{IsEncodable};
ghost use Rattle.req_blob.specs.Encoding.{HasFields, encoded};
ghost use Rattle.req_blob.specs.declared.limits.TheConstants.{MOST_BYTES};
ghost use Rattle.req_blob.specs.Reading.{Gives};

use crate::decoding::MAGIC;
use crate::fault::OpsFault;
use crate::limits::MOST_BYTES;
use crate::size::plain_size;
use crate::writing::{put_datum, put_hash, put_match, put_signed, put_unpadded, put_word};
use req_tree::{Bytes, Hash20, Match, Oid, Req};
use std::alloc::{AllocError, Global};

/// How many bytes of an expression find room at first.
const USUAL_BYTES: usize = 512;

/// The plain blob of a requirement that `is_encodable`.
pub fn encode(alloc: Global, req: &Req) -> Result<Bytes, OpsFault>
    requires { IsEncodable (tree_of req.now) }
    ensures plain { IfOk result (λ bytes. IsPlain (tree_of req.now) bytes) }
    ensures long { IsErrOf result OpsFault.TooLong ↔ (MOST_BYTES < length (plain_blob (tree_of req.now))) }
    ensures exact { Gives (λ bytes. bytes) result (encoded (tree_of req.now)) }
{
    match expression(alloc, req) {
        Ok(body) => blob(alloc, &body),
        Err(_) => Err(wanting(req)),
    }
}

/// The plain bytes of the expression, whatever their number.
fn expression(alloc: Global, req: &Req) -> Result<Bytes, AllocError>
    ensures plain { IfOk result (λ bytes. bytes ≡ plain (tree_of req.now)) }
    ensures fields { OnOk result (HasFields (tree_of req.now)) }
{
    let mut out = Vec::with_capacity(alloc, USUAL_BYTES)?;
    put_req(&mut out, req)?;
    Ok(Bytes::from_vec(out))
}

/// The blob of an expression, unless it has too many bytes.
fn blob(alloc: Global, expression: &Bytes) -> Result<Bytes, OpsFault>
    ensures blob { IfOk result (λ bytes. bytes ≡ requirement expression.now) }
    ensures long { IsErrOf result OpsFault.TooLong ↔ (MOST_BYTES < 12 + length expression.now) }
    ensures fault { IfErr result (λ fault. (fault ≡ OpsFault.OutOfMemory) ⊎ (fault ≡ OpsFault.TooLong)) }
{
    let size = 12 + expression.as_slice().len();
    if size > MOST_BYTES {
        return Err(OpsFault::TooLong);
    }
    match with_header(alloc, size as u32, expression.as_slice()) {
        Ok(bytes) => Ok(bytes),
        Err(_) => Err(OpsFault::OutOfMemory),
    }
}

fn with_header(alloc: Global, size: u32, expression: &[u8]) -> Result<Bytes, AllocError>
    requires { size ≡ 12 + length expression.now }
    ensures { IfOk result (λ bytes. bytes ≡ requirement expression.now) }
{
    let mut out = Vec::with_capacity(alloc, size as usize)?;
    put_word(&mut out, MAGIC)?;
    put_word(&mut out, size)?;
    put_word(&mut out, 1)?;
    out.extend_from_slice(expression)?;
    Ok(Bytes::from_vec(out))
}

/// The refusal where there was no memory: a requirement that is too long is refused as that still.
fn wanting(req: &Req) -> OpsFault
    ensures long { (result ≡ OpsFault.TooLong) ↔ (MOST_BYTES < length (plain_blob (tree_of req.now))) }
    ensures fault { (result ≡ OpsFault.OutOfMemory) ⊎ (result ≡ OpsFault.TooLong) }
{
    if 12 + plain_size(req) > MOST_BYTES {
        return OpsFault::TooLong;
    }
    OpsFault::OutOfMemory
}

fn put_req(out: &mut Vec<u8>, req: &Req) -> Result<(), AllocError>
    ensures plain { OnOk result (out.new.items ≡ out.old.items ++ plain (tree_of req.now)) }
    ensures fields { OnOk result (HasFields (tree_of req.now)) }
{
    match req {
        Req::Never => put_word(out, 0),
        Req::Always => put_word(out, 1),
        Req::Ident { value } => put_name(out, 2, value),
        Req::AppleAnchor => put_word(out, 3),
        Req::AnchorHash { slot, hash } => put_anchor_hash(out, *slot, hash),
        Req::LegacyInfo { key, value } => put_legacy_info(out, key, value),
        Req::Both { left, right } => {
            put_word(out, 6)?;
            put_req(out, left)?;
            put_req(out, right)
        }
        Req::Either { left, right } => {
            put_word(out, 7)?;
            put_req(out, left)?;
            put_req(out, right)
        }
        Req::CdHash { hash } => put_cd_hash(out, hash),
        Req::Negate { inner } => {
            put_word(out, 9)?;
            put_req(out, inner)
        }
        Req::InfoField { key, test } => put_field(out, 10, key, test),
        Req::CertField { slot, key, test } => put_cert_field(out, *slot, key, test),
        Req::TrustedCert { slot } => put_number(out, 12, *slot),
        Req::TrustedAny => put_word(out, 13),
        Req::CertOid { slot, oid, test } => put_cert_oid(out, 14, *slot, oid, test),
        Req::AppleGeneric => put_word(out, 15),
        Req::EntitlementField { key, test } => put_field(out, 16, key, test),
        Req::CertPolicy { slot, oid, test } => put_cert_oid(out, 17, *slot, oid, test),
        Req::NamedAnchor { name } => put_name(out, 18, name),
        Req::NamedCode { name } => put_name(out, 19, name),
        Req::Platform { number } => put_number(out, 20, *number),
        Req::Notarized => put_word(out, 21),
        Req::LegacyDevId => put_word(out, 23),
        Req::SkipFalse { op, skipped } => put_skipped(out, *op, skipped),
        Req::SkipNext { op, skipped, inner } => {
            put_skipped(out, *op, skipped)?;
            put_req(out, inner)
        }
    }
}

// ---- an opcode and its operands

fn put_name(out: &mut Vec<u8>, op: u32, name: &Bytes) -> Result<(), AllocError>
    ensures { OnOk result (out.new.items ≡ out.old.items ++ (word op ++ datum name.now)) }
{
    put_word(out, op)?;
    put_datum(out, name.as_slice())
}

fn put_number(out: &mut Vec<u8>, op: u32, number: i32) -> Result<(), AllocError>
    ensures plain { OnOk result (out.new.items ≡ out.old.items ++ (word op ++ signed_word number)) }
    ensures slot { IsSlot number }
{
    put_word(out, op)?;
    put_signed(out, number)
}

fn put_anchor_hash(out: &mut Vec<u8>, slot: i32, hash: &Hash20) -> Result<(), AllocError>
    ensures plain { OnOk result (out.new.items ≡ out.old.items ++ (word 4 ++ (signed_word slot ++ datum hash.now.bytes))) }
    ensures slot { IsSlot slot }
    ensures hash { OnOk result (IsHash hash.now.bytes) }
{
    put_number(out, 4, slot)?;
    put_hash(out, hash)
}

fn put_cd_hash(out: &mut Vec<u8>, hash: &Hash20) -> Result<(), AllocError>
    ensures plain { OnOk result (out.new.items ≡ out.old.items ++ (word 8 ++ datum hash.now.bytes)) }
    ensures hash { OnOk result (IsHash hash.now.bytes) }
{
    put_word(out, 8)?;
    put_hash(out, hash)
}

fn put_legacy_info(out: &mut Vec<u8>, key: &Bytes, value: &Bytes) -> Result<(), AllocError>
    ensures { OnOk result (out.new.items ≡ out.old.items ++ (word 5 ++ (datum key.now ++ datum value.now))) }
{
    put_name(out, 5, key)?;
    put_datum(out, value.as_slice())
}

fn put_field(out: &mut Vec<u8>, op: u32, key: &Bytes, test: &Match) -> Result<(), AllocError>
    ensures { OnOk result (out.new.items ≡ out.old.items ++ (word op ++ (datum key.now ++ match_text test.now))) }
{
    put_name(out, op, key)?;
    put_match(out, test)
}

fn put_cert_field(out: &mut Vec<u8>, slot: i32, key: &Bytes, test: &Match) -> Result<(), AllocError>
    ensures plain { OnOk result (out.new.items ≡ out.old.items ++ (word 11 ++ (signed_word slot ++ (datum key.now ++ match_text test.now)))) }
    ensures slot { IsSlot slot }
{
    put_number(out, 11, slot)?;
    put_datum(out, key.as_slice())?;
    put_match(out, test)
}

fn put_cert_oid(
    out: &mut Vec<u8>,
    op: u32,
    slot: i32,
    oid: &Oid,
    test: &Match,
) -> Result<(), AllocError>
    ensures plain { OnOk result (out.new.items ≡ out.old.items ++ (word op ++ (signed_word slot ++ (datum oid.now ++ match_text test.now)))) }
    ensures slot { IsSlot slot }
    ensures oid { IsOidBytes oid.now }
{
    let bytes = oid.as_slice();
    put_number(out, op, slot)?;
    put_datum(out, bytes)?;
    put_match(out, test)
}

fn put_skipped(out: &mut Vec<u8>, op: u32, skipped: &Bytes) -> Result<(), AllocError>
    ensures { OnOk result (out.new.items ≡ out.old.items ++ (word op ++ unpadded skipped.now)) }
{
    put_word(out, op)?;
    put_unpadded(out, skipped.as_slice())
}
