//! A variant's operands as text: certificates, keys in brackets, and what is asked of a value.

ghost use Rattle.std.specs.Prelude.{◌≡◌, ◌++◌, ℤ, codes, OnOk, FitsSigned};
ghost use Rattle.std.specs.Int.{w32};
ghost use Rattle.std.specs.Fmt.{signed_decimal};
ghost use Rattle.req_tree.specs.declared.matching.Match.TheVariants.{Equal};
ghost use Rattle.req_tree.specs.Oid.{IsBytes, IsOidBytes};
ghost use Rattle.dumped_text.specs.Dumped.{in_parens, string_text, key_text, hash_text, slot_text, oid_text, test_text, keyed_text, cert_text, opcode_text};
ghost use Rattle.dumped_text.specs.Sayable.{IsHash, IsTest};

use crate::string::{put_hash, put_key, put_string};
use crate::writing::{put, put_count, put_op, put_signed};
use dumped_text::laws::oids_have_texts;
use line_text::Bytes;
use req_tree::laws::an_oid_has_one_text;
use req_tree::{Hash20, Match, Oid, oid_to_text};
use std::alloc::AllocError;

/// Appends a word with its space, and a string.
pub(crate) fn put_named(out: &mut Vec<u8>, word: &[u8], name: &Bytes) -> Result<(), AllocError>
    ensures text { OnOk result (out.new.items ≡ out.old.items ++ (word.now ++ string_text name.now)) }
    ensures kept { OnOk result (IsBytes name.now) }
{
    put(out, word)?;
    put_string(out, name)
}

pub(crate) fn put_named_code(out: &mut Vec<u8>, name: &Bytes) -> Result<(), AllocError>
    ensures text { OnOk result (out.new.items ≡ out.old.items ++ in_parens (string_text name.now)) }
    ensures kept { OnOk result (IsBytes name.now) }
{
    put_named(out, b"(", name)?;
    put(out, b")")
}

/// Appends a word with its space, and a hash.
pub(crate) fn put_hashed(out: &mut Vec<u8>, word: &[u8], hash: &Hash20) -> Result<(), AllocError>
    ensures text { OnOk result (out.new.items ≡ out.old.items ++ (word.now ++ hash_text hash.now.bytes)) }
    ensures kept { OnOk result (IsHash hash.now.bytes) }
{
    put(out, word)?;
    put_hash(out, hash)
}

pub(crate) fn put_anchor_hash(out: &mut Vec<u8>, slot: i32, hash: &Hash20) -> Result<(), AllocError>
    ensures text { OnOk result (out.new.items ≡ out.old.items ++ (cert_text slot ++ codes " = " ++ hash_text hash.now.bytes)) }
    ensures slot { FitsSigned w32 slot }
    ensures hash { OnOk result (IsHash hash.now.bytes) }
{
    put_cert(out, slot)?;
    put_hashed(out, b" = ", hash)
}

pub(crate) fn put_trusted(out: &mut Vec<u8>, slot: i32) -> Result<(), AllocError>
    ensures text { OnOk result (out.new.items ≡ out.old.items ++ (cert_text slot ++ codes " trusted")) }
    ensures slot { FitsSigned w32 slot }
{
    put_cert(out, slot)?;
    put(out, b" trusted")
}

pub(crate) fn put_platform(out: &mut Vec<u8>, number: i32) -> Result<(), AllocError>
    ensures text { OnOk result (out.new.items ≡ out.old.items ++ (codes "platform = " ++ signed_decimal number)) }
    ensures number { FitsSigned w32 number }
{
    put(out, b"platform = ")?;
    put_signed(out, number)
}

/// Appends a certificate by its place in the chain.
fn put_cert(out: &mut Vec<u8>, slot: i32) -> Result<(), AllocError>
    ensures text { OnOk result (out.new.items ≡ out.old.items ++ cert_text slot) }
    ensures slot { FitsSigned w32 slot }
{
    put(out, b"certificate ")?;
    put_slot(out, slot)
}

#[tactic(auto, unfolding(dumped_text::specs::Dumped::slot_text))]
fn put_slot(out: &mut Vec<u8>, slot: i32) -> Result<(), AllocError>
    ensures text { OnOk result (out.new.items ≡ out.old.items ++ slot_text slot) }
    ensures slot { FitsSigned w32 slot }
{
    match slot {
        0 => put(out, b"leaf"),
        -1 => put(out, b"root"),
        _ => put_signed(out, slot),
    }
}

/// Appends a word, a key in brackets and a test.
pub(crate) fn put_field(
    out: &mut Vec<u8>,
    word: &[u8],
    key: &Bytes,
    test: &Match,
) -> Result<(), AllocError>
    ensures text { OnOk result (out.new.items ≡ out.old.items ++ (word.now ++ keyed_text (key_text key.now) test.now)) }
    ensures key { OnOk result (IsBytes key.now) }
    ensures test { OnOk result (IsTest test.now) }
{
    put(out, word)?;
    put_keyed(out, key)?;
    put_test(out, test)
}

/// Appends an old field, whose value is equal to a string.
pub(crate) fn put_old_field(out: &mut Vec<u8>, key: &Bytes, value: &Bytes) -> Result<(), AllocError>
    ensures text { OnOk result (out.new.items ≡ out.old.items ++ (codes "info" ++ keyed_text (key_text key.now) (Equal value.now))) }
    ensures key { OnOk result (IsBytes key.now) }
    ensures value { OnOk result (IsBytes value.now) }
{
    put(out, b"info")?;
    put_keyed(out, key)?;
    put_named(out, b" = ", value)
}

pub(crate) fn put_cert_field(
    out: &mut Vec<u8>,
    slot: i32,
    key: &Bytes,
    test: &Match,
) -> Result<(), AllocError>
    ensures text { OnOk result (out.new.items ≡ out.old.items ++ (cert_text slot ++ keyed_text (key_text key.now) test.now)) }
    ensures slot { FitsSigned w32 slot }
    ensures key { OnOk result (IsBytes key.now) }
    ensures test { OnOk result (IsTest test.now) }
{
    put_cert(out, slot)?;
    put_keyed(out, key)?;
    put_test(out, test)
}

/// Appends the test of an extension or a policy: the key is a word with its dot, and an object identifier.
pub(crate) fn put_cert_oid(
    out: &mut Vec<u8>,
    slot: i32,
    word: &[u8],
    oid: &Oid,
    test: &Match,
) -> Result<(), AllocError>
    ensures text { OnOk result (out.new.items ≡ out.old.items ++ (cert_text slot ++ keyed_text (word.now ++ oid_text oid.now) test.now)) }
    ensures slot { FitsSigned w32 slot }
    ensures oid { OnOk result (IsOidBytes oid.now) }
    ensures test { OnOk result (IsTest test.now) }
{
    put_cert(out, slot)?;
    put_oid_key(out, word, oid)?;
    put_test(out, test)
}

/// Appends a key in brackets.
fn put_keyed(out: &mut Vec<u8>, key: &Bytes) -> Result<(), AllocError>
    ensures text { OnOk result (out.new.items ≡ out.old.items ++ (codes "[" ++ key_text key.now ++ codes "]")) }
    ensures kept { OnOk result (IsBytes key.now) }
{
    put(out, b"[")?;
    put_key(out, key)?;
    put(out, b"]")
}

fn put_oid_key(out: &mut Vec<u8>, word: &[u8], oid: &Oid) -> Result<(), AllocError>
    ensures text { OnOk result (out.new.items ≡ out.old.items ++ (codes "[" ++ (word.now ++ oid_text oid.now) ++ codes "]")) }
    ensures kept { OnOk result (IsOidBytes oid.now) }
{
    put(out, b"[")?;
    put(out, word)?;
    put_oid(out, oid)?;
    put(out, b"]")
}

/// Appends the arcs of an object identifier, with dots between them.
fn put_oid(out: &mut Vec<u8>, oid: &Oid) -> Result<(), AllocError>
    ensures text { OnOk result (out.new.items ≡ out.old.items ++ oid_text oid.now) }
    ensures kept { OnOk result (IsOidBytes oid.now) }
{
    an_oid_has_one_text();
    oids_have_texts();
    let _bytes = oid.as_slice();
    let text = oid_to_text(*out.allocator(), oid)?;
    put(out, text.as_slice())
}

/// Appends what is asked of a value.
fn put_test(out: &mut Vec<u8>, test: &Match) -> Result<(), AllocError>
    ensures text { OnOk result (out.new.items ≡ out.old.items ++ test_text test.now) }
    ensures kept { OnOk result (IsTest test.now) }
{
    match test {
        Match::Exists => put(out, b" /* exists */"),
        Match::Absent => put(out, b" absent"),
        Match::Equal(value) => put_named(out, b" = ", value),
        Match::Contains(value) => put_named(out, b" ~ ", value),
        Match::Begins(value) => {
            put_named(out, b" = ", value)?;
            put(out, b"*")
        }
        Match::Ends(value) => put_named(out, b" = *", value),
        Match::Less(value) => put_named(out, b" < ", value),
        Match::Greater(value) => put_named(out, b" > ", value),
        Match::LessEqual(value) => put_named(out, b" <= ", value),
        Match::GreaterEqual(value) => put_named(out, b" >= ", value),
    }
}

/// Appends an opcode that isn't known, and how many bytes were skipped after it.
pub(crate) fn put_skipped(out: &mut Vec<u8>, op: u32, skipped: &Bytes) -> Result<(), AllocError>
    ensures { OnOk result (out.new.items ≡ out.old.items ++ opcode_text op skipped.now) }
{
    put(out, b"opcode 0x")?;
    put_op(out, op)?;
    put(out, b", ")?;
    put_count(out, skipped.as_slice().len())?;
    put(out, b" bytes")
}
