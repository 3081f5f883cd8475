//! Strings, keys and hashes as text.

ghost use Rattle.std.specs.Prelude.{◌≡◌, length, ◌++◌, ◌∷◌, [], true, OnOk};
ghost use Rattle.std.specs.List.{flat_map};
ghost use Rattle.hex.specs.Hex.{encode_lower};
ghost use Rattle.req_tree.specs.Oid.{IsBytes};
ghost use Rattle.req_grammar.specs.Tokens.{escaped, quoted_text, hex_mark};
ghost use Rattle.dumped_text.specs.Dumped.{string_text, key_text, marked_text, hash_text};
ghost use Rattle.dumped_text.specs.Sayable.{IsHash};

use crate::reserved::is_free;
use crate::word::{is_bare, is_printed_text, is_word};
use crate::writing::put;
use line_text::Bytes;
use req_tree::Hash20;
use std::alloc::AllocError;

/// Appends a string: bare where it can be.
pub(crate) fn put_string(out: &mut Vec<u8>, string: &Bytes) -> Result<(), AllocError>
    ensures text { OnOk result (out.new.items ≡ out.old.items ++ string_text string.now) }
    ensures kept { OnOk result (IsBytes string.now) }
{
    let bytes = string.as_slice();
    put_bytes(out, bytes)
}

#[tactic(auto, unfolding(dumped_text::specs::Dumped::string_text))]
fn put_bytes(out: &mut Vec<u8>, bytes: &[u8]) -> Result<(), AllocError>
    ensures text { OnOk result (out.new.items ≡ out.old.items ++ string_text bytes.now) }
    ensures kept { IsBytes bytes.now }
{
    if is_bare(bytes) {
        put(out, bytes)
    } else {
        put_marked(out, bytes)
    }
}

/// Appends a key: bare also with dots in it.
pub(crate) fn put_key(out: &mut Vec<u8>, key: &Bytes) -> Result<(), AllocError>
    ensures text { OnOk result (out.new.items ≡ out.old.items ++ key_text key.now) }
    ensures kept { OnOk result (IsBytes key.now) }
{
    let bytes = key.as_slice();
    put_key_bytes(out, bytes)
}

#[tactic(auto, unfolding(dumped_text::specs::Dumped::key_text))]
fn put_key_bytes(out: &mut Vec<u8>, bytes: &[u8]) -> Result<(), AllocError>
    ensures text { OnOk result (out.new.items ≡ out.old.items ++ key_text bytes.now) }
    ensures kept { OnOk result (IsBytes bytes.now) }
{
    if is_word(bytes) && is_free(bytes) {
        put(out, bytes)
    } else {
        put_bytes(out, bytes)
    }
}

/// Appends a string between quotes where every byte can stand there, else in hexadecimal.
fn put_marked(out: &mut Vec<u8>, bytes: &[u8]) -> Result<(), AllocError>
    ensures { OnOk result (out.new.items ≡ out.old.items ++ marked_text bytes.now) }
{
    if is_printed_text(bytes) {
        put_quoted(out, bytes)
    } else {
        put(out, b"0x")?;
        put_digits(out, bytes)
    }
}

fn put_quoted(out: &mut Vec<u8>, bytes: &[u8]) -> Result<(), AllocError>
    ensures { OnOk result (out.new.items ≡ out.old.items ++ quoted_text bytes.now) }
{
    put(out, b"\"")?;
    put_escaped(out, bytes)?;
    put(out, b"\"")
}

/// Appends bytes with a backslash before each quote; all at once where there is none.
#[tactic(auto, using(crate::proofs::Escapes::nothing_escaped))]
fn put_escaped(out: &mut Vec<u8>, bytes: &[u8]) -> Result<(), AllocError>
    ensures { OnOk result (out.new.items ≡ out.old.items ++ flat_map escaped bytes.now) }
{
    if bytes.contains(&b'"') {
        put_each(out, bytes)
    } else {
        put(out, bytes)
    }
}

fn put_each(out: &mut Vec<u8>, bytes: &[u8]) -> Result<(), AllocError>
    ensures { OnOk result (out.new.items ≡ out.old.items ++ flat_map escaped bytes.now) }
{
    for byte in bytes {
        put_escape(out, *byte)?;
    }
    Ok(())
}

fn put_escape(out: &mut Vec<u8>, byte: u8) -> Result<(), AllocError>
    ensures { OnOk result (out.new.items ≡ out.old.items ++ escaped byte) }
{
    if byte == b'"' {
        put(out, b"\\\"")
    } else {
        put(out, &[byte])
    }
}

/// Appends two hexadecimal digits for each byte, in lower case.
fn put_digits(out: &mut Vec<u8>, bytes: &[u8]) -> Result<(), AllocError>
    ensures { OnOk result (out.new.items ≡ out.old.items ++ encode_lower bytes.now) }
{
    for byte in bytes {
        put_two_digits(out, *byte)?;
    }
    Ok(())
}

fn put_two_digits(out: &mut Vec<u8>, byte: u8) -> Result<(), AllocError>
    ensures { OnOk result (out.new.items ≡ out.old.items ++ encode_lower (byte ∷ [])) }
{
    let mut digits = [0; 2];
    let _ = hex::encode_to_slice([byte], &mut digits);
    put(out, &digits)
}

pub(crate) fn put_hash(out: &mut Vec<u8>, hash: &Hash20) -> Result<(), AllocError>
    ensures text { OnOk result (out.new.items ≡ out.old.items ++ hash_text hash.now.bytes) }
    ensures kept { OnOk result (IsHash hash.now.bytes) }
{
    put_twenty(out, &hash.bytes)
}

fn put_twenty(out: &mut Vec<u8>, hash: &[u8]) -> Result<(), AllocError>
    requires { length hash.now ≡ 20 }
    ensures text { OnOk result (out.new.items ≡ out.old.items ++ hash_text hash.now) }
    ensures kept { IsHash hash.now }
{
    let mut digits = [0; 40];
    let _ = hex::encode_to_slice(hash, &mut digits);
    put(out, b"H\"")?;
    put(out, &digits)?;
    put(out, b"\"")
}
