//! The operands of an opcode, written: words, data, and the tests of a match.

ghost use Rattle.std.specs.Prelude.{◌≡◌, ◌≤◌, ◌++◌, OnOk, length};
ghost use Rattle.cs_blob.specs.Numbers.{word};
ghost use Rattle.req_blob.specs.Spelling.{IsSlot, IsHash};
ghost use Rattle.req_blob.specs.Words.{signed_word, zeros, datum, unpadded, match_text};

use crate::field::padding;
use req_tree::{Bytes, Hash20, Match};
use std::alloc::AllocError;

pub(crate) fn put_match(out: &mut Vec<u8>, test: &Match) -> Result<(), AllocError>
    ensures { OnOk result (out.new.items ≡ out.old.items ++ match_text test.now) }
{
    match test {
        Match::Exists => put_word(out, 0),
        Match::Equal(value) => put_comparison(out, 1, value),
        Match::Contains(value) => put_comparison(out, 2, value),
        Match::Begins(value) => put_comparison(out, 3, value),
        Match::Ends(value) => put_comparison(out, 4, value),
        Match::Less(value) => put_comparison(out, 5, value),
        Match::Greater(value) => put_comparison(out, 6, value),
        Match::LessEqual(value) => put_comparison(out, 7, value),
        Match::GreaterEqual(value) => put_comparison(out, 8, value),
        Match::Absent => put_word(out, 14),
    }
}

fn put_comparison(out: &mut Vec<u8>, suffix: u32, value: &Bytes) -> Result<(), AllocError>
    ensures { OnOk result (out.new.items ≡ out.old.items ++ (word suffix ++ datum value.now)) }
{
    put_word(out, suffix)?;
    put_datum(out, value.as_slice())
}

/// Four bytes, the highest first.
#[tactic(auto, unfolding(cs_blob::specs::Numbers::word))]
pub(crate) fn put_word(out: &mut Vec<u8>, number: u32) -> Result<(), AllocError>
    ensures { OnOk result (out.new.items ≡ out.old.items ++ word number) }
{
    out.extend_from_slice(&number.to_be_bytes())?;
    Ok(())
}

pub(crate) fn put_signed(out: &mut Vec<u8>, number: i32) -> Result<(), AllocError>
    ensures word { OnOk result (out.new.items ≡ out.old.items ++ signed_word number) }
    ensures slot { IsSlot number }
{
    put_word(out, number.cast_unsigned())
}

pub(crate) fn put_hash(out: &mut Vec<u8>, hash: &Hash20) -> Result<(), AllocError>
    ensures datum { OnOk result (out.new.items ≡ out.old.items ++ datum hash.now.bytes) }
    ensures hash { IsHash hash.now.bytes }
{
    put_twenty(out, &hash.bytes)
}

/// A datum of 20 bytes, which nothing has to fill up.
fn put_twenty(out: &mut Vec<u8>, bytes: &[u8]) -> Result<(), AllocError>
    requires { length bytes.now ≡ 20 }
    ensures { OnOk result (out.new.items ≡ out.old.items ++ datum bytes.now) }
{
    put_word(out, 20)?;
    out.extend_from_slice(bytes)?;
    Ok(())
}

/// A length, of which the low 32 bits are written, that many bytes, and zeros up to a multiple of four.
#[tactic(auto, unfolding(crate::specs::Words::datum))]
pub(crate) fn put_datum(out: &mut Vec<u8>, bytes: &[u8]) -> Result<(), AllocError>
    ensures { OnOk result (out.new.items ≡ out.old.items ++ datum bytes.now) }
{
    put_length(out, bytes.len())?;
    out.extend_from_slice(bytes)?;
    let count = padding(bytes.len());
    if count > 0 {
        put_zeros(out, count)?;
    }
    Ok(())
}

#[tactic(auto, unfolding(crate::specs::Words::unpadded))]
pub(crate) fn put_unpadded(out: &mut Vec<u8>, bytes: &[u8]) -> Result<(), AllocError>
    ensures { OnOk result (out.new.items ≡ out.old.items ++ unpadded bytes.now) }
{
    put_length(out, bytes.len())?;
    out.extend_from_slice(bytes)?;
    Ok(())
}

fn put_length(out: &mut Vec<u8>, length: usize) -> Result<(), AllocError>
    ensures { OnOk result (out.new.items ≡ out.old.items ++ word length) }
{
    put_word(out, (length % 0x1_0000_0000) as u32)
}

fn put_zeros(out: &mut Vec<u8>, count: usize) -> Result<(), AllocError>
    requires { count ≤ 3 }
    ensures { OnOk result (out.new.items ≡ out.old.items ++ zeros count) }
{
    out.extend_from_slice([0; 3].split_at(count).0)?;
    Ok(())
}
