//! What a rehearsal's desk knows of code.

ghost use Rattle.std.specs.Prelude.{◌≡◌, ◌++◌, IfOk, OnOk};
ghost use Rattle.line_reader.specs.Lines.{text_of, with_lf};
ghost use Rattle.rehearsal.specs.Facts as model;
ghost use Rattle.rehearsal.specs.Facts.{rows_from, notarized_row};

use crate::hash::hash_text;
use line_text::Bytes;
use std::alloc::{AllocError, Global};

/// How many codes are notarized.
const NOTARIZED: u8 = 25;

/// The facts file of a rehearsal.
pub fn facts_text(alloc: Global) -> Result<Bytes, AllocError>
    ensures { IfOk result (λ text. text ≡ model.facts_file) }
{
    let mut text = Vec::from_slice(alloc, b"cdhash,scope,slot,key,kind,value\n")?;
    push_rows(&mut text)?;
    Ok(Bytes::from_vec(text))
}

fn push_rows(text: &mut Vec<u8>) -> Result<(), AllocError>
    ensures { OnOk result (text.new.items ≡ text.old.items ++ text_of (rows_from 25 0)) }
{
    for place in 0..NOTARIZED {
        push_row(text, 2 * place)?;
    }
    Ok(())
}

fn push_row(text: &mut Vec<u8>, code: u8) -> Result<(), AllocError>
    ensures { OnOk result (text.new.items ≡ text.old.items ++ with_lf (notarized_row code)) }
{
    text.extend_from_slice(&hash_text(code))?;
    text.extend_from_slice(b",flag,,notarized,,\n")?;
    Ok(())
}
