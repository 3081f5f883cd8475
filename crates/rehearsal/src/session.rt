//! A rehearsal's session as a whole.

ghost use Rattle.std.specs.Prelude.{◌≡◌, IfOk};
ghost use Rattle.line_reader.specs.Lines.{text_of};
ghost use Rattle.rehearsal.specs.Made.{made};

use crate::course::Rehearsal;
use line_text::Bytes;
use std::alloc::{AllocError, Global};

/// The lines of a rehearsal of so many steps, each with its LF.
pub fn session_text(alloc: Global, steps: u32) -> Result<Bytes, AllocError>
    ensures { IfOk result (λ text. text ≡ text_of (made steps)) }
{
    let mut rehearsal = Rehearsal::of(steps);
    let mut text = Vec::new(alloc);
    while rehearsal.next_line() {
        text.extend_from_slice(rehearsal.line())?;
        text.push(b'\n')?;
    }
    Ok(Bytes::from_vec(text))
}
