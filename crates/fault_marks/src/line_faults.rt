//! Why the line of an edit is refused.

ghost use Rattle.std.specs.Prelude.{◌≤◌, length};
ghost use Rattle.line_text.specs.declared.limits.TheConstants.{LINE_LIMIT};

use crate::mark::{Span, line_at, push_marked};
use crate::text_faults::push_fault;
use line_text::LINE_LIMIT;
use line_words::{Cursor, LineFault};
use rule_edits::read_edit_line;
use std::alloc::{AllocError, Global};

/// The words of an `add` in front of its requirement.
const FRONT_WORDS: usize = 8;

/// Appends what is wrong with the line; nothing where it is an edit, which the desk refused.
pub(crate) fn push_line(alloc: Global, out: &mut String, line: &[u8]) -> Result<(), AllocError> {
    if line.len() > LINE_LIMIT {
        return out.push_str("gatekeeper: the line has more than 8,192 bytes\n");
    }
    match read_edit_line(alloc, line) {
        Ok(edit) => {
            drop(edit);
            Ok(())
        }
        Err(LineFault::BadRequirement(fault)) => match requirement_of(line) {
            Some(text) => push_fault(alloc, out, "the requirement", text, &fault),
            None => Ok(()),
        },
        Err(LineFault::BadLine { column }) => push_column(out, line, column as usize),
        Err(fault) => out.push_str(words_of(&fault)),
    }
}

fn requirement_of(line: &[u8]) -> Option<&[u8]>
    requires { length line.now ≤ LINE_LIMIT }
{
    let mut words = Cursor::of(line);
    for _ in 0..FRONT_WORDS {
        words.next().ok()?;
    }
    words.rest().ok()
}

/// A word that doesn't fit its place, or the end of the line where one is missing.
fn push_column(out: &mut String, line: &[u8], column: usize) -> Result<(), AllocError> {
    let span = Span {
        at: column.saturating_sub(1),
        length: 1,
    };
    out.push_str(
        "gatekeeper: here stands a word that doesn't fit or is one too many, or one is missing\n",
    )?;
    push_marked(out, &line_at(line, span.at), span.length)
}

fn words_of(fault: &LineFault) -> &'static str {
    match fault {
        LineFault::BadPriority => {
            "gatekeeper: a priority is from -1000000 to 1000000, with at most six digits behind its dot\n"
        }
        LineFault::BadMoment => {
            "gatekeeper: an expiry is 'never', or seconds since 1970 up to 253402300799\n"
        }
        LineFault::BadLabel => {
            "gatekeeper: a label is one word of at most 128 bytes, with %20 for a space, or - for none\n"
        }
        LineFault::BadKey => {
            "gatekeeper: a key is 1 to 64 letters, digits, dots, underscores and dashes\n"
        }
        LineFault::RequirementTooLong => { "gatekeeper: a requirement has at most 4,096 bytes\n" }
        _ => "",
    }
}
