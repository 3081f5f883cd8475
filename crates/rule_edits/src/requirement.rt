//! The requirement at the end of an added rule's words.

ghost use Rattle.std.specs.Prelude.{◌≡◌, ◌↔◌, ◌==◌, ℕ, List, position, IfOk, IsTrue};
ghost use Rattle.req_tokens.specs.declared.fault.TextFault.TheVariants.{OutOfMemory};
ghost use Rattle.policy_model.specs.Contents.{IsRuleText};
ghost use Rattle.line_model.specs.Requirements.{text_at};
ghost use Rattle.line_words.specs.Left.{left, Gives};
ghost use Rattle.rule_edits.specs.Reads.{Parses};
ghost use denote.Bor.{Bor};

use line_words::{Cursor, LineFault};
use policy_model::limits::MOST_TEXT_BYTES;
use req_parser::{TextFault, parse};
use req_tree::Req;
use std::alloc::Global;

/// The rest of a line as a requirement's text: it isn't too long, and has no LF.
pub fn read_text<'a>(words: &Cursor<'a>) -> Result<&'a [u8], LineFault>
    ensures text { Gives (λ (text : Bor (List ℕ)). text.now) result (text_at (left words.now)) }
    ensures rule_text { IfOk result (λ text. IsRuleText text.now) }
{
    let text = words.rest()?;
    if text.len() > MOST_TEXT_BYTES {
        return Err(LineFault::RequirementTooLong);
    }
    match find_lf(text) {
        None => Ok(text),
        Some(place) => Err(LineFault::BadLine {
            column: words.column() + place as u32,
        }),
    }
}

/// The requirement of a text.
pub fn read_requirement(alloc: Global, text: &[u8]) -> Result<Req, LineFault>
    ensures { Parses result text.now }
{
    match parse(alloc, text) {
        Ok(req) => Ok(req),
        Err(fault) => if is_out_of_memory(&fault) {
            Err(LineFault::OutOfMemory)
        } else {
            Err(LineFault::BadRequirement(fault))
        },
    }
}

fn is_out_of_memory(fault: &TextFault) -> bool
    ensures { IsTrue result ↔ (fault.now ≡ OutOfMemory) }
{
    matches!(fault, TextFault::OutOfMemory)
}

/// The place of the first LF.
fn find_lf(text: &[u8]) -> Option<usize>
    ensures { result ≡ position (λ byte. byte == 10) text.now }
{
    text.iter().position(|byte| *byte == b'\n')
}
