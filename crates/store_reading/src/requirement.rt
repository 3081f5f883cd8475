//! The requirement of a stored rule.

ghost use Rattle.std.specs.Prelude.{◌≡◌, ◌↔◌, IsTrue, IfOk};
ghost use Rattle.line_words.specs.declared.fault.LineFault.TheVariants.{OutOfMemory};
ghost use Rattle.policy_model.specs.Contents.{IsRuleText};
ghost use Rattle.req_grammar.specs.Readings.{IsRequirementText};
ghost use Rattle.store_reading.specs.Readings.{Reads, IsTreeText};

use policy_model::limits::MOST_TEXT_BYTES;
use req_parser::laws::a_failing_text_is_no_requirement;
use req_tree::SharedReq;
use rule_edits::{LineFault, read_requirement};
use std::alloc::{AllocError, Global};

/// The requirement of a text that a rule may have, or none where it isn't such a text.
pub(crate) fn read_tree(alloc: Global, text: &[u8]) -> Result<Option<SharedReq>, AllocError>
    ensures { IfOk result (Reads (IsTreeText text.now) (IsRequirementText text.now)) }
{
    a_failing_text_is_no_requirement();
    if !is_rule_text(text) {
        return Ok(None);
    }
    match read_requirement(alloc, text) {
        Ok(req) => {
            let tree = SharedReq::new(alloc, req)?;
            Ok(Some(tree))
        }
        Err(fault) => if is_out_of_memory(&fault) {
            Err(AllocError)
        } else {
            Ok(None)
        },
    }
}

fn is_out_of_memory(fault: &LineFault) -> bool
    ensures { IsTrue result ↔ (fault.now ≡ OutOfMemory) }
{
    matches!(fault, LineFault::OutOfMemory)
}

/// Whether a text isn't too long and stands on one line.
fn is_rule_text(text: &[u8]) -> bool
    ensures { IsTrue result ↔ IsRuleText text.now }
{
    let short = text.len() <= MOST_TEXT_BYTES;
    let one_line = text.iter().all(|byte| *byte != b'\n');
    short && one_line
}
