//! What is said of a text or a blob that is refused.

ghost use Rattle.std.specs.Prelude.{◌≡◌, ◌≢◌, ◌+◌, ◌≤◌, length, IfOk};
ghost use Rattle.line_text.specs.LineText.{line_bytes};
ghost use Rattle.line_text.specs.declared.limits.TheConstants.{LINE_ROOM};
ghost use Rattle.line_reader.specs.Lines.{with_lf};
ghost use Rattle.language_commands.specs.Refusals.{text_refusal, ops_refusal, set_refusal};

use line_text::{Bytes, LineText};
use req_ops::{OpsFault, SetFault};
use req_parser::TextFault;
use run_status::{Said, Status};
use std::alloc::{AllocError, Global};

/// A text's refusal, unless memory ran out.
pub fn refuse_text(alloc: Global, fault: TextFault) -> Result<Said, AllocError>
    ensures known { IfOk result (λ _. fault ≢ TextFault.OutOfMemory) }
    ensures status { IfOk result (λ said. said.status ≡ Status.Refused) }
    ensures text { IfOk result (λ said. said.text ≡ text_refusal fault) }
{
    if fault == TextFault::OutOfMemory {
        return Err(AllocError);
    }
    let mut line = LineText::new();
    line.push_all(b"refused text ");
    fault.line_into(&mut line);
    refused(alloc, &mut line)
}

/// A requirement's refusal, unless memory ran out.
pub fn refuse_ops(alloc: Global, fault: OpsFault) -> Result<Said, AllocError>
    ensures known { IfOk result (λ _. fault ≢ OpsFault.OutOfMemory) }
    ensures status { IfOk result (λ said. said.status ≡ Status.Refused) }
    ensures text { IfOk result (λ said. said.text ≡ ops_refusal fault) }
{
    if fault == OpsFault::OutOfMemory {
        return Err(AllocError);
    }
    let mut line = LineText::new();
    line.push_all(b"refused ops ");
    fault.line_into(&mut line);
    refused(alloc, &mut line)
}

/// A set's refusal, unless memory ran out.
pub fn refuse_set(alloc: Global, fault: SetFault) -> Result<Said, AllocError>
    ensures known { IfOk result (λ _. fault ≢ SetFault.OutOfMemory) }
    ensures status { IfOk result (λ said. said.status ≡ Status.Refused) }
    ensures text { IfOk result (λ said. said.text ≡ set_refusal fault) }
{
    if fault == SetFault::OutOfMemory {
        return Err(AllocError);
    }
    let mut line = LineText::new();
    line.push_all(b"refused set ");
    fault.line_into(&mut line);
    refused(alloc, &mut line)
}

/// The line with its LF.
fn refused(alloc: Global, line: &mut LineText) -> Result<Said, AllocError>
    requires { length (line_bytes line.old) + 1 ≤ LINE_ROOM }
    ensures status { IfOk result (λ said. said.status ≡ Status.Refused) }
    ensures text { IfOk result (λ said. said.text ≡ with_lf (line_bytes line.old)) }
{
    line.push(b'\n');
    Ok(Said {
        status: Status::Refused,
        text: Bytes::copy_of(alloc, line.as_slice())?,
    })
}
