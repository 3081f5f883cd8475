//! One line's reply.

ghost use Rattle.std.specs.Prelude.{◌≡◌, ℕ, List, take};
ghost use Rattle.line_text.specs.declared.limits.TheConstants.{LINE_HELD};
ghost use Rattle.gk_io.specs.Devices.{PassesSink};
ghost use Rattle.line_session.specs.Going.{end_after};
ghost use Rattle.line_session.specs.Replies.{IsReplied};

use crate::ended::Ended;
use crate::line::write_line;
use crate::responder::Responder;
use gk_io::{Failed, Sink};
use line_text::LineText;
use std::alloc::{AllocError, Global};

/// What became of one line's reply.
#[derive(Clone, Copy)]
pub enum Reply {
    /// It was written with its LF, and flushed.
    Whole,
    /// The line was answered, and the sink failed.
    Broken,
    /// Out of memory, and the line wasn't answered.
    Unanswered,
}

impl Reply {
    // How the session ends, where after a whole reply it would end so or go on.
    pub fn end_after(self, whole: Option<Ended>) -> Option<Ended>
        ensures { result ≡ end_after self whole }
    {
        match self {
            Reply::Whole => whole,
            Reply::Broken => Some(Ended::WriteFault),
            Reply::Unanswered => Some(Ended::OutOfMemory),
        }
    }
}

/// Answers a line, and writes the reply with its LF at once.
pub fn reply_to<R: Responder, W: Sink>(
    alloc: Global,
    responder: &mut R,
    line: &[u8],
    text: &mut LineText,
    output: &mut W,
) -> Reply
    requires ready { R.ready responder.old }
    ensures ready { R.ready responder.new }
    ensures replied { (begin : R) (whole : List ℕ) (lines replies : List (List ℕ))
        → line.now ≡ take LINE_HELD whole → R.answered begin responder.old lines replies
        → IsReplied R.takes_memory (R.answered begin responder.new) (W.written output.old) (W.written output.new)
        whole lines replies result }
    ensures output { PassesSink (result ≡ Reply.Broken) (result ≡ Reply.Broken) (W.written output.old)
        (W.written output.new) (W.flushed output.old) (W.flushed output.new) (W.faults output.old)
        (W.faults output.new) }
{
    text.clear();
    match responder.answer(alloc, line, text) {
        Ok(()) => match write_line(output, text) {
            Ok(()) => Reply::Whole,
            Err(Failed) => Reply::Broken,
        },
        Err(AllocError) => Reply::Unanswered,
    }
}
