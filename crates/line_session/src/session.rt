//! The loop over the lines of a session.

ghost use Rattle.std.specs.Prelude.{◌≡◌, ◌≢◌, ◌<◌, ◌≤◌, ℕ, List, [], Option, Some, IfNone};
ghost use Rattle.gk_io.specs.Devices.{PassesSource, PassesSink};
ghost use Rattle.line_reader.specs.Limits.{IsWithin, RunsPast};
ghost use Rattle.line_reader.specs.Reading.{pending, stream, lines_handed, bytes_handed};
ghost use Rattle.line_reader.specs.declared.limits.TheConstants.{SESSION_LINES};
ghost use Rattle.line_session.specs.Ends.{IsEnd};
ghost use Rattle.line_session.specs.Going.{IsGoing, IsTurn};

use crate::ended::Ended;
use crate::reply::reply_to;
use crate::responder::Responder;
use gk_io::{Failed, Sink, Source};
use line_reader::laws::{limits_are_passed_once, lines_add_up};
use line_reader::{LineRead, LineReader};
use line_text::LineText;
use std::alloc::Global;

/// Answers the source's lines in order, each by one line into the sink, until the source's end, a fault, the
/// limits of a session or the end of memory.
pub fn run_session<R: Responder, S: Source, W: Sink>(
    alloc: Global,
    responder: &mut R,
    input: &mut S,
    output: &mut W,
) -> Ended
    requires answered { R.answered responder.old responder.old [] [] }
    requires ready { R.ready responder.old }
    ensures ready { R.ready responder.new }

    // What was read, answered and written, by the end.
    ensures ends { IsEnd R.takes_memory (R.answered responder.old responder.new) (S.left input.old) (S.left input.new)
        (W.written output.old) (W.written output.new) result }
    ensures answered { (lines replies : List (List ℕ)) × R.answered responder.old responder.new lines replies }

    // A session whose bytes are told ends by its limits only where they run past them, and is fine only where
    // they don't.
    ensures within { (bytes : List ℕ) → S.left input.old ≡ Some bytes → IsWithin bytes → result ≢ Ended.TooLong }
    ensures past { (bytes : List ℕ) → S.left input.old ≡ Some bytes → RunsPast bytes → result ≢ Ended.Fine }
    ensures input { PassesSource (result ≡ Ended.ReadFault) (result ≡ Ended.ReadFault) (S.left input.old) (S.left input.new)
        (S.faults input.old) (S.faults input.new) }
    ensures output { PassesSink (result ≡ Ended.WriteFault) (result ≡ Ended.WriteFault) (W.written output.old)
        (W.written output.new) (W.flushed output.old) (W.flushed output.new) (W.faults output.old) (W.faults output.new) }
{
    limits_are_passed_once();
    match LineReader::new(alloc) {
        Ok(mut reader) => all_lines(alloc, &mut reader, responder, input, output),
        Err(_) => Ended::OutOfMemory,
    }
}

// All lines, from a reader that handed on nothing yet.
fn all_lines<R: Responder, S: Source, W: Sink>(
    alloc: Global,
    reader: &mut LineReader,
    responder: &mut R,
    input: &mut S,
    output: &mut W,
) -> Ended
    requires pending { pending reader.old ≡ [] }
    requires lines { lines_handed reader.old ≡ 0 }
    requires bytes { bytes_handed reader.old ≡ 0 }
    requires answered { R.answered responder.old responder.old [] [] }
    requires ready { R.ready responder.old }
    ensures ready { R.ready responder.new }
    ensures ends { IsEnd R.takes_memory (R.answered responder.old responder.new) (S.left input.old) (S.left input.new)
        (W.written output.old) (W.written output.new) result }
    ensures input { PassesSource (result ≡ Ended.ReadFault) (result ≡ Ended.ReadFault) (S.left input.old) (S.left input.new)
        (S.faults input.old) (S.faults input.new) }
    ensures output { PassesSink (result ≡ Ended.WriteFault) (result ≡ Ended.WriteFault) (W.written output.old)
        (W.written output.new) (W.flushed output.old) (W.flushed output.new) (W.faults output.old) (W.faults output.new) }
{
    let mut text = LineText::new();
    loop {
        if let Some(ended) = one_line(alloc, reader, &mut text, responder, input, output) {
            return ended;
        }
    }
}

// One line: none where the session goes on.
fn one_line<R: Responder, S: Source, W: Sink>(
    alloc: Global,
    reader: &mut LineReader,
    text: &mut LineText,
    responder: &mut R,
    input: &mut S,
    output: &mut W,
) -> Option<Ended>
    requires ready { R.ready responder.old }
    ensures ready { R.ready responder.new }
    ensures goes { (begin : R) (start first : Option (List ℕ))
        → IsGoing (R.answered begin responder.old) start (stream reader.old (S.left input.old)) first (W.written output.old)
        → IsTurn R.takes_memory (R.answered begin responder.new) start (S.left input.new) (stream reader.new (S.left input.new))
        first (W.written output.new) result }
    ensures counted { IfNone result (lines_handed reader.old < lines_handed reader.new) }
    ensures lines { lines_handed reader.new ≤ SESSION_LINES }
    ensures input { PassesSource (result ≡ Some Ended.ReadFault) (result ≡ Some Ended.ReadFault) (S.left input.old)
        (S.left input.new) (S.faults input.old) (S.faults input.new) }
    ensures output { PassesSink (result ≡ Some Ended.WriteFault) (result ≡ Some Ended.WriteFault) (W.written output.old)
        (W.written output.new) (W.flushed output.old) (W.flushed output.new) (W.faults output.old) (W.faults output.new) }
{
    lines_add_up();
    match reader.next_line(input) {
        Ok(LineRead::Line) => {
            reply_to(alloc, responder, reader.line(), text, output).end_after(None)
        }
        Ok(LineRead::Last) => {
            reply_to(alloc, responder, reader.line(), text, output).end_after(Some(Ended::Fine))
        }
        Ok(LineRead::End) => Some(Ended::Fine),
        Ok(LineRead::TooLong) => Some(Ended::TooLong),
        Err(Failed) => Some(Ended::ReadFault),
    }
}
