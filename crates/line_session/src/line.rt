//! One line that goes out.

ghost use Rattle.std.specs.Prelude.{◌≤◌, length, OnOk, IsErr};
ghost use Rattle.line_text.specs.LineText.{line_bytes};
ghost use Rattle.gk_io.specs.Devices.{PassesSink};
ghost use Rattle.gk_io.specs.Told.{IsFlushed, PutAppends};
ghost use Rattle.line_reader.specs.Lines.{with_lf};
ghost use Rattle.line_session.specs.declared.limits.TheConstants.{REPLY_LIMIT};

use gk_io::{Failed, Sink};
use line_text::LineText;

/// Writes the text with an LF in one call, and flushes it. The LF stays at the end of the text.
pub fn write_line<W: Sink>(output: &mut W, text: &mut LineText) -> Result<(), Failed>
    requires { length (line_bytes text.old) ≤ REPLY_LIMIT }
    ensures bytes { PutAppends (W.written output.old) (W.written output.new) result
        (with_lf (line_bytes text.old)) }
    ensures flushed { OnOk result (IsFlushed (W.flushed output.new) (W.written output.new)) }
    ensures output { PassesSink (IsErr result) (IsErr result) (W.written output.old) (W.written output.new)
        (W.flushed output.old) (W.flushed output.new) (W.faults output.old) (W.faults output.new) }
{
    text.push(b'\n');
    output.put(text.as_slice())?;
    output.flush()
}
