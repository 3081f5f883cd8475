//! What ends the output of a run.

ghost use Rattle.std.specs.Prelude.{◌≡◌, ◌≢◌, IsErr, OnOk};
ghost use Rattle.gk_io.specs.Devices.{PassesSink};
ghost use Rattle.gk_io.specs.Told.{IsFlushed, PutAppends};
ghost use Rattle.spctl_cli.specs.LastLines.{IsEndedBy};

use gk_io::{Failed, Sink};
use run_status::Status;

/// Ends the output with this text and the run with this status, or by a fault of the sink.
pub fn end_with<W: Sink>(output: &mut W, text: &[u8], status: Status) -> Status
    requires { status ≢ Status.WriteFault }
    ensures put { IsEndedBy status text.now (W.written output.old) (W.written output.new) result }
    ensures output { PassesSink (result ≡ Status.WriteFault) (result ≡ Status.WriteFault) (W.written output.old) (W.written output.new)
        (W.flushed output.old) (W.flushed output.new) (W.faults output.old) (W.faults output.new) }
{
    match write_out(output, text) {
        Ok(()) => status,
        Err(Failed) => Status::WriteFault,
    }
}

/// Writes the text, and flushes it.
fn write_out<W: Sink>(output: &mut W, text: &[u8]) -> Result<(), Failed>
    ensures bytes { PutAppends (W.written output.old) (W.written output.new) result text.now }
    ensures flushed { OnOk result (IsFlushed (W.flushed output.new) (W.written output.new)) }
    ensures output { PassesSink (IsErr result) (IsErr result) (W.written output.old) (W.written output.new)
        (W.flushed output.old) (W.flushed output.new) (W.faults output.old) (W.faults output.new) }
{
    output.put(text)?;
    output.flush()
}
