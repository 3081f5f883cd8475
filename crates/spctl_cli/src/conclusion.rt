//! How a run ends whose command says one text.

ghost use Rattle.std.specs.Prelude.{◌≡◌, IfOk};
ghost use Rattle.gk_io.specs.Devices.{PassesSink};
ghost use Rattle.run_commands.specs.Spoken.{IsUttered};
ghost use Rattle.spctl_cli.specs.Conclusions.{IsConcluded};

use crate::last_line::end_with;
use gk_io::Sink;
use run_commands::Halt;
use run_status::{Said, Status, Stop};

/// Writes what a command says, or which device failed, and ends the run so.
pub fn conclude<W: Sink>(output: &mut W, ended: Result<Said, Halt>) -> Status
    requires { IfOk ended (λ said. IsUttered said.status) }
    ensures ends { IsConcluded ended (W.written output.old) (W.written output.new) result }
    ensures output { PassesSink (result ≡ Status.WriteFault) (result ≡ Status.WriteFault) (W.written output.old) (W.written output.new)
        (W.flushed output.old) (W.flushed output.new) (W.faults output.old) (W.faults output.new) }
{
    match ended {
        Ok(said) => end_with(output, said.text.as_slice(), said.status),
        Err(Halt::Stop(Stop::ShelfFault)) => end_with(
            output,
            b"fault ShelfFault\n",
            Status::ShelfFault,
        ),
        Err(Halt::Stop(Stop::ClockFault)) => end_with(
            output,
            b"fault ClockFault\n",
            Status::ClockFault,
        ),
        Err(Halt::Stop(Stop::OutOfMemory)) => Status::OutOfMemory,
        Err(Halt::KeeperFault) => end_with(output, b"fault KeeperFault\n", Status::KeeperFault),
    }
}
