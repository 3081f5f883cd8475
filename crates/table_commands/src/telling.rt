//! The status and the list, which change nothing.

ghost use Rattle.std.specs.Prelude.{◌≡◌, List, IfOk};
ghost use Rattle.line_reader.specs.Lines.{with_lf};
ghost use Rattle.policy_model.specs.History.{Event, Opening};
ghost use Rattle.desk_state.specs.Stands.{Stands};
ghost use Rattle.table_commands.specs.TableSays.{switch_line, SaysStatus, SaysList};

use desk_state::Desk;
use line_text::Bytes;
use run_status::{Said, Status};
use std::alloc::{AllocError, Global};

/// What `status` says.
pub fn status(alloc: Global, desk: &Desk) -> Result<Said, AllocError>
    ensures { (o : Opening) (h : List Event) → Stands desk.now o h → IfOk result (λ said. SaysStatus o h said.status said.text) }
{
    let text = Bytes::copy_of(alloc, switch_line(desk.status().enabled))?;
    Ok(Said {
        status: Status::Fine,
        text,
    })
}

/// Whether assessments are switched on, as a line with its LF.
fn switch_line(enabled: bool) -> &'static [u8]
    ensures { result.now ≡ with_lf (switch_line enabled) }
{
    if enabled {
        b"assessments enabled\n"
    } else {
        b"assessments disabled\n"
    }
}

/// What `list` says.
pub fn list(alloc: Global, desk: &Desk) -> Result<Said, AllocError>
    ensures { (o : Opening) (h : List Event) → Stands desk.now o h → IfOk result (λ said. SaysList o h said.status said.text) }
{
    let text = desk.list_text(alloc)?;
    Ok(Said {
        status: Status::Fine,
        text,
    })
}
