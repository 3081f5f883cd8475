//! A rehearsal, run whole.

ghost use Rattle.std.specs.Prelude.{◌≡◌, [], IfOk};
ghost use Rattle.line_reader.specs.Lines.{with_lf};
ghost use Rattle.req_tree.specs.Facts.{Facts};
ghost use Rattle.policy_model.specs.History.{fresh};
ghost use Rattle.store_model.specs.Stored.{Holds};
ghost use Rattle.desk_state.specs.Stands.{Stands, tables};
ghost use Rattle.memory_keeper.specs.Memory.{kept, no_rows};
ghost use Rattle.rehearsal.specs.Counts.{summary_text};
ghost use Rattle.rehearsal.specs.Sayings.{counts_of};
ghost use Rattle.rehearse_command.specs.Rehearsing.{AreKnown, AreCounts, SaysRehearsal};

use crate::limits::REPLY_ROOM;
use code_facts::FactTable;
use desk_lines::session_lines;
use desk_state::Desk;
use gk_io::{CallNumbers, MemorySink, MemorySource};
use line_session::Ended;
use line_text::{Bytes, LineText};
use memory_keeper::MemoryKeeper;
use rehearsal::{Tally, facts_text, session_text};
use run_status::{Said, Status};
use std::alloc::{AllocError, Global};
use std::sync::Arc;
use store_model::laws::{stored_rows_mean_tables, stored_tables};

/// Says the summary of a rehearsal of so many steps.
pub fn rehearse(alloc: Global, steps: u32) -> Result<Said, AllocError>
    ensures { IfOk result (λ said. SaysRehearsal steps said.status said.text) }
{
    let mut keeper = MemoryKeeper::new(alloc);
    let mut desk = known_desk(alloc, &mut keeper)?;
    let tally = tally_of(alloc, &mut desk, &mut keeper, steps)?;
    drop(desk);
    drop(keeper);
    let text = summary(alloc, steps, &tally)?;
    Ok(Said {
        status: Status::Fine,
        text,
    })
}

/// A new desk over a new keeper, which knows the facts of rehearsals.
fn known_desk(alloc: Global, keeper: &mut MemoryKeeper) -> Result<Desk, AllocError>
    requires { kept keeper.old ≡ no_rows }
    ensures stands { IfOk result (λ desk. (facts : Facts) × AreKnown facts × Stands desk (fresh facts) []) }
    ensures mirrors { IfOk result (λ desk. Holds (kept keeper.new) (tables desk)) }
{
    stored_tables();
    stored_rows_mean_tables();
    let text = facts_text(alloc)?;
    let Ok(table) = FactTable::read(alloc, text.as_slice()) else {
        return Err(AllocError);
    };
    let facts = Arc::new(alloc, table)?;
    match Desk::load(alloc, keeper, facts) {
        Ok(desk) => Ok(desk),
        Err(_) => Err(AllocError),
    }
}

/// The counts over the replies of a new desk.
fn tally_of(
    alloc: Global,
    desk: &mut Desk,
    keeper: &mut MemoryKeeper,
    steps: u32,
) -> Result<Tally, AllocError>
    requires { Holds (kept keeper.old) (tables desk.old) }
    ensures { IfOk result (λ tally. (facts : Facts) → Stands desk.old (fresh facts) [] → AreCounts facts steps (counts_of tally)) }
{
    let text = session_text(alloc, steps)?;
    let bytes = Vec::from_slice(alloc, text.as_slice())?;
    let mut input = MemorySource::new(bytes, CallNumbers::new(alloc));
    let room = REPLY_ROOM.saturating_mul(steps as usize);
    let mut output = MemorySink::with_room(alloc, room, CallNumbers::new(alloc))?;
    let Ended::Fine = session_lines(alloc, desk, keeper, &mut input, &mut output) else {
        return Err(AllocError);
    };
    if keeper.faults() == 0 {
        Ok(Tally::of(output.written()))
    } else {
        Err(AllocError)
    }
}

/// The line of the counts, with its LF.
fn summary(alloc: Global, steps: u32, tally: &Tally) -> Result<Bytes, AllocError>
    ensures { IfOk result (λ text. text ≡ with_lf (summary_text steps (counts_of tally.now))) }
{
    let mut line = LineText::new();
    tally.summary_into(steps, &mut line);
    line.push(b'\n');
    Bytes::copy_of(alloc, line.as_slice())
}
