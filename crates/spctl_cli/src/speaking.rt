//! The commands that say one text.

ghost use Rattle.std.specs.Prelude.{◌≡◌, ℕ, List, Option, None};
ghost use Rattle.gk_io.specs.Devices.{Counts, PassesClock, PassesShelf, PassesSink};
ghost use Rattle.policy_keeper.specs.Told.{Told};
ghost use Rattle.desk_opening.specs.Opens.{IsLoaded, PassesLoad};
ghost use Rattle.command_words.specs.Table as model;
ghost use Rattle.command_words.specs.Views.{file_view, table_view, text_of};
ghost use Rattle.desk_state.specs.Failures.{kept_by};
ghost use Rattle.run_commands.specs.Answers.{LeavesAlone, TablesAnswer};
ghost use Rattle.spctl_cli.specs.Conclusions.{SpokenEnd, Tally, tally_of};
ghost use Rattle.spctl_cli.specs.Ends.{FilesEnd, RehearsalAnswers, UsageEnds};
ghost use Rattle.spctl_cli.specs.Statuses.{AsksClock, AsksKeeper, AsksShelf, IsOfCommand, IsOfUsage, IsRehearsed, MayHide};

use crate::conclusion::conclude;
use crate::last_line::end_with;
use command_words::{FileCommand, TableCommand};
use gk_io::{Clock, Shelf, Sink};
use policy_keeper::Keeper;
use rehearse_command::rehearse;
use run_commands::{said_of_files, said_of_tables};
use run_status::Status;
use std::alloc::Global;

/// Writes what a command on files says.
pub(crate) fn on_files<W: Sink, H: Shelf, K: Keeper, C: Clock>(
    alloc: Global,
    facts: Option<&str>,
    command: FileCommand<'_>,
    output: &mut W,
    shelf: &mut H,
    keeper: &mut K,
    clock: &mut C,
) -> Status
    ensures ends { (left : Option (List ℕ)) → FilesEnd (H.files shelf.old) (C.moments clock.old) (K.told keeper.new) (kept_by (K.told keeper.new) (K.faults keeper.old) (K.faults keeper.new))
        (tally_of (H.faults shelf.old) (H.faults shelf.new) (K.faults keeper.old) (K.faults keeper.new) (C.faults clock.old) (C.faults clock.new)) (text_of facts.entry) (file_view command.entry)
        left left (W.written output.old) (W.written output.new) result }
    ensures own { IsOfCommand (model.on_files (file_view command.entry)) result }
    ensures leaves { LeavesAlone (file_view command.entry) (K.told keeper.old) (K.told keeper.new) (C.moments clock.old) (C.moments clock.new) }
    ensures output { PassesSink (result ≡ Status.WriteFault) (result ≡ Status.WriteFault) (W.written output.old) (W.written output.new)
        (W.flushed output.old) (W.flushed output.new) (W.faults output.old) (W.faults output.new) }
    ensures shelf { PassesShelf (result ≡ Status.ShelfFault) (AsksShelf (text_of facts.entry) (model.on_files (file_view command.entry)) × MayHide Status.ShelfFault result) (H.files shelf.old) (H.files shelf.new) (H.faults shelf.old) (H.faults shelf.new) }
    ensures keeper { PassesLoad (result ≡ Status.KeeperFault) (AsksKeeper (model.on_files (file_view command.entry)) result) (K.told keeper.old) (K.told keeper.new) (K.faults keeper.old) (K.faults keeper.new) }
    ensures clock { PassesClock (result ≡ Status.ClockFault) (AsksClock (model.on_files (file_view command.entry)) × MayHide Status.ClockFault result) (C.moments clock.old) (C.moments clock.new) (C.faults clock.old) (C.faults clock.new) }
{
    let ended = said_of_files(alloc, facts, command, shelf, keeper, clock);
    conclude(output, ended)
}

/// Writes what a command on the rules says.
pub(crate) fn on_tables<W: Sink, H: Shelf, K: Keeper>(
    alloc: Global,
    command: TableCommand<'_>,
    output: &mut W,
    shelf: &mut H,
    keeper: &mut K,
) -> Status
    ensures ends { (left : Option (List ℕ)) (times : ℕ) → (rows : Told) × IsLoaded (K.told keeper.old) rows (K.told keeper.new)
        × SpokenEnd (TablesAnswer (H.files shelf.old) rows (kept_by (K.told keeper.new) (K.faults keeper.old) (K.faults keeper.new)) (table_view command.entry))
        (tally_of (H.faults shelf.old) (H.faults shelf.new) (K.faults keeper.old) (K.faults keeper.new) times times) left left (W.written output.old) (W.written output.new) result }
    ensures own { IsOfCommand (model.on_tables (table_view command.entry)) result }
    ensures output { PassesSink (result ≡ Status.WriteFault) (result ≡ Status.WriteFault) (W.written output.old) (W.written output.new)
        (W.flushed output.old) (W.flushed output.new) (W.faults output.old) (W.faults output.new) }
    ensures shelf { PassesShelf (result ≡ Status.ShelfFault) (AsksShelf None (model.on_tables (table_view command.entry)) × MayHide Status.ShelfFault result) (H.files shelf.old) (H.files shelf.new) (H.faults shelf.old) (H.faults shelf.new) }
    ensures keeper { Counts (result ≡ Status.KeeperFault) (AsksKeeper (model.on_tables (table_view command.entry)) result) (K.faults keeper.old) (K.faults keeper.new) }
{
    let ended = said_of_tables(alloc, command, shelf, keeper);
    conclude(output, ended)
}

/// Writes what a rehearsal says.
pub(crate) fn on_rehearsal<W: Sink>(alloc: Global, steps: u32, output: &mut W) -> Status
    ensures ends { (left : Option (List ℕ)) (tally : Tally) → SpokenEnd (RehearsalAnswers steps) tally left left (W.written output.old) (W.written output.new) result }
    ensures own { IsRehearsed result }
    ensures output { PassesSink (result ≡ Status.WriteFault) (result ≡ Status.WriteFault) (W.written output.old) (W.written output.new)
        (W.flushed output.old) (W.flushed output.new) (W.faults output.old) (W.faults output.new) }
{
    match rehearse(alloc, steps) {
        Ok(said) => end_with(output, said.text.as_slice(), said.status),
        Err(_) => Status::OutOfMemory,
    }
}

/// Tells how the program is called.
pub(crate) fn usage<W: Sink>(output: &mut W) -> Status
    ensures ends { (left : Option (List ℕ)) → UsageEnds left left (W.written output.old) (W.written output.new) result }
    ensures own { IsOfUsage result }
    ensures output { PassesSink (result ≡ Status.WriteFault) (result ≡ Status.WriteFault) (W.written output.old) (W.written output.new)
        (W.flushed output.old) (W.flushed output.new) (W.faults output.old) (W.faults output.new) }
{
    end_with(
        output,
        b"usage: gatekeeper [--facts NAME] STORE COMMAND [WORDS]\n",
        Status::Usage,
    )
}
