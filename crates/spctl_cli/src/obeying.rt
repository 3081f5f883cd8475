//! What the words ask for, done.

ghost use Rattle.std.specs.Prelude.{◌≡◌, ◌≢◌, ℕ, List, Some};
ghost use Rattle.gk_io.specs.Devices.{Counts, PassesClock, PassesShelf, PassesSink, PassesSource};
ghost use Rattle.line_reader.specs.Limits.{IsWithin};
ghost use Rattle.policy_keeper.specs.Told.{Told};
ghost use Rattle.desk_state.specs.Failures.{kept_by};
ghost use Rattle.desk_opening.specs.Opens.{IsLoaded};
ghost use Rattle.command_words.specs.Views.{texts, line_view};
ghost use Rattle.spctl_cli.specs.Conclusions.{tally_of};
ghost use Rattle.spctl_cli.specs.Ends.{RunEnds};
ghost use Rattle.spctl_cli.specs.Statuses.{IsOwn, IsUntouched, MayFailClock, MayFailInput, MayFailKeeper, MayFailShelf};
ghost use Rattle.spctl_cli.specs.Words.{asked};

use crate::session::session;
use crate::speaking::{on_files, on_rehearsal, on_tables, usage};
use command_words::{Command, CommandLine, WordsFault, read_words};
use gk_io::{Clock, Shelf, Sink, Source};
use policy_keeper::Keeper;
use run_status::Status;
use std::alloc::Global;

/// Does what the words ask for.
pub(crate) fn obey<S: Source, W: Sink, H: Shelf, K: Keeper, C: Clock>(
    alloc: Global,
    words: &[&str],
    input: &mut S,
    output: &mut W,
    shelf: &mut H,
    keeper: &mut K,
    clock: &mut C,
) -> Status
    ensures ends { (rows : Told) × IsLoaded (K.told keeper.old) rows (K.told keeper.new)
        × RunEnds (H.files shelf.old) (C.moments clock.old) rows (kept_by (K.told keeper.new) (K.faults keeper.old) (K.faults keeper.new))
        (tally_of (H.faults shelf.old) (H.faults shelf.new) (K.faults keeper.old) (K.faults keeper.new) (C.faults clock.old) (C.faults clock.new)) (asked (texts words.now))
        (S.left input.old) (S.left input.new) (W.written output.old) (W.written output.new) result }
    ensures own { IsOwn (asked (texts words.now)) result }
    ensures within { (bytes : List ℕ) → S.left input.old ≡ Some bytes → IsWithin bytes
        → result ≢ Status.SessionTooLong }
    ensures input { PassesSource (result ≡ Status.ReadFault) (MayFailInput (asked (texts words.now)) result) (S.left input.old) (S.left input.new) (S.faults input.old) (S.faults input.new) }
    ensures output { PassesSink (result ≡ Status.WriteFault) (result ≡ Status.WriteFault) (W.written output.old) (W.written output.new)
        (W.flushed output.old) (W.flushed output.new) (W.faults output.old) (W.faults output.new) }
    ensures shelf { PassesShelf (result ≡ Status.ShelfFault) (MayFailShelf (asked (texts words.now)) result) (H.files shelf.old) (H.files shelf.new) (H.faults shelf.old) (H.faults shelf.new) }
    ensures keeper { Counts (result ≡ Status.KeeperFault) (MayFailKeeper (asked (texts words.now)) result) (K.faults keeper.old) (K.faults keeper.new) }
    ensures clock { PassesClock (result ≡ Status.ClockFault) (MayFailClock (asked (texts words.now)) result) (C.moments clock.old) (C.moments clock.new) (C.faults clock.old) (C.faults clock.new) }
    ensures untouched { IsUntouched (asked (texts words.now)) (K.told keeper.old) (K.told keeper.new) (C.moments clock.old) (C.moments clock.new) }
{
    match read_words(alloc, words) {
        Ok(line) => obey_line(alloc, line, input, output, shelf, keeper, clock),
        Err(WordsFault::Usage) => usage(output),
        Err(WordsFault::OutOfMemory) => Status::OutOfMemory,
    }
}

/// Does what a command line asks for.
fn obey_line<S: Source, W: Sink, H: Shelf, K: Keeper, C: Clock>(
    alloc: Global,
    line: CommandLine<'_>,
    input: &mut S,
    output: &mut W,
    shelf: &mut H,
    keeper: &mut K,
    clock: &mut C,
) -> Status
    ensures ends { (rows : Told) × IsLoaded (K.told keeper.old) rows (K.told keeper.new)
        × RunEnds (H.files shelf.old) (C.moments clock.old) rows (kept_by (K.told keeper.new) (K.faults keeper.old) (K.faults keeper.new))
        (tally_of (H.faults shelf.old) (H.faults shelf.new) (K.faults keeper.old) (K.faults keeper.new) (C.faults clock.old) (C.faults clock.new)) (Some (line_view line.entry))
        (S.left input.old) (S.left input.new) (W.written output.old) (W.written output.new) result }
    ensures own { IsOwn (Some (line_view line.entry)) result }
    ensures within { (bytes : List ℕ) → S.left input.old ≡ Some bytes → IsWithin bytes
        → result ≢ Status.SessionTooLong }
    ensures input { PassesSource (result ≡ Status.ReadFault) (MayFailInput (Some (line_view line.entry)) result) (S.left input.old) (S.left input.new) (S.faults input.old) (S.faults input.new) }
    ensures output { PassesSink (result ≡ Status.WriteFault) (result ≡ Status.WriteFault) (W.written output.old) (W.written output.new)
        (W.flushed output.old) (W.flushed output.new) (W.faults output.old) (W.faults output.new) }
    ensures shelf { PassesShelf (result ≡ Status.ShelfFault) (MayFailShelf (Some (line_view line.entry)) result) (H.files shelf.old) (H.files shelf.new) (H.faults shelf.old) (H.faults shelf.new) }
    ensures keeper { Counts (result ≡ Status.KeeperFault) (MayFailKeeper (Some (line_view line.entry)) result) (K.faults keeper.old) (K.faults keeper.new) }
    ensures clock { PassesClock (result ≡ Status.ClockFault) (MayFailClock (Some (line_view line.entry)) result) (C.moments clock.old) (C.moments clock.new) (C.faults clock.old) (C.faults clock.new) }
    ensures untouched { IsUntouched (Some (line_view line.entry)) (K.told keeper.old) (K.told keeper.new) (C.moments clock.old) (C.moments clock.new) }
{
    let CommandLine { facts, command, .. } = line;
    match command {
        Command::Session => session(alloc, facts, input, output, shelf, keeper),
        Command::OnFiles(command) => {
            on_files(alloc, facts, command, output, shelf, keeper, clock)
        }
        Command::OnTables(command) => on_tables(alloc, command, output, shelf, keeper),
        Command::Rehearse { steps } => on_rehearsal(alloc, steps, output),
    }
}
