//! All that the program does.

ghost use Rattle.std.specs.Prelude.{◌≡◌, ◌≢◌, ◌↔◌, ℕ, List, Option, Some, None, IsSome};
ghost use Rattle.gk_io.specs.Devices.{Counts, PassesClock, PassesShelf, PassesSink, PassesSource};
ghost use Rattle.gk_io.specs.Faults.{CanRise, Rose};
ghost use Rattle.policy_model.specs.History.{Opening};
ghost use Rattle.policy_keeper.specs.Told.{Told};
ghost use Rattle.session_model.specs.Slots.{State};
ghost use Rattle.session_model.specs.Session.{begun};
ghost use Rattle.desk_state.specs.Failures.{kept_by};
ghost use Rattle.desk_opening.specs.Opens.{IsLoaded, IsOpening};
ghost use Rattle.command_words.specs.Table as model;
ghost use Rattle.command_words.specs.Views.{texts};
ghost use Rattle.spctl_cli.specs.Conclusions.{tally_of};
ghost use Rattle.spctl_cli.specs.Ends.{GavePast};
ghost use Rattle.spctl_cli.specs.Headline.{IsSession};
ghost use Rattle.spctl_cli.specs.Ran.{IsExactly, Ran};
ghost use Rattle.spctl_cli.specs.Statuses.{IsOwn, IsUntouched, MayFailClock, MayFailInput, MayFailKeeper, MayFailShelf};
ghost use Rattle.spctl_cli.specs.Words.{asked, line_on};

use crate::obeying::obey;
use desk_opening::laws::a_run_begins_or_not;
use gk_io::{Clock, Shelf, Sink, Source};
use policy_keeper::Keeper;
use run_commands::laws::{each_command_has_one_status, each_table_command_has_one_status};
use run_status::Status;
use std::alloc::Global;

/// Does what the words of the command line say, of which the program's name is none.
pub fn run<S: Source, W: Sink, H: Shelf, K: Keeper, C: Clock>(
    alloc: Global,
    words: &[&str],
    input: &mut S,
    output: &mut W,
    shelf: &mut H,
    keeper: &mut K,
    clock: &mut C,
) -> Status
    // The headline: a session that ends well wrote just the replies to the lines it read, by a desk that began with the
    // facts of the run and the rows that the keeper told when its load had answered, and the keeper has the tables that the
    // session leads to.
    ensures fine { (store : List ℕ) (facts : Option (List ℕ)) → asked (texts words.now) ≡ Some (line_on store facts model.session) → result ≡ Status.Fine
        → (rows : Told) × IsLoaded (K.told keeper.old) rows (K.told keeper.new) × (o : Opening) × IsOpening (H.files shelf.old) facts rows o
        × (after : State) × IsSession (kept_by (K.told keeper.new) (K.faults keeper.old) (K.faults keeper.new)) o begun after (S.left input.old) (S.left input.new)
        (W.written output.old) (W.written output.new) }

    // Over such rows: what was read, answered and written, what the keeper then tells, and the cause of each end, by the
    // command and the end.
    ensures ran { Ran (H.files shelf.old) (C.moments clock.old) (K.told keeper.old) (kept_by (K.told keeper.new) (K.faults keeper.old) (K.faults keeper.new))
        (tally_of (H.faults shelf.old) (H.faults shelf.new) (K.faults keeper.old) (K.faults keeper.new) (C.faults clock.old) (C.faults clock.new)) (asked (texts words.now))
        (S.left input.old) (S.left input.new) (W.written output.old) (W.written output.new) result }
    ensures own { IsOwn (asked (texts words.now)) result }

    // What needs no rows. Running out of memory needs no cause.
    ensures usage_cause { result ≢ Status.WriteFault → result ≢ Status.OutOfMemory
        → ((result ≡ Status.Usage) ↔ (asked (texts words.now) ≡ None)) }
    ensures too_long_cause { IsSome (S.left input.old)
        → result ≢ Status.WriteFault → result ≢ Status.OutOfMemory
        → ((result ≡ Status.SessionTooLong) ↔ GavePast (S.left input.old) (S.left input.new)) }

    // Each device tells afterwards what it told before. A fault is that of its device, in this call: its count rose, and
    // it moves only where the words ask for the device and it may have failed. A keeper's count also shows the edits that it
    // didn't keep, whose replies say so.
    ensures input { PassesSource (result ≡ Status.ReadFault) (MayFailInput (asked (texts words.now)) result) (S.left input.old) (S.left input.new) (S.faults input.old) (S.faults input.new) }
    ensures output { PassesSink (result ≡ Status.WriteFault) (result ≡ Status.WriteFault) (W.written output.old) (W.written output.new)
        (W.flushed output.old) (W.flushed output.new) (W.faults output.old) (W.faults output.new) }
    ensures shelf { PassesShelf (result ≡ Status.ShelfFault) (MayFailShelf (asked (texts words.now)) result) (H.files shelf.old) (H.files shelf.new) (H.faults shelf.old) (H.faults shelf.new) }
    ensures keeper { Counts (result ≡ Status.KeeperFault) (MayFailKeeper (asked (texts words.now)) result) (K.faults keeper.old) (K.faults keeper.new) }
    ensures clock { PassesClock (result ≡ Status.ClockFault) (MayFailClock (asked (texts words.now)) result) (C.moments clock.old) (C.moments clock.new) (C.faults clock.old) (C.faults clock.new) }
    ensures untouched { IsUntouched (asked (texts words.now)) (K.told keeper.old) (K.told keeper.new) (C.moments clock.old) (C.moments clock.new) }
    ensures exact { IsExactly Status.ReadFault result (S.faults input.old) (S.faults input.new) × IsExactly Status.ShelfFault result (H.faults shelf.old) (H.faults shelf.new)
        × IsExactly Status.ClockFault result (C.faults clock.old) (C.faults clock.new) }
    ensures write_exact { CanRise (W.faults output.old) → ((result ≡ Status.WriteFault) ↔ Rose (W.faults output.old) (W.faults output.new)) }
{
    each_command_has_one_status();
    each_table_command_has_one_status();
    a_run_begins_or_not();
    obey(alloc, words, input, output, shelf, keeper, clock)
}
