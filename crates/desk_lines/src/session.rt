//! A session over a desk that is lent.

ghost use Rattle.std.specs.Prelude.{◌≡◌, ◌≢◌, ℕ, List, [], Some};
ghost use Rattle.gk_io.specs.Devices.{PassesSource, PassesSink};
ghost use Rattle.line_reader.specs.Limits.{IsWithin, RunsPast};
ghost use Rattle.line_session.specs.Ends.{IsEnd};
ghost use Rattle.policy_keeper.specs.Mirror.{Mirrors};
ghost use Rattle.desk_state.specs.Stands.{tables, plain};
ghost use Rattle.desk_lines.specs.Slots.{AreOfDesk};
ghost use Rattle.desk_lines.specs.Answered.{HasAnswered, HasAnsweredSo};
ghost use Rattle.desk_lines.specs.Memory.{TakesMemory};
ghost use Rattle.desk_state.specs.Failures.{Keeps};

use crate::lines::DeskLines;
use desk_state::Desk;
use gk_io::{Sink, Source};
use line_session::{Ended, run_session};
use policy_keeper::Keeper;
use std::alloc::Global;

/// Answers the lines of the input by a desk that is lent, whose tables the keeper keeps.
pub fn session_lines<K: Keeper, S: Source, W: Sink>(
    alloc: Global,
    desk: &mut Desk,
    keeper: &mut K,
    input: &mut S,
    output: &mut W,
) -> Ended
    requires mirrors { Mirrors (K.told keeper.old) (tables desk.old) }

    // The keeper tells the desk's tables, as it did before.
    ensures mirrors { Mirrors (K.told keeper.new) (tables desk.new) }
    ensures keeps { Keeps (K.told keeper.old) (K.told keeper.new) (K.faults keeper.old) (K.faults keeper.new) }

    // What was read, answered and written, by the end.
    ensures ends { IsEnd TakesMemory (HasAnswered desk.old desk.new (K.faults keeper.old) (K.faults keeper.new))
        (S.left input.old) (S.left input.new) (W.written output.old) (W.written output.new) result }
    ensures answered { (lines replies : List (List ℕ)) × HasAnswered desk.old desk.new (K.faults keeper.old) (K.faults keeper.new) lines replies }

    // A session whose bytes are told ends by its limits only where they run past them, and is fine only where
    // they don't.
    ensures within { (bytes : List ℕ) → S.left input.old ≡ Some bytes → IsWithin bytes → result ≢ Ended.TooLong }
    ensures past { (bytes : List ℕ) → S.left input.old ≡ Some bytes → RunsPast bytes → result ≢ Ended.Fine }
    ensures input { PassesSource (result ≡ Ended.ReadFault) (result ≡ Ended.ReadFault) (S.left input.old) (S.left input.new)
        (S.faults input.old) (S.faults input.new) }
    ensures output { PassesSink (result ≡ Ended.WriteFault) (result ≡ Ended.WriteFault) (W.written output.old)
        (W.written output.new) (W.flushed output.old) (W.flushed output.new) (W.faults output.old) (W.faults output.new) }
{
    let mut slots = Vec::new(alloc);
    let mut lines = DeskLines::over(desk, keeper, &mut slots);
    answer_lines(alloc, &mut lines, input, output)
}

/// Answers the lines of the input by a desk and what is open.
fn answer_lines<K: Keeper, S: Source, W: Sink>(
    alloc: Global,
    responder: &mut DeskLines<K>,
    input: &mut S,
    output: &mut W,
) -> Ended
    requires answered { HasAnsweredSo responder.old.desk.now responder.old.desk.now responder.old.slots.now.items (K.faults responder.old.keeper.now) (K.faults responder.old.keeper.now) [] [] }
    requires mirrors { Mirrors (K.told responder.old.keeper.now) (tables responder.old.desk.now) }
    requires of_desk { AreOfDesk (plain responder.old.desk.now) responder.old.slots.now.items }
    ensures mirrors { Mirrors (K.told responder.new.keeper.now) (tables responder.new.desk.now) }
    ensures keeps { Keeps (K.told responder.old.keeper.now) (K.told responder.new.keeper.now) (K.faults responder.old.keeper.now) (K.faults responder.new.keeper.now) }
    ensures name { responder.new.desk.ghost_name ≡ responder.old.desk.ghost_name }
    ensures keeper_name { responder.new.keeper.ghost_name ≡ responder.old.keeper.ghost_name }

    // What was read, answered and written, by the end.
    ensures ends { IsEnd TakesMemory (HasAnswered responder.old.desk.now responder.new.desk.now (K.faults responder.old.keeper.now) (K.faults responder.new.keeper.now))
        (S.left input.old) (S.left input.new) (W.written output.old) (W.written output.new) result }
    ensures answered { (lines replies : List (List ℕ)) × HasAnswered responder.old.desk.now responder.new.desk.now (K.faults responder.old.keeper.now) (K.faults responder.new.keeper.now) lines replies }

    // A session whose bytes are told ends by its limits only where they run past them, and is fine only where
    // they don't.
    ensures within { (bytes : List ℕ) → S.left input.old ≡ Some bytes → IsWithin bytes → result ≢ Ended.TooLong }
    ensures past { (bytes : List ℕ) → S.left input.old ≡ Some bytes → RunsPast bytes → result ≢ Ended.Fine }
    ensures input { PassesSource (result ≡ Ended.ReadFault) (result ≡ Ended.ReadFault) (S.left input.old) (S.left input.new)
        (S.faults input.old) (S.faults input.new) }
    ensures output { PassesSink (result ≡ Ended.WriteFault) (result ≡ Ended.WriteFault) (W.written output.old)
        (W.written output.new) (W.flushed output.old) (W.flushed output.new) (W.faults output.old) (W.faults output.new) }
{
    run_session(alloc, responder, input, output)
}
