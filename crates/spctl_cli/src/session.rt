//! A session over the desk of a run.

ghost use Rattle.std.specs.Prelude.{◌≡◌, ◌≢◌, ℕ, List, [], Some, IsSome, ⊤};
ghost use Rattle.gk_io.specs.Devices.{Counts, PassesShelf, PassesSink, PassesSource};
ghost use Rattle.line_reader.specs.Limits.{IsWithin};
ghost use Rattle.command_words.specs.Views.{text_of};
ghost use Rattle.desk_state.specs.Failures.{Keeps, kept_by};
ghost use Rattle.policy_model.specs.History.{Opening};
ghost use Rattle.policy_keeper.specs.Told.{Told};
ghost use Rattle.policy_keeper.specs.Mirror.{Mirrors};
ghost use Rattle.desk_state.specs.Stands.{tables, Stands};
ghost use Rattle.desk_opening.specs.Opens.{IsLoaded};
ghost use Rattle.session_model.specs.Session.{begun};
ghost use Rattle.spctl_cli.specs.Conclusions.{tally_of};
ghost use Rattle.spctl_cli.specs.Ends.{SessionEnds, SessionRun};
ghost use Rattle.spctl_cli.specs.Statuses.{IsOfSession, MayHide};

use crate::conclusion::conclude;
use crate::last_line::end_with;
use desk_lines::session_lines;
use desk_opening::laws::a_run_begins_or_not;
use desk_opening::open_desk;
use desk_state::Desk;
use gk_io::{Shelf, Sink, Source};
use line_session::Ended;
use policy_keeper::Keeper;
use run_commands::unopened;
use run_status::Status;
use std::alloc::Global;

/// Answers the lines of the input, or says why there is no desk.
pub(crate) fn session<S: Source, W: Sink, H: Shelf, K: Keeper>(
    alloc: Global,
    facts: Option<&str>,
    input: &mut S,
    output: &mut W,
    shelf: &mut H,
    keeper: &mut K,
) -> Status
    ensures ends { (times : ℕ) → (rows : Told) × IsLoaded (K.told keeper.old) rows (K.told keeper.new)
        × SessionRun (H.files shelf.old) rows (kept_by (K.told keeper.new) (K.faults keeper.old) (K.faults keeper.new)) (tally_of (H.faults shelf.old) (H.faults shelf.new) (K.faults keeper.old) (K.faults keeper.new) times times) (text_of facts.entry)
        (S.left input.old) (S.left input.new) (W.written output.old) (W.written output.new) result }
    ensures own { IsOfSession result }
    ensures within { (bytes : List ℕ) → S.left input.old ≡ Some bytes → IsWithin bytes
        → result ≢ Status.SessionTooLong }
    ensures input { PassesSource (result ≡ Status.ReadFault) (MayHide Status.ReadFault result) (S.left input.old) (S.left input.new) (S.faults input.old) (S.faults input.new) }
    ensures output { PassesSink (result ≡ Status.WriteFault) (result ≡ Status.WriteFault) (W.written output.old) (W.written output.new)
        (W.flushed output.old) (W.flushed output.new) (W.faults output.old) (W.faults output.new) }
    ensures shelf { PassesShelf (result ≡ Status.ShelfFault) (IsSome (text_of facts.entry) × MayHide Status.ShelfFault result) (H.files shelf.old) (H.files shelf.new) (H.faults shelf.old) (H.faults shelf.new) }
    ensures keeper { Counts (result ≡ Status.KeeperFault) ⊤ (K.faults keeper.old) (K.faults keeper.new) }
{
    a_run_begins_or_not();
    match open_desk(alloc, facts, shelf, keeper) {
        Err(why) => conclude(output, unopened(why)),
        Ok(mut desk) => {
            let ended = over_desk(alloc, &mut desk, input, output, keeper);
            drop(desk);
            ended
        }
    }
}

/// Answers the lines of the input by a desk that is lent.
fn over_desk<S: Source, W: Sink, K: Keeper>(
    alloc: Global,
    desk: &mut Desk,
    input: &mut S,
    output: &mut W,
    keeper: &mut K,
) -> Status
    requires mirrors { Mirrors (K.told keeper.old) (tables desk.old) }
    ensures ends { (o : Opening) → Stands desk.old o [] → SessionEnds (kept_by (K.told keeper.new) (K.faults keeper.old) (K.faults keeper.new)) o begun (S.left input.old) (S.left input.new)
        (W.written output.old) (W.written output.new) result }
    ensures keeps { Keeps (K.told keeper.old) (K.told keeper.new) (K.faults keeper.old) (K.faults keeper.new) }
    ensures within { (bytes : List ℕ) → S.left input.old ≡ Some bytes → IsWithin bytes
        → result ≢ Status.SessionTooLong }
    ensures input { PassesSource (result ≡ Status.ReadFault) (MayHide Status.ReadFault result) (S.left input.old) (S.left input.new) (S.faults input.old) (S.faults input.new) }
    ensures output { PassesSink (result ≡ Status.WriteFault) (result ≡ Status.WriteFault) (W.written output.old) (W.written output.new)
        (W.flushed output.old) (W.flushed output.new) (W.faults output.old) (W.faults output.new) }
{
    match session_lines(alloc, desk, keeper, input, output) {
        Ended::Fine => Status::Fine,
        Ended::WriteFault => Status::WriteFault,
        Ended::OutOfMemory => Status::OutOfMemory,
        Ended::ReadFault => end_with(output, b"fault ReadFault\n", Status::ReadFault),
        Ended::TooLong => end_with(output, b"fault SessionTooLong\n", Status::SessionTooLong),
    }
}
