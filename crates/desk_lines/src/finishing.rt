//! An assessment that is finished: its reply, and its outcome offered to be kept.

ghost use Rattle.std.specs.Prelude.{◌≡◌, ◌≤◌, ◌++◌, [], ℕ, List, length, Some, slice_get};
ghost use Rattle.line_text.specs.LineText.{line_bytes};
ghost use Rattle.line_session.specs.declared.limits.TheConstants.{REPLY_LIMIT};
ghost use Rattle.policy_model.specs.Outcomes as policy;
ghost use Rattle.policy_model.specs.History.{Event, Opening};
ghost use Rattle.policy_model.specs.History as event;
ghost use Rattle.session_model.specs.Finishing.{finished_text, finished_history};
ghost use Rattle.object_model.specs.Tickets.{Ticket, IsTicketOf, ticket_ask};
ghost use Rattle.object_model.specs.OfDesk.{KeepsOf};
ghost use Rattle.desk_state.specs.Judged.{IsJudged, IsJudgedOfDesk, IsLookedOfDesk};
ghost use Rattle.desk_state.specs.Stands.{tables, plain, Stands};
ghost use Rattle.desk_lines.specs.Slots.{IsHeld};

use desk_state::{Desk, Judged, Looked};
use line_text::LineText;

/// Writes the reply to an assessment that is finished now.
pub fn finish(desk: &mut Desk, looked: Looked, out: &mut LineText)
    requires text { line_bytes out.old ≡ [] }
    requires of_desk { IsLookedOfDesk (plain desk.old) looked }
    ensures tables { tables desk.new ≡ tables desk.old }
    ensures of_desk { KeepsOf (plain desk.old) (plain desk.new) }
    ensures room { length (line_bytes out.new) ≤ REPLY_LIMIT }
    ensures finished { (o : Opening) (h : List Event) (k : ℕ) (a : policy.Ask)
        → Stands desk.old o h → slice_get h k ≡ Some (event.ask a) → IsHeld o h k a looked
        → (line_bytes out.new ≡ finished_text o h k a) × Stands desk.new o (finished_history o h k a) }
{
    match looked {
        Looked::Known(verdict) => {
            verdict.line_into(None, out);
        }
        Looked::Open(judged) => finish_judged(desk, judged, out),
    }
}

fn finish_judged(desk: &mut Desk, judged: Judged, out: &mut LineText)
    requires text { line_bytes out.old ≡ [] }
    requires of_desk { IsJudgedOfDesk (plain desk.old) judged }
    ensures tables { tables desk.new ≡ tables desk.old }
    ensures of_desk { KeepsOf (plain desk.old) (plain desk.new) }
    ensures room { length (line_bytes out.new) ≤ REPLY_LIMIT }
    ensures finished { (o : Opening) (h : List Event) (k : ℕ) (t : Ticket)
        → Stands desk.old o h → IsTicketOf t o h k → IsJudged judged t
        → (line_bytes out.new ≡ finished_text o h k (ticket_ask t)) × Stands desk.new o (finished_history o h k (ticket_ask t)) }
{
    let finished = desk.settle(judged);
    finished.verdict.line_into(Some(finished.offered), out);
}
