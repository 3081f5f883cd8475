//! The line that assesses a signature file.

ghost use Rattle.std.specs.Prelude.{◌≡◌, ◌≤◌, [], ◌∷◌, ◌++◌, ℕ, List, length, take, min, codes, IfOk, OnOk, OnErr, option_map};
ghost use Rattle.line_text.specs.LineText.{line_bytes};
ghost use Rattle.policy_model.specs.History.{ask_answer};
ghost use Rattle.policy_model.specs.ReplyTexts.{verdict_text};
ghost use Rattle.object_model.specs.Origins.{fate_of};
ghost use Rattle.object_model.specs.Tickets.{IsTicketOf, ticket_ask};
ghost use Rattle.object_cache.specs.Offered.{offered_of};
ghost use Rattle.desk_ticket.specs.Ticket.{ticket_of};
ghost use Rattle.desk_state.specs.Verdict.{verdict_of, origin_of};
ghost use Rattle.session_model.specs.Finishing.{finished_text};
ghost use Rattle.policy_model.specs.declared.limits.TheConstants.{GREATEST_MOMENT};
ghost use Rattle.policy_model.specs.History.{Event, Opening};
ghost use Rattle.policy_model.specs.History as event;
ghost use Rattle.rule_values.specs.Kind.{kind_of};
ghost use Rattle.assess.specs.Ask.{ask_of};
ghost use Rattle.object_model.specs.OfDesk.{IsTicketOfDesk};
ghost use Rattle.desk_state.specs.Stands.{plain, Stands};
ghost use Rattle.code_directory.specs.FaultText.{code_fault_text};
ghost use Rattle.assess_command.specs.Files.{code_of};
ghost use Rattle.assess_command.specs.Assessments.{Assesses, IsAnswered, Leaves, assessed_by, asked_at, at_moment};
ghost use Rattle.assess_command.specs.Assessments as spec;

use crate::files::subject_in;
use code_directory::CodeFault;
use desk_state::{Ask, Begun, Desk, Offered, Ticket, Verdict};
use line_text::LineText;
use policy_model::limits::GREATEST_MOMENT;
use rule_values::{Kind, Moment};
use std::alloc::{AllocError, Global};

/// What an assessment came to.
#[derive(Clone, Copy, Drop, PartialEq, Eq)]
pub enum Assessed {
    /// The code is accepted.
    Accepted,
    /// The code is rejected.
    Rejected,
    /// A check of the signature, a part or the code failed.
    Refused,
}

/// Assesses the code of a signature file by this desk, at these seconds of the clock: one line, without its
/// end. Out of memory, the moment alone was handed in. The signature and the code are looked at where they lie.
pub fn assess_files(
    alloc: Global,
    desk: &mut Desk,
    kind: Kind,
    signature: &[u8],
    code: Option<&[u8]>,
    now: u64,
    out: &mut LineText,
) -> Result<Assessed, AllocError>
    requires { line_bytes out.old ≡ [] }
    ensures says { (o : Opening) (h : List Event) → Stands desk.old o h
        → IfOk result (λ how. Assesses o h (kind_of kind) signature.now (code_of code.entry) now how (line_bytes out.new)) }
    ensures stands { (o : Opening) (h : List Event) → Stands desk.old o h
        → IfOk result (λ how. (after : List Event) × Leaves o h (kind_of kind) signature.now (code_of code.entry) now how after × Stands desk.new o after) }
    ensures wanting { (o : Opening) (h : List Event) → Stands desk.old o h → OnErr result (Stands desk.new o (at_moment h now)) }
    ensures room { length (line_bytes out.new) ≤ 1000 }
{
    match subject_in(signature, code) {
        Ok(subject) => {
            let ask = Ask {
                kind,
                subject,
                keep: true,
            };
            answer(alloc, desk, &ask, now, out)
        }
        Err(fault) => Ok(refuse(fault, out)),
    }
}

/// Asks the desk at this moment.
fn answer(
    alloc: Global,
    desk: &mut Desk,
    ask: &Ask,
    now: u64,
    out: &mut LineText,
) -> Result<Assessed, AllocError>
    requires { line_bytes out.old ≡ [] }
    ensures says { (o : Opening) (h : List Event) → Stands desk.old o h → IfOk result (λ how. IsAnswered o h (ask_of ask.now) now how (line_bytes out.new)) }
    ensures stands { (o : Opening) (h : List Event) → Stands desk.old o h → OnOk result (Stands desk.new o (asked_at o h (ask_of ask.now) now)) }
    ensures wanting { (o : Opening) (h : List Event) → Stands desk.old o h → OnErr result (Stands desk.new o (at_moment h now)) }
    ensures room { length (line_bytes out.new) ≤ 1000 }
{
    desk.tick(moment_at(now));
    match desk.begin(alloc, ask)? {
        Begun::Known(verdict) => Ok(said(&verdict, None, out)),
        Begun::Pending(ticket) => Ok(finish(desk, ticket, out)),
    }
}

/// Finishes an assessment with what its ticket judges.
fn finish(desk: &mut Desk, ticket: Ticket, out: &mut LineText) -> Assessed
    requires text { line_bytes out.old ≡ [] }
    requires of_desk { IsTicketOfDesk (plain desk.old) (ticket_of ticket) }
    ensures room { length (line_bytes out.new) ≤ 1000 }
    ensures finished { (o : Opening) (h : List Event) (k : ℕ) → Stands desk.old o h → IsTicketOf (ticket_of ticket) o h k
        → (result ≡ assessed_by (ask_answer o (take k h) (ticket_ask (ticket_of ticket))).allow)
        × (line_bytes out.new ≡ finished_text o h k (ticket_ask (ticket_of ticket))) }
    ensures stands { (o : Opening) (h : List Event) (k : ℕ) → Stands desk.old o h → IsTicketOf (ticket_of ticket) o h k → Stands desk.new o (h ++ event.offer k ∷ []) }
{
    let outcome = ticket.judge();
    let finished = desk.finish(ticket, outcome);
    said(&finished.verdict, Some(finished.offered), out)
}

/// Writes a verdict's line, with what became of its outcome.
fn said(verdict: &Verdict, offered: Option<Offered>, out: &mut LineText) -> Assessed
    requires { line_bytes out.old ≡ [] }
    ensures how { result ≡ assessed_by (verdict_of verdict.now).allow }
    ensures text { line_bytes out.new ≡ verdict_text (verdict_of verdict.now) (origin_of verdict.now.origin) (fate_of (option_map offered_of offered)) }
    ensures room { length (line_bytes out.new) ≤ 1000 }
{
    verdict.line_into(offered, out);
    if verdict.allow {
        Assessed::Accepted
    } else {
        Assessed::Rejected
    }
}

fn refuse(fault: CodeFault, out: &mut LineText) -> Assessed
    requires { line_bytes out.old ≡ [] }
    ensures refused { result ≡ Assessed.Refused }
    ensures says { line_bytes out.new ≡ codes "refused code " ++ code_fault_text fault }
    ensures room { length (line_bytes out.new) ≤ 1000 }
{
    out.push_all(b"refused code ");
    fault.line_into(out);
    Assessed::Refused
}

/// The moment of a clock's seconds: a greater one counts as the greatest.
fn moment_at(seconds: u64) -> Moment
    ensures { result ≡ spec.moment_at seconds }
{
    match Moment::of(seconds.min(GREATEST_MOMENT)) {
        Some(moment) => moment,
        None => unreachable!(),
    }
}
