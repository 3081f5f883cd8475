//! Assessments: they begin, and are finished, in any order and while edits come.

ghost use Rattle.std.specs.Prelude.{◌≡◌, ◌++◌, ◌∷◌, [], ℕ, List, Some, None, option_map, IfOk, OnErr};
ghost use Rattle.std.specs.List.{find};
ghost use Rattle.req_tree.specs.Subject.{subject_of};
ghost use Rattle.policy_model.specs.History.{Event, Opening};
ghost use Rattle.policy_model.specs.History as event;
ghost use Rattle.rule_values.specs.Kind.{kind_of};
ghost use Rattle.rule_values.specs.Outcome.{outcome_of};
ghost use Rattle.object_model.specs.Objects.{is_for};
ghost use Rattle.object_model.specs.Tickets.{IsTicketOf, judged};
ghost use Rattle.object_model.specs.Stands as model;
ghost use Rattle.object_model.specs.OfDesk.{IsTicketOfDesk, KeepsOf};
ghost use Rattle.object_cache.specs.Entry.{entry_found};
ghost use Rattle.object_cache.specs.Objects.{live_at};
ghost use Rattle.assess.specs.Ask.{ask_of};
ghost use Rattle.desk_ticket.specs.Ticket.{ticket_of};
ghost use Rattle.desk_state.specs.Stands.{plain, Stands};
ghost use Rattle.desk_state.specs.Begun.{known_on, IsBegun, IsBegunOfDesk, BeginsAfter, IsTicketOn};
ghost use Rattle.desk_state.specs.Finished.{IsFinished, FinishesAfter};

use crate::answering::{answered, unsigned};
use crate::begun::Begun;
use crate::desk::Desk;
use crate::finished::Finished;
use crate::verdict::Origin;
use assess::Ask;
use assess::laws::snapshots_judge_alike;
use desk_ticket::Ticket;
use object_model::laws::{
    a_desk_goes_on_standing, a_desk_is_fresh, a_ticket_is_enough, what_was_judged_is_of_the_desk,
};
use req_tree::Subject;
use rule_values::{Kind, Outcome};
use std::alloc::{AllocError, Global};
use std::sync::Arc;

impl Desk {
    /// Begins an assessment: it is answered at once where the code has no usable signature or an outcome is kept for
    /// it, and else a ticket holds what its rules were.
    pub fn begin(&self, alloc: Global, ask: &Ask) -> Result<Begun, AllocError>
        ensures begun { IfOk result (λ begun. IsBegun (plain self.now) (ask_of ask.now) begun) }
        ensures wanting { OnErr result (known_on (plain self.now) (ask_of ask.now).kind (ask_of ask.now).subject ≡ None) }
        ensures of_desk { IfOk result (λ begun. IsBegunOfDesk (plain self.now) begun) }

        // After any history of this desk.
        ensures after { (o : Opening) (h : List Event) → Stands self.now o h → IfOk result (λ begun. BeginsAfter o h (ask_of ask.now) begun) }
        ensures stands { (o : Opening) (h : List Event) → Stands self.now o h → Stands self.now o (h ++ event.ask (ask_of ask.now) ∷ []) }
    {
        a_desk_goes_on_standing();
        what_was_judged_is_of_the_desk();
        snapshots_judge_alike();
        match &ask.subject {
            None => Ok(Begun::Known(unsigned(self.enabled, self.moment))),
            Some(subject) => self.begin_signed(alloc, ask.kind, subject, ask.keep),
        }
    }

    fn begin_signed(
        &self,
        alloc: Global,
        kind: Kind,
        subject: &Subject,
        keep: bool,
    ) -> Result<Begun, AllocError>
        ensures begun { IfOk result (λ begun. IsBegun (plain self.now) (record { kind = kind_of kind; subject = Some (subject_of subject.now); keep = keep }) begun) }
        ensures wanting { OnErr result (known_on (plain self.now) (kind_of kind) (Some (subject_of subject.now)) ≡ None) }
    {
        match self.objects.find(kind, subject, self.moment) {
            Some(entry) => Ok(Begun::Known(answered(
                self.enabled,
                self.moment,
                &entry.outcome,
                Origin::Cache,
            ))),
            None => {
                let ticket = self.ticket(alloc, kind, subject, keep)?;
                Ok(Begun::Pending(ticket))
            }
        }
    }

    fn ticket(
        &self,
        alloc: Global,
        kind: Kind,
        subject: &Subject,
        keep: bool,
    ) -> Result<Ticket, AllocError>
        ensures { IfOk result (λ ticket. IsTicketOn (plain self.now) (record { kind = kind_of kind; subject = Some (subject_of subject.now); keep = keep }) (ticket_of ticket)) }
    {
        snapshots_judge_alike();
        let facts = Arc::try_clone(&self.facts)?;
        let rules = self.table.snapshot(alloc, kind)?;
        Ok(Ticket::new(
            facts,
            kind,
            subject.copied(),
            keep,
            self.moment,
            self.enabled,
            self.objects.mark(kind),
            rules,
        ))
    }

    /// Finishes an assessment of this desk with what its ticket judged: the verdict is as of its beginning, and its
    /// outcome is offered to be kept.
    pub fn finish(&mut self, ticket: Ticket, outcome: Outcome) -> Finished
        requires outcome { outcome_of outcome ≡ judged (ticket_of ticket) }
        requires of_desk { IsTicketOfDesk (plain self.old) (ticket_of ticket) }
        ensures finished { IsFinished (plain self.old) (ticket_of ticket) result }
        ensures leaves { plain self.new ≡ model.finished (ticket_of ticket) (plain self.old) }
        ensures of_desk { KeepsOf (plain self.old) (plain self.new) }

        // After any history of this desk that has the ticket's ask.
        ensures after { (o : Opening) (h : List Event) (k : ℕ) → Stands self.old o h → IsTicketOf (ticket_of ticket) o h k → FinishesAfter o h k (ticket_of ticket) result }
        ensures stands { (o : Opening) (h : List Event) (k : ℕ) → Stands self.old o h → IsTicketOf (ticket_of ticket) o h k → Stands self.new o (h ++ event.offer k ∷ []) }
    {
        a_desk_goes_on_standing();
        a_ticket_is_enough();
        what_was_judged_is_of_the_desk();
        self.finish_now(ticket, outcome)
    }

    fn finish_now(&mut self, ticket: Ticket, outcome: Outcome) -> Finished
        requires outcome { outcome_of outcome ≡ judged (ticket_of ticket) }
        requires of_desk { IsTicketOfDesk (plain self.old) (ticket_of ticket) }
        ensures finished { IsFinished (plain self.old) (ticket_of ticket) result }
        ensures leaves { plain self.new ≡ model.finished (ticket_of ticket) (plain self.old) }
    {
        a_desk_is_fresh();
        let verdict = answered(ticket.is_enabled(), ticket.at(), &outcome, Origin::Rules);
        let since = ticket.mark();
        let inhibit = !ticket.keeps();
        let entry = ticket.entry(outcome);
        let offered = self.objects.offer(&entry, since, self.moment, inhibit);
        Finished { verdict, offered }
    }
}
