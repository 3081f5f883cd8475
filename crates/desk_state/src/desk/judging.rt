//! Assessments that are judged as they begin, and are finished later.

ghost use Rattle.std.specs.Prelude.{◌≡◌, ◌++◌, ◌∷◌, [], ℕ, List, Some};
ghost use Rattle.req_tree.specs.Facts.{known_of};
ghost use Rattle.req_tree.specs.Subject.{subject_of};
ghost use Rattle.fact_values.specs.Knowledge.{known_in};
ghost use Rattle.policy_model.specs.History.{Event, Opening};
ghost use Rattle.policy_model.specs.History as event;
ghost use Rattle.rule_values.specs.Kind.{kind_of};
ghost use Rattle.object_model.specs.Tickets.{Ticket, IsTicketOf};
ghost use Rattle.object_model.specs.Stands as model;
ghost use Rattle.object_model.specs.Stands.{ticket_on};
ghost use Rattle.object_model.specs.OfDesk.{KeepsOf};
ghost use Rattle.assess.specs.Ask.{ask_of};
ghost use Rattle.desk_state.specs.Stands.{plain, tables, facts_of, Stands};
ghost use Rattle.desk_state.specs.Finished.{IsFinished, FinishesAfter};
ghost use Rattle.desk_state.specs.Judged.{IsJudged, IsJudgedOfDesk, IsLooked, IsLookedOfDesk, LooksAfter, IsSettled, settled_on};

use crate::answering::{answered, unsigned};
use crate::desk::Desk;
use crate::finished::Finished;
use crate::judged::{Judged, Looked};
use crate::verdict::Origin;
use assess::{Ask, decided_by};
use fact_values::Facts;
use object_cache::Entry;
use object_model::laws::{
    a_desk_goes_on_standing, a_desk_is_fresh, a_ticket_is_enough, what_was_judged_is_of_the_desk,
};
use policy_model::laws::one_outcome;
use req_tree::Subject;
use rule_values::{Kind, Rule};

impl Desk {
    /// Begins an assessment and judges it at once, with one look at each rule and without memory: it is answered where
    /// the code has no usable signature or an outcome is kept for it.
    pub fn judge(&self, ask: &Ask) -> Looked
        ensures looked { IsLooked (plain self.now) (ask_of ask.now) result }
        ensures of_desk { IsLookedOfDesk (plain self.now) result }

        // After any history of this desk.
        ensures after { (o : Opening) (h : List Event) → Stands self.now o h → LooksAfter o h (ask_of ask.now) result }
        ensures stands { (o : Opening) (h : List Event) → Stands self.now o h → Stands self.now o (h ++ event.ask (ask_of ask.now) ∷ []) }
    {
        a_desk_goes_on_standing();
        what_was_judged_is_of_the_desk();
        self.look(ask)
    }

    fn look(&self, ask: &Ask) -> Looked
        ensures { IsLooked (plain self.now) (ask_of ask.now) result }
    {
        match &ask.subject {
            None => Looked::Known(unsigned(self.enabled, self.moment)),
            Some(subject) => self.look_signed(ask.kind, subject, ask.keep),
        }
    }

    fn look_signed(&self, kind: Kind, subject: &Subject, keep: bool) -> Looked
        ensures { IsLooked (plain self.now) (record { kind = kind_of kind; subject = Some (subject_of subject.now); keep = keep }) result }
    {
        match self.objects.find(kind, subject, self.moment) {
            Some(entry) => Looked::Known(answered(
                self.enabled,
                self.moment,
                &entry.outcome,
                Origin::Cache,
            )),
            None => Looked::Open(self.judged(kind, subject, keep)),
        }
    }

    fn judged(&self, kind: Kind, subject: &Subject, keep: bool) -> Judged
        ensures { IsJudged result (ticket_on (plain self.now) (kind_of kind) (subject_of subject.now) keep (tables self.now).rows) }
    {
        one_outcome();
        // without a value of this type the kit's borrow checker doesn't know the rule that is found
        let rule: Option<&Rule> = None;
        let _none = rule.is_none();
        let facts = self.facts_on(subject);
        let found = self.table.find(kind, subject, facts, self.moment);
        Judged {
            kind,
            subject: subject.copied(),
            keep,
            at: self.moment,
            enabled: self.enabled,
            mark: self.objects.mark(kind),
            outcome: decided_by(&found),
        }
    }

    /// What is known of the subject's hash.
    fn facts_on(&self, subject: &Subject) -> Option<&Facts>
        ensures { known_in result ≡ known_of (facts_of self.now) (subject_of subject.now).cdhash }
    {
        self.facts.facts_of(&subject.cdhash)
    }

    /// Finishes what was judged: the verdict is as of its beginning, and its outcome is offered to be kept.
    pub fn settle(&mut self, judged: Judged) -> Finished
        requires { IsJudgedOfDesk (plain self.old) judged }
        ensures says { IsSettled (plain self.old) judged result }
        ensures makes { plain self.new ≡ settled_on judged (plain self.old) }
        ensures tables { tables self.new ≡ tables self.old }
        ensures of_desk { KeepsOf (plain self.old) (plain self.new) }

        // As the ticket is finished that judges so.
        ensures settled { (t : Ticket) → IsJudged judged t → IsFinished (plain self.old) t result }
        ensures leaves { (t : Ticket) → IsJudged judged t → plain self.new ≡ model.finished t (plain self.old) }

        // After any history of this desk that has the ask.
        ensures after { (o : Opening) (h : List Event) (k : ℕ) (t : Ticket) → Stands self.old o h → IsTicketOf t o h k → IsJudged judged t → FinishesAfter o h k t result }
        ensures stands { (o : Opening) (h : List Event) (k : ℕ) (t : Ticket) → Stands self.old o h → IsTicketOf t o h k → IsJudged judged t → Stands self.new o (h ++ event.offer k ∷ []) }
    {
        a_desk_goes_on_standing();
        a_ticket_is_enough();
        what_was_judged_is_of_the_desk();
        self.settle_now(judged)
    }

    fn settle_now(&mut self, judged: Judged) -> Finished
        requires { IsJudgedOfDesk (plain self.old) judged }
        ensures says { IsSettled (plain self.old) judged result }
        ensures makes { plain self.new ≡ settled_on judged (plain self.old) }
    {
        a_desk_is_fresh();
        let verdict = answered(judged.enabled, judged.at, &judged.outcome, Origin::Rules);
        let since = judged.mark;
        let inhibit = !judged.keep;
        let entry = entry_of(judged);
        let offered = self.objects.offer(&entry, since, self.moment, inhibit);
        Finished { verdict, offered }
    }
}

ghost use Rattle.object_cache.specs.Entry as cache;
ghost use Rattle.rule_values.specs.Outcome.{outcome_of};

/// The outcome as it may be kept.
fn entry_of(judged: Judged) -> Entry
    ensures { cache.entry_of result ≡ record { kind = kind_of judged.kind; subject = subject_of judged.subject; outcome = outcome_of judged.outcome } }
{
    Entry {
        kind: judged.kind,
        subject: judged.subject,
        outcome: judged.outcome,
    }
}
