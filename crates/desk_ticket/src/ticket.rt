//! What an assessment holds from its beginning on, so that its outcome needs no desk and waits for nobody.

ghost use Rattle.std.specs.Arc.{arc_value};
ghost use Rattle.rule_values.specs.Kind.{kind_of};
ghost use Rattle.rule_values.specs.Rule.{rows_of};
ghost use Rattle.authority_table.specs.Snapshot.{IsByRank};
ghost use Rattle.assess.specs.Tests.{AllOfKind};
ghost use Rattle.desk_ticket.specs.Once.{of_kind_once, ranked_once};

use assess::judge;
use authority_table::Rules;
use code_facts::FactTable;
use object_cache::Entry;
use req_tree::Subject;
use rule_values::{Kind, Moment, Outcome};
use std::sync::Arc;

/// The rules, the facts, the switch and the moment of a desk, as an assessment of some code began.
#[derive(Drop)]
pub struct Ticket {
    /// What was known of code.
    facts: Arc<FactTable>,
    kind: Kind,
    subject: Subject,
    /// Whether the outcome may be kept.
    keep: bool,
    at: Moment,
    /// Whether assessments were switched on.
    enabled: bool,
    /// How many edits had touched the kind.
    mark: u64,
    /// The rules of the kind, in the order in which they are tried.
    rules: Arc<Rules>,
    ghost of_kind: { AllOfKind (kind_of kind) (rows_of (arc_value rules)) } by { of_kind_once (kind_of kind) (rows_of (arc_value rules)) },
    ghost ranked: { IsByRank (rows_of (arc_value rules)) } by { ranked_once (rows_of (arc_value rules)) },
}

impl Ticket {
    ghost use Rattle.std.specs.Prelude.{◌≡◌};
    ghost use Rattle.req_tree.specs.Subject.{subject_of};
    ghost use Rattle.code_facts.specs.Tables.{table_facts};
    ghost use Rattle.rule_values.specs.Outcome.{outcome_of};
    ghost use Rattle.object_model.specs.Tickets.{judged};
    ghost use Rattle.object_cache.specs.Entry.{entry_of};
    ghost use Rattle.desk_ticket.specs.Ticket.{ticket_of};

    /// The ticket of an assessment that begins.
    pub fn new(
        facts: Arc<FactTable>,
        kind: Kind,
        subject: Subject,
        keep: bool,
        at: Moment,
        enabled: bool,
        mark: u64,
        rules: Arc<Rules>,
    ) -> Ticket
        requires kind { AllOfKind (kind_of kind) (rows_of (arc_value rules)) }
        requires ranked { IsByRank (rows_of (arc_value rules)) }
        ensures { ticket_of result ≡ record {
          facts = table_facts (arc_value facts);
          kind = kind_of kind;
          subject = subject_of subject;
          keep = keep;
          at = at;
          enabled = enabled;
          mark = mark;
          rows = rows_of (arc_value rules);
        } }
    {
        Ticket {
            facts,
            kind,
            subject,
            keep,
            at,
            enabled,
            mark,
            rules,
        }
    }

    /// What the rules said of the code as the assessment began.
    pub fn judge(&self) -> Outcome
        ensures { outcome_of result ≡ judged (ticket_of self.now) }
    {
        judge(
            self.rules.as_slice(),
            self.kind,
            &self.subject,
            self.at,
            self.facts.facts_of(&self.subject.cdhash),
        )
    }

    pub fn at(&self) -> Moment
        ensures { result ≡ (ticket_of self.now).at }
    {
        self.at
    }

    /// Whether assessments were switched on.
    pub fn is_enabled(&self) -> bool
        ensures { result ≡ (ticket_of self.now).enabled }
    {
        self.enabled
    }

    /// Whether the outcome may be kept.
    pub fn keeps(&self) -> bool
        ensures { result ≡ (ticket_of self.now).keep }
    {
        self.keep
    }

    /// How many edits had touched the kind.
    pub fn mark(&self) -> u64
        ensures { result ≡ (ticket_of self.now).mark }
    {
        self.mark
    }

    /// An outcome of the assessment, as it may be kept.
    pub fn entry(self, outcome: Outcome) -> Entry
        ensures { entry_of result ≡ record { kind = (ticket_of self).kind; subject = (ticket_of self).subject; outcome = outcome_of outcome } }
    {
        Entry {
            kind: self.kind,
            subject: self.subject,
            outcome,
        }
    }
}
