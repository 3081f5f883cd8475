//! An outcome that is kept for a kind and a subject.

ghost use Rattle.std.specs.Prelude.{◌≡◌};
ghost use Rattle.req_tree.specs.Subject.{subject_of};
ghost use Rattle.policy_model.specs.Rules as rules;
ghost use Rattle.policy_model.specs.Rules.{is_below};
ghost use Rattle.rule_values.specs.Rank.{rank_view};
ghost use Rattle.rule_values.specs.Outcome.{outcome_of};
ghost use Rattle.object_model.specs.Objects.{same_subject, inhibits, ends};
ghost use Rattle.object_model.specs.Purges.{reaches};

use req_tree::Subject;
use rule_values::{Kind, Moment, Outcome, Rank};

/// What an assessment of this kind and subject came to, before an override.
#[derive(Drop)]
pub struct Entry {
    pub kind: Kind,
    pub subject: Subject,
    pub outcome: Outcome,
}

impl Entry {
    ghost use Rattle.rule_values.specs.Kind.{kind_of};
    ghost use Rattle.object_model.specs.Objects.{is_unexpired, is_for};
    ghost use Rattle.object_model.specs.Purges.{stays_at};
    ghost use Rattle.object_cache.specs.Entry.{entry_of};

    /// The same entry, without memory.
    pub fn copied(&self) -> Entry
        ensures { entry_of result ≡ entry_of self.now }
    {
        Entry {
            kind: self.kind,
            subject: self.subject.copied(),
            outcome: copied(&self.outcome),
        }
    }

    /// Whether its end isn't reached.
    pub(crate) fn is_unexpired(&self, now: Moment) -> bool
        ensures { result ≡ is_unexpired now (entry_of self.now) }
    {
        is_before_end(now, &self.outcome)
    }

    /// Whether it answers for this kind and subject.
    pub(crate) fn is_for(&self, kind: Kind, subject: &Subject) -> bool
        ensures { result ≡ is_for (kind_of kind) (subject_of subject.now) (entry_of self.now) }
    {
        self.kind.is(kind) && is_same_subject(&self.subject, subject)
    }

    /// Whether the rule that decided it forbids keeping.
    pub(crate) fn inhibits(&self) -> bool
        ensures { result ≡ inhibits (entry_of self.now).outcome }
    {
        inhibits(&self.outcome)
    }

    /// Whether an edit leaves it that touches rules of the kind, of which this is the first rank.
    pub(crate) fn stays_at(&self, kind: Kind, first: &Rank) -> bool
        ensures { result ≡ stays_at (kind_of kind) (rank_view first.now) (entry_of self.now) }
    {
        !self.kind.is(kind) || !is_reached(&self.outcome, first)
    }
}

fn copied(outcome: &Outcome) -> Outcome
    ensures { outcome_of result ≡ outcome_of outcome.now }
{
    match outcome {
        Outcome::Governed {
            rank,
            allow,
            label,
            until,
            inhibit,
        } => Outcome::Governed {
            rank: *rank,
            allow: *allow,
            label: label.copied(),
            until: *until,
            inhibit: *inhibit,
        },
        Outcome::Default {
            latent,
            label,
            until,
        } => Outcome::Default {
            latent: *latent,
            label: label.copied(),
            until: *until,
        },
    }
}

fn is_before_end(now: Moment, outcome: &Outcome) -> bool
    ensures { result ≡ is_below now (ends (outcome_of outcome.now)) }
{
    match outcome {
        Outcome::Governed { until: None, .. } => true,
        Outcome::Governed {
            until: Some(end),
            ..
        } => now < *end,
        Outcome::Default { until, .. } => now.get() < *until,
    }
}

fn inhibits(outcome: &Outcome) -> bool
    ensures { result ≡ inhibits (outcome_of outcome.now) }
{
    match outcome {
        Outcome::Governed { inhibit, .. } => *inhibit,
        Outcome::Default { .. } => false,
    }
}

/// Whether it rests on a rule of this rank: its own rule isn't tried before that one, or no rule decided.
fn is_reached(outcome: &Outcome, first: &Rank) -> bool
    ensures { result ≡ reaches (outcome_of outcome.now) (rank_view first.now) }
{
    match outcome {
        Outcome::Governed { rank, .. } => !is_before(rank, first),
        Outcome::Default { .. } => true,
    }
}

/// Whether the rule of one rank is tried before that of the other.
pub(crate) fn is_before(one: &Rank, other: &Rank) -> bool
    ensures { result ≡ rules.is_before (rank_view one.now) (rank_view other.now) }
{
    one.before(other)
}

fn is_same_subject(one: &Subject, other: &Subject) -> bool
    ensures { result ≡ same_subject (subject_of one.now) (subject_of other.now) }
{
    let hash = one.cdhash.bytes.as_slice() == other.cdhash.bytes.as_slice();
    let identifier = one.identifier.as_slice() == other.identifier.as_slice();
    hash && identifier && one.platform == other.platform
}
