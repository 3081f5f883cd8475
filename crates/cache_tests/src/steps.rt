//! Steps on a cache, and what each is to come to.
use object_cache::{Entry, Objects, Offered};
use req_tree::{Hash20, Identifier, Subject};
use rule_values::{Kind, Label, Moment, Outcome, Priority, Rank, RuleId};

/// What was decided: by a rule, until a moment or for good; or by none.
#[derive(Clone, Copy, Drop)]
pub enum Decided {
    Rule(i64, u32, Option<u64>),
    RuleThatInhibits(i64, u32),
    Default(u64),
}

/// Something that is done to a cache.
#[derive(Clone, Copy, Drop)]
pub enum Step {
    /// Of a kind and an identifier, decided at a mark, offered at a moment by one who may forbid keeping.
    Offer(Kind, &'static [u8], Decided, u64, u64, bool, Offered),
    /// Whether there is an entry at a moment.
    Find(Kind, &'static [u8], u64, bool),
    /// An edit touched a kind; of the ranks that it touched this is the first.
    Purge(Kind, i64, u32),
    /// How many entries there are at a moment.
    Live(u64, u32),
    /// How many edits have touched a kind.
    Mark(Kind, u64),
}

fn rank(priority: i64, id: u32) -> Option<Rank> {
    let priority = Priority::of(priority)?;
    let id = RuleId::of(id)?;
    Some(Rank { priority, id })
}

fn subject(identifier: &[u8]) -> Option<Subject> {
    let identifier = Identifier::of(identifier)?;
    Some(Subject {
        cdhash: Hash20 { bytes: [17; 20] },
        identifier,
        platform: 0,
    })
}

fn by_rule(rank: Rank, until: Option<Moment>, inhibit: bool) -> Outcome {
    Outcome::Governed {
        rank,
        allow: true,
        label: Label::empty(),
        until,
        inhibit,
    }
}

fn outcome(decided: Decided) -> Option<Outcome> {
    match decided {
        Decided::Rule(priority, id, None) => Some(by_rule(rank(priority, id)?, None, false)),
        Decided::Rule(priority, id, Some(end)) => {
            let end = Moment::of(end)?;
            Some(by_rule(rank(priority, id)?, Some(end), false))
        }
        Decided::RuleThatInhibits(priority, id) => {
            Some(by_rule(rank(priority, id)?, None, true))
        }
        Decided::Default(until) => Some(Outcome::Default {
            latent: None,
            label: Label::empty(),
            until,
        }),
    }
}

fn entry(kind: Kind, identifier: &[u8], decided: Decided) -> Option<Entry> {
    let subject = subject(identifier)?;
    let outcome = outcome(decided)?;
    Some(Entry {
        kind,
        subject,
        outcome,
    })
}

/// Whether the step comes to what it is to come to; `None` where a number is past its limit.
pub fn takes(objects: &mut Objects, step: &Step) -> Option<bool> {
    match *step {
        Step::Offer(kind, identifier, decided, since, now, inhibit, wanted) => {
            let entry = entry(kind, identifier, decided)?;
            let now = Moment::of(now)?;
            Some(objects.offer(&entry, since, now, inhibit) == wanted)
        }
        Step::Find(kind, identifier, now, wanted) => {
            let subject = subject(identifier)?;
            let now = Moment::of(now)?;
            Some(objects.find(kind, &subject, now).is_some() == wanted)
        }
        Step::Purge(kind, priority, id) => {
            let rank = rank(priority, id)?;
            if objects.mark(kind) < 100_000 {
                objects.purge(kind, rank);
            }
            Some(true)
        }
        Step::Live(now, wanted) => Some(objects.live(Moment::of(now)?) == wanted),
        Step::Mark(kind, wanted) => Some(objects.mark(kind) == wanted),
    }
}
