//! Which of two rules is tried first.

ghost use Rattle.std.specs.Prelude.{◌↔◌, IsTrue};
ghost use Rattle.policy_model.specs.Rules.{Before};

use crate::priority::Priority;
use crate::rule_id::RuleId;
use std::cmp::Ordering;

/// A rule's place among the rules.
#[derive(Clone, Copy, Drop)]
pub struct Rank {
    pub priority: Priority,
    pub id: RuleId,
}

impl Rank {
    ghost use Rattle.std.specs.Prelude.{◌≡◌};
    ghost use Rattle.rule_values.specs.Rank.{rank_view, rank_cmp};

    /// Whether a rule of this rank is tried before one of the other: the higher priority comes
    /// first, and at equal priorities the lesser number.
    pub fn before(&self, other: &Rank) -> bool
        ensures { IsTrue result ↔ Before (rank_view self.now) (rank_view other.now) }
    {
        self.priority > other.priority || (self.priority == other.priority && self.id < other.id)
    }
    /// How this rank stands to another; the lesser one is tried first.
    pub fn order(&self, other: &Rank) -> Ordering
        ensures { result ≡ rank_cmp (rank_view self.now) (rank_view other.now) }
    {
        match other.priority.get().cmp(&self.priority.get()) {
            Ordering::Equal => self.id.get().cmp(&other.id.get()),
            unequal => unequal,
        }
    }
}
