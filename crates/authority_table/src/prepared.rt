//! An edit that is ready to be made: all that can be wanting is there.

ghost use Rattle.std.specs.Prelude.{◌≡◌, option_map};
ghost use Rattle.rule_values.specs.Kind.{kind_of};
ghost use Rattle.rule_values.specs.Rank.{rank_view};

use crate::touched::Touched;
use held_rules::{HeldRule, Room};
use rule_values::{Kind, Rank, RowChange, Selector};

/// What is done to the rules.
#[derive(Drop)]
pub enum Step {
    /// A rule is added behind all others; the room is for a table whose memory is used up.
    Insert {
        rule: HeldRule,
        room: Room,
    },
    Change {
        selector: Selector,
        change: RowChange,
    },
}

/// A planned edit of a table, which `Table::commit` makes without memory.
#[derive(Drop)]
pub struct Prepared {
    pub(crate) step: Step,
    pub(crate) touched: Touched,
    pub(crate) count: u32,
}

impl Prepared {
    ghost use Rattle.authority_table.specs.Prepared.{plan_count, plan_touched};

    /// The rank of the rule that is tried first of those that the edit touches in a kind, or none where it touches
    /// none there.
    pub fn touched(&self, kind: Kind) -> Option<Rank>
        ensures { option_map rank_view result ≡ plan_touched self.now (kind_of kind) }
    {
        self.touched.first(kind)
    }

    /// How many rules it touches.
    pub fn count(&self) -> u32
        ensures { result ≡ plan_count self.now }
    {
        self.count
    }
}
