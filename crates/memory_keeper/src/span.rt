//! Where in a list of rules the selected ones stand.

ghost use Rattle.std.specs.Prelude.{◌≡◌, ◌≤◌, length, pos, int_lt, true, false};
ghost use Rattle.std.specs.List.Sorted.{IsPartitionPoint};
ghost use Rattle.policy_model.specs.Contents as model;
ghost use Rattle.policy_model.specs.Contents.{by_id};
ghost use Rattle.rule_values.specs.Selector.{selector_of};
ghost use Rattle.raw_tables.specs.Raw.{plain_rules};
ghost use Rattle.memory_keeper.specs.Spans.{AreRising, IsSpan};
ghost use Rattle.memory_keeper.specs.Marks.{AreMarks};

use crate::held_rule::HeldRule;
use crate::rules::stored_id;
use list_marks::{Span, mark_of, marked_span};
use rule_values::{RuleId, Selector, Which};

/// A span outside of which no rule is selected: a number is searched for by halves, a label among the marks.
pub(crate) fn span_of(rules: &[HeldRule], marks: &[u32], selector: &Selector) -> Span
    requires rising { ∥ AreRising (plain_rules rules.now) ∥₁ }
    requires marked { AreMarks (plain_rules rules.now) marks.now }
    ensures { IsSpan (selector_of selector.now) (plain_rules rules.now) result }
{
    match &selector.which {
        Which::Id(id) => span_of_id(rules, *id),
        Which::Label(label) => marked_span(marks, mark_of(label.as_slice())),
    }
}

fn span_of_id(rules: &[HeldRule], id: RuleId) -> Span
    requires { ∥ AreRising (plain_rules rules.now) ∥₁ }
    ensures { (selector : model.Selector) → selector.which ≡ by_id id → IsSpan selector (plain_rules rules.now) result }
{
    let from = place_of(rules, id);
    if from < rules.len() {
        Span { from, to: from + 1 }
    } else {
        Span { from, to: from }
    }
}

/// The first place whose rule has this number or a greater one.
fn place_of(rules: &[HeldRule], id: RuleId) -> usize
    requires { ∥ AreRising (plain_rules rules.now) ∥₁ }
    ensures within { result ≤ length rules.now }
    ensures place { IsPartitionPoint (λ r. int_lt r.id (pos id) ≡ true) (λ r. int_lt r.id (pos id) ≡ false) rules.now result }
{
    let id = stored_id(id);
    rules.partition_point(|rule| rule.get().id < id)
}
