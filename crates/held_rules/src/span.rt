//! Where in a list of rules the selected ones stand.

ghost use Rattle.std.specs.Prelude.{◌≡◌, ◌<◌, ◌≤◌, ◌++◌, [], ◌∷◌, length, IsTrue, true, false, nat_lt};
ghost use Rattle.std.specs.List.Sorted.{IsPartitionPoint};
ghost use Rattle.policy_model.specs.Contents as model;
ghost use Rattle.policy_model.specs.Contents.{by_id};
ghost use Rattle.rule_values.specs.Rule.{rows_of};
ghost use Rattle.rule_values.specs.Selector.{selector_of};
ghost use Rattle.held_rules.specs.Spans.{AreRising, IsSpan};
ghost use Rattle.held_rules.specs.Marks.{AreMarks};

use crate::held_rule::HeldRule;
use list_marks::{Span, mark_of, marked_span};
use rule_values::{Rule, RuleId, Selector, Which};

/// A span outside of which no rule is selected. Where the numbers of the rules rise, one is searched for by halves; a
/// label is searched for among the marks.
pub fn span_of(rules: &[HeldRule], marks: &[u32], rising: bool, selector: &Selector) -> Span
    requires rise { rising ≡ true → AreRising rules.now }
    requires marked { AreMarks (rows_of rules.now) marks.now }
    ensures { IsSpan (selector_of selector.now) (rows_of rules.now) result }
{
    match &selector.which {
        Which::Id(id) if rising => span_of_id(rules, *id),
        Which::Id(_) => Span {
            from: 0,
            to: rules.len(),
        },
        Which::Label(label) => marked_span(marks, mark_of(label.as_slice())),
    }
}

fn span_of_id(rules: &[HeldRule], id: RuleId) -> Span
    requires { AreRising rules.now }
    ensures { (selector : model.Selector) → selector.which ≡ by_id id → IsSpan selector (rows_of rules.now) result }
{
    let from = place_of(rules, id);
    if from < rules.len() {
        Span { from, to: from + 1 }
    } else {
        Span { from, to: from }
    }
}

/// The first place whose rule has this number or a greater one.
fn place_of(rules: &[HeldRule], id: RuleId) -> usize
    requires { AreRising rules.now }
    ensures within { result ≤ length rules.now }
    ensures place { IsPartitionPoint (λ r. nat_lt r.id id ≡ true) (λ r. nat_lt r.id id ≡ false) rules.now result }
{
    rules.partition_point(|rule| rule.get().id < id)
}

/// Whether the numbers of rules still rise with one more behind them.
pub fn rises_with(rules: &[HeldRule], rising: bool, rule: &Rule) -> bool
    requires { rising ≡ true → AreRising rules.now }
    ensures { result ≡ true → AreRising (rules.now ++ rule.now ∷ []) }
{
    let count = rules.len();
    if count == 0 {
        true
    } else {
        rising && rules[count - 1].get().id < rule.id
    }
}
