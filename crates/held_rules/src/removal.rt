//! Rules that are taken out, and their marks.

ghost use Rattle.std.specs.Prelude.{◌≡◌, ◌≤◌, ◌+◌, [], length, take, not, vec_capacity};
ghost use Rattle.std.specs.List.{filter};
ghost use Rattle.policy_model.specs.Changes.{selects};
ghost use Rattle.rule_values.specs.Rule.{rows_of};
ghost use Rattle.rule_values.specs.Selector.{selector_of};
ghost use Rattle.held_rules.specs.Spans.{IsSpan};
ghost use Rattle.held_rules.specs.Marks.{AreMarks};

use crate::held_rule::HeldRule;
use list_marks::Span;
use rule_values::Selector;

/// Takes the selected rules out; none is outside of the span.
pub(crate) fn remove(
    rules: &mut Vec<HeldRule>,
    marks: &mut Vec<u32>,
    span: Span,
    selector: &Selector,
)
    requires span { IsSpan (selector_of selector.now) (rows_of rules.old.items) span }
    requires marked { AreMarks (rows_of rules.old.items) marks.old.items }
    ensures rows { rows_of rules.new.items ≡ filter (λ r. not (selects (selector_of selector.now) r)) (rows_of rules.old.items) }
    ensures fewer { length rules.new.items ≤ length rules.old.items }
    ensures held { vec_capacity rules.new ≡ vec_capacity rules.old }
    ensures marked { AreMarks (rows_of rules.new.items) marks.new.items }
    ensures marks_held { vec_capacity marks.new ≡ vec_capacity marks.old }
{
    if span.to == span.from + 1 {
        remove_at(rules, marks, span.from, selector)
    } else {
        remove_each(rules, marks, span.from, selector)
    }
}

/// Takes the rule at this place out if it is selected; no other one is.
fn remove_at(rules: &mut Vec<HeldRule>, marks: &mut Vec<u32>, at: usize, selector: &Selector)
    requires span { IsSpan (selector_of selector.now) (rows_of rules.old.items) (record { from = at; to = at + 1 }) }
    requires marked { AreMarks (rows_of rules.old.items) marks.old.items }
    ensures rows { rows_of rules.new.items ≡ filter (λ r. not (selects (selector_of selector.now) r)) (rows_of rules.old.items) }
    ensures fewer { length rules.new.items ≤ length rules.old.items }
    ensures held { vec_capacity rules.new ≡ vec_capacity rules.old }
    ensures marked { AreMarks (rows_of rules.new.items) marks.new.items }
    ensures marks_held { vec_capacity marks.new ≡ vec_capacity marks.old }
{
    if rules[at].is_selected(selector) {
        drop(rules.remove(at));
        marks.remove(at);
    }
}

/// Takes the selected rules out in one pass; none is before the first place.
fn remove_each(rules: &mut Vec<HeldRule>, marks: &mut Vec<u32>, from: usize, selector: &Selector)
    requires within { from ≤ length rules.old.items }
    requires front { filter (selects (selector_of selector.now)) (take from (rows_of rules.old.items)) ≡ [] }
    requires marked { AreMarks (rows_of rules.old.items) marks.old.items }
    ensures rows { rows_of rules.new.items ≡ filter (λ r. not (selects (selector_of selector.now) r)) (rows_of rules.old.items) }
    ensures fewer { length rules.new.items ≤ length rules.old.items }
    ensures held { vec_capacity rules.new ≡ vec_capacity rules.old }
    ensures marked { AreMarks (rows_of rules.new.items) marks.new.items }
    ensures marks_held { vec_capacity marks.new ≡ vec_capacity marks.old }
{
    let mut kept = from;
    for i in from..rules.len() {
        if !rules[i].is_selected(selector) {
            rules.swap(kept, i);
            marks.swap(kept, i);
            kept += 1;
        }
    }
    rules.truncate(kept);
    marks.truncate(kept);
}
