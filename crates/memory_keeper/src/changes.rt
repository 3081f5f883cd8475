//! Changes of the selected rules, where no other one is looked at.

ghost use Rattle.std.specs.Prelude.{◌≡◌, ◌≢◌, ◌≤◌, ◌+◌, ℕ, [], length, take, not, All};
ghost use Rattle.std.specs.List.{filter};
ghost use Rattle.store_model.specs.Change.{raw_selects, raw_change, raw_rules_after};
ghost use Rattle.rule_values.specs.Selector.{selector_of, content_by};
ghost use Rattle.rule_values.specs.declared.row_change.RowChange.TheVariants.{Remove};
ghost use Rattle.raw_tables.specs.Raw.{plain_rules};
ghost use Rattle.memory_keeper.specs.Changes.{CanBeDisabled, raw_changed_by};
ghost use Rattle.memory_keeper.specs.Spans.{AreRising, IsSpan};
ghost use Rattle.memory_keeper.specs.Marks.{AreMarks};

use crate::held_rule::HeldRule;
use crate::span::span_of;
use list_marks::Span;
use rule_values::{RowChange, Selector};

/// Changes the selected rules, or takes them out.
pub(crate) fn change_rules(
    rules: &mut Vec<HeldRule>,
    marks: &mut Vec<u32>,
    selector: &Selector,
    change: &RowChange,
)
    requires counted { ∥ All CanBeDisabled (plain_rules rules.old.items) ∥₁ }
    requires rising { ∥ AreRising (plain_rules rules.old.items) ∥₁ }
    requires marked { AreMarks (plain_rules rules.old.items) marks.old.items }
    ensures rules { (n : ℕ) → plain_rules rules.new.items ≡ raw_rules_after n (content_by selector.now change.now) (plain_rules rules.old.items) }
    ensures marked { AreMarks (plain_rules rules.new.items) marks.new.items }
{
    let span = span_of(rules, marks, selector);
    match change {
        RowChange::Remove => remove(rules, marks, span, selector),
        _ => change_in_place(rules, span, selector, change),
    }
}

/// Changes the selected rules where they are.
fn change_in_place(rules: &mut Vec<HeldRule>, span: Span, selector: &Selector, change: &RowChange)
    requires counted { ∥ All CanBeDisabled (plain_rules rules.old.items) ∥₁ }
    requires span { IsSpan (selector_of selector.now) (plain_rules rules.old.items) span }
    requires stays { change.now ≢ Remove }
    ensures { (n : ℕ) → plain_rules rules.new.items ≡ raw_rules_after n (content_by selector.now change.now) (plain_rules rules.old.items) }
{
    change_each(rules, span, selector, change)
}

fn change_each(rules: &mut [HeldRule], span: Span, selector: &Selector, change: &RowChange)
    requires counted { ∥ All CanBeDisabled (plain_rules rules.old) ∥₁ }
    requires span { IsSpan (selector_of selector.now) (plain_rules rules.old) span }
    ensures { plain_rules rules.new ≡ raw_change (selector_of selector.now) (raw_changed_by change.now) (plain_rules rules.old) }
{
    for i in span.from..span.to {
        rules[i].change_selected(selector, change);
    }
}

/// Takes the selected rules out, and their marks.
fn remove(rules: &mut Vec<HeldRule>, marks: &mut Vec<u32>, span: Span, selector: &Selector)
    requires span { IsSpan (selector_of selector.now) (plain_rules rules.old.items) span }
    requires marked { AreMarks (plain_rules rules.old.items) marks.old.items }
    ensures rules { plain_rules rules.new.items ≡ filter (λ r. not (raw_selects (selector_of selector.now) r)) (plain_rules rules.old.items) }
    ensures marked { AreMarks (plain_rules rules.new.items) marks.new.items }
{
    if span.to == span.from + 1 {
        remove_at(rules, marks, span.from, selector)
    } else {
        remove_each(rules, marks, span.from, selector)
    }
}

/// Takes the rule at this place out if it is selected; no other one is.
fn remove_at(rules: &mut Vec<HeldRule>, marks: &mut Vec<u32>, at: usize, selector: &Selector)
    requires span { IsSpan (selector_of selector.now) (plain_rules rules.old.items) (record { from = at; to = at + 1 }) }
    requires marked { AreMarks (plain_rules rules.old.items) marks.old.items }
    ensures rules { plain_rules rules.new.items ≡ filter (λ r. not (raw_selects (selector_of selector.now) r)) (plain_rules rules.old.items) }
    ensures marked { AreMarks (plain_rules rules.new.items) marks.new.items }
{
    if rules[at].is_selected(selector) {
        drop(rules.remove(at));
        marks.remove(at);
    }
}

/// Takes the selected rules out in one pass; none is before the first place.
fn remove_each(rules: &mut Vec<HeldRule>, marks: &mut Vec<u32>, from: usize, selector: &Selector)
    requires within { from ≤ length rules.old.items }
    requires front { filter (raw_selects (selector_of selector.now)) (take from (plain_rules rules.old.items)) ≡ [] }
    requires marked { AreMarks (plain_rules rules.old.items) marks.old.items }
    ensures rules { plain_rules rules.new.items ≡ filter (λ r. not (raw_selects (selector_of selector.now) r)) (plain_rules rules.old.items) }
    ensures marked { AreMarks (plain_rules rules.new.items) marks.new.items }
{
    let mut kept = from;
    for i in from..rules.len() {
        if !rules[i].is_selected(selector) {
            rules.swap(kept, i);
            marks.swap(kept, i);
            kept += 1;
        }
    }
    rules.truncate(kept);
    marks.truncate(kept);
}
