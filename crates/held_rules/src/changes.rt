//! Changes of the rules in place.

ghost use Rattle.std.specs.Prelude.{◌≡◌, ◌≢◌, ◌≤◌, ◌<◌, ◌+◌, [], ◌∷◌, ◌++◌, length, not, vec_capacity, None, true, if◌then◌else◌};
ghost use Rattle.std.specs.List.{filter};
ghost use Rattle.policy_model.specs.Changes as model;
ghost use Rattle.policy_model.specs.Changes.{selects};
ghost use Rattle.policy_model.specs.Refusals.{full_rows, least_id};
ghost use Rattle.held_rules.specs.Rooms.{room_for};
ghost use Rattle.rule_values.specs.Rule.{row_of, rows_of};
ghost use Rattle.rule_values.specs.Selector.{selector_of, content_by};
ghost use Rattle.rule_values.specs.Changes.{changed_by};
ghost use Rattle.held_rules.specs.Spare.{IsSpare};
ghost use Rattle.held_rules.specs.Spans.{AreRising, IsSpan};
ghost use Rattle.held_rules.specs.Marks.{AreMarks};
ghost use Rattle.rule_values.specs.declared.row_change.RowChange.TheVariants.{Remove};
ghost use Rattle.policy_model.specs.declared.limits.TheConstants.{MOST_RULES};

use crate::held_rule::HeldRule;
use crate::removal::remove;
use crate::rooms;
use crate::span::span_of;
use list_marks::Span;
use rule_values::{RowChange, Selector};

/// Adds one behind all others; where the memory of the list is used up, it moves into the room.
pub fn insert<T: Drop>(list: &mut Vec<T>, item: T, room: Vec<T>)
    requires few { length list.old.items < MOST_RULES }
    requires held { room_for (length list.old.items) ≤ vec_capacity list.old }
    requires room { IsSpare (length list.old.items) room }
    ensures items { list.new.items ≡ list.old.items ++ item ∷ [] }
    ensures held { room_for (length list.new.items) ≤ vec_capacity list.new }
{
    move_if_full(list, room);
    list.push_reserved(item);
}

/// Moves the list into the room where it has no memory for one more.
fn move_if_full<T: Drop>(list: &mut Vec<T>, room: Vec<T>)
    requires few { length list.old.items < MOST_RULES }
    requires held { room_for (length list.old.items) ≤ vec_capacity list.old }
    requires room { IsSpare (length list.old.items) room }
    ensures items { list.new.items ≡ list.old.items }
    ensures held { room_for (length list.new.items + 1) ≤ vec_capacity list.new }
{
    if list.capacity() < rooms::room_for(list.len() + 1) {
        let mut room = room;
        let _ = room.append(list);
        *list = room;
    }
}

/// Changes the selected rules, or takes them out.
pub fn change(
    rules: &mut Vec<HeldRule>,
    marks: &mut Vec<u32>,
    rising: bool,
    selector: &Selector,
    change: &RowChange,
)
    requires rise { rising ≡ true → AreRising rules.old.items }
    requires marked { AreMarks (rows_of rules.old.items) marks.old.items }
    requires room { length rules.old.items ≤ vec_capacity marks.old }
    requires counts { least_id (full_rows (content_by selector.now change.now) (rows_of rules.old.items)) ≡ None }
    ensures rows { rows_of rules.new.items ≡ model.rows_after 0 (content_by selector.now change.now) (rows_of rules.old.items) }
    ensures fewer { length rules.new.items ≤ length rules.old.items }
    ensures held { vec_capacity rules.new ≡ vec_capacity rules.old }
    ensures marked { AreMarks (rows_of rules.new.items) marks.new.items }
    ensures marks_held { vec_capacity marks.new ≡ vec_capacity marks.old }
{
    let span = span_of(rules, marks, rising, selector);
    match change {
        RowChange::Remove => remove(rules, marks, span, selector),
        _ => change_in_place(rules, span, selector, change),
    }
}

/// Changes the selected rules where they are.
fn change_in_place(rules: &mut Vec<HeldRule>, span: Span, selector: &Selector, change: &RowChange)
    requires span { IsSpan (selector_of selector.now) (rows_of rules.old.items) span }
    requires counts { least_id (full_rows (content_by selector.now change.now) (rows_of rules.old.items)) ≡ None }
    requires stays { change.now ≢ Remove }
    ensures rows { rows_of rules.new.items ≡ model.rows_after 0 (content_by selector.now change.now) (rows_of rules.old.items) }
    ensures fewer { length rules.new.items ≤ length rules.old.items }
    ensures held { vec_capacity rules.new ≡ vec_capacity rules.old }
{
    change_each(rules, span, selector, change)
}

fn change_each(rules: &mut [HeldRule], span: Span, selector: &Selector, change: &RowChange)
    requires span { IsSpan (selector_of selector.now) (rows_of rules.old) span }
    requires counts { least_id (full_rows (content_by selector.now change.now) (rows_of rules.old)) ≡ None }
    ensures { rows_of rules.new ≡ model.change (selects (selector_of selector.now)) (changed_by change.now) (rows_of rules.old) }
{
    for i in span.from..span.to {
        change_selected(&mut rules[i], selector, change);
    }
}

/// Changes the rule if it is selected.
fn change_selected(rule: &mut HeldRule, selector: &Selector, change: &RowChange)
    requires { least_id (full_rows (content_by selector.now change.now) (row_of rule.old ∷ [])) ≡ None }
    ensures { row_of rule.new ≡ if selects (selector_of selector.now) (row_of rule.old) then changed_by change.now (row_of rule.old) else row_of rule.old }
{
    if rule.is_selected(selector) {
        rule.change(change);
    }
}
