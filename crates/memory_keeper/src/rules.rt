//! One stored rule: whether an edit names it, and what becomes of it.

ghost use Rattle.std.specs.Prelude.{◌≡◌, pos};
ghost use Rattle.store_model.specs.Change.{raw_named_by, raw_in_kind, raw_selects};
ghost use Rattle.rule_values.specs.Kind.{kind_of};
ghost use Rattle.rule_values.specs.Selector.{which_of, selector_of};
ghost use Rattle.raw_tables.specs.Raw.{plain_rule};
ghost use Rattle.memory_keeper.specs.Changes.{CanBeDisabled, raw_changed_by};

use policy_keeper::{expiry_number, kind_number};
use raw_tables::RawRule;
use rule_values::{Kind, RowChange, RuleId, Selector, Which};

/// Changes the rule. One that is to be removed stays as it is here.
pub(crate) fn change_rule(rule: &mut RawRule, change: &RowChange)
    requires { CanBeDisabled (plain_rule rule.old) }
    ensures { plain_rule rule.new ≡ raw_changed_by change.now (plain_rule rule.old) }
{
    match change {
        RowChange::Remove => {}
        RowChange::Enable => rule.disabled = 0,
        RowChange::Disable => rule.disabled += 1,
        RowChange::Expire(end) => rule.expires = expiry_number(*end),
    }
}

/// Whether the rule is one of those that a selector names.
pub(crate) fn is_selected(rule: &RawRule, selector: &Selector) -> bool
    ensures { result ≡ raw_selects (selector_of selector.now) (plain_rule rule.now) }
{
    is_named(rule, &selector.which) && is_in_kind(rule, selector.kind)
}

fn is_named(rule: &RawRule, which: &Which) -> bool
    ensures { result ≡ raw_named_by (which_of which.now) (plain_rule rule.now) }
{
    match which {
        Which::Id(id) => rule.id == stored_id(*id),
        Which::Label(label) => rule.label.as_slice() == label.as_slice(),
    }
}

/// The number of a rule as it is stored.
pub(crate) fn stored_id(id: RuleId) -> i64
    ensures { result ≡ pos id }
{
    id.get() as i64
}

ghost use Rattle.std.specs.Prelude.{option_map};

fn is_in_kind(rule: &RawRule, kind: Option<Kind>) -> bool
    ensures { result ≡ raw_in_kind (option_map kind_of kind) (plain_rule rule.now) }
{
    match kind {
        None => true,
        Some(kind) => rule.kind == kind_number(kind),
    }
}
