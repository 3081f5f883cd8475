//! A stored rule in memory of its own.

ghost use Rattle.std.specs.Prelude.{◌≡◌};

use crate::rules::{change_rule, is_selected};
use raw_tables::RawRule;
use rule_values::{RowChange, Selector};
use std::alloc::{AllocError, Global};
use std::marker::Model;

/// A stored rule. To move it is to move a pointer.
#[derive(Drop)]
pub(crate) struct HeldRule {
    rule: Box<RawRule>,
}

impl Model for HeldRule {
    ghost use Rattle.raw_tables.specs.declared.rule.RawRule.{RawRule};

    ghost Value = { RawRule };

    ghost view = { λ h. h.rule.value };
}

impl HeldRule {
    ghost use Rattle.std.specs.Prelude.{IfOk, if◌then◌else◌};
    ghost use Rattle.store_model.specs.Change.{raw_selects};
    ghost use Rattle.rule_values.specs.Selector.{selector_of};
    ghost use Rattle.raw_tables.specs.Raw.{plain_rule};
    ghost use Rattle.memory_keeper.specs.Changes.{CanBeDisabled, raw_changed_by};

    /// Takes memory for a rule.
    pub(crate) fn new(alloc: Global, rule: RawRule) -> Result<HeldRule, AllocError>
        ensures { IfOk result (λ held. held ≡ rule) }
    {
        let rule = Box::new(alloc, rule)?;
        Ok(HeldRule { rule })
    }

    pub(crate) fn get(&self) -> &RawRule
        ensures { result.now ≡ self.now }
    {
        &self.rule
    }

    pub(crate) fn is_selected(&self, selector: &Selector) -> bool
        ensures { result ≡ raw_selects (selector_of selector.now) (plain_rule self.now) }
    {
        is_selected(&self.rule, selector)
    }

    /// Changes the rule if it is selected. One that is to be removed stays as it is here.
    pub(crate) fn change_selected(&mut self, selector: &Selector, change: &RowChange)
        requires { CanBeDisabled (plain_rule self.old) }
        ensures { plain_rule self.new ≡ if raw_selects (selector_of selector.now) (plain_rule self.old) then raw_changed_by change.now (plain_rule self.old) else plain_rule self.old }
    {
        if self.is_selected(selector) {
            change_rule(&mut self.rule, change);
        }
    }
}
