//! A rule in memory of its own.

ghost use Rattle.std.specs.Prelude.{◌≡◌};

use req_tree::Subject;
use rule_values::{RowChange, Rule, Selector, ShortReq};
use std::alloc::{AllocError, Global};
use std::marker::Model;

/// A rule of the table. To move it is to move a pointer and a byte.
#[derive(Drop)]
pub struct HeldRule {
    /// What the cdhash begins with that is the rule's requirement, if it is one: a search of many rules needn't follow
    /// the pointer to each of them.
    first: Option<u8>,
    rule: Box<Rule>,
}

impl Model for HeldRule {
    ghost use Rattle.rule_values.specs.declared.rule.Rule.{Rule};
    ghost use Rattle.rule_values.specs.contracts.rule.Rule as rule_contract;
    ghost use Rattle.rule_values.specs.Rule.{row_of};
    ghost use Rattle.held_rules.specs.FirstByte.{AsksFor};

    ghost Value = { Rule };

    ghost coded = { rule_contract.the_row.coded };

    ghost view = { λ h. h.rule.value };

    ghost invariant = { λ h. AsksFor h.first (row_of h.rule.value) };
}

impl HeldRule {
    ghost use Rattle.std.specs.Prelude.{IfOk, false};
    ghost use Rattle.req_tree.specs.Facts.{Known};
    ghost use Rattle.req_tree.specs.Meaning.{means};
    ghost use Rattle.req_tree.specs.Subject.{subject_of};
    ghost use Rattle.rule_values.specs.Rule.{row_of};
    ghost use Rattle.policy_model.specs.Changes.{selects};
    ghost use Rattle.rule_values.specs.Selector.{selector_of};
    ghost use Rattle.rule_values.specs.Changes.{changed_by, CanChange};

    /// Takes memory for a rule.
    pub fn new(alloc: Global, rule: Rule) -> Result<HeldRule, AllocError>
        ensures { IfOk result (λ held. held ≡ rule) }
    {
        let first = first_byte(&rule);
        let rule = Box::new(alloc, rule)?;
        Ok(HeldRule { first, rule })
    }

    pub fn get(&self) -> &Rule
        ensures { result.now ≡ self.now }
    {
        &self.rule
    }

    /// Whether the requirement can hold of the subject, as far as a first byte tells.
    pub fn may_hold(&self, subject: &Subject) -> bool
        ensures { result ≡ false → (known : Known) → means (row_of self.now).tree (subject_of subject.now) known ≡ false }
    {
        match self.first {
            Some(byte) => subject.cdhash.bytes[0] == byte,
            None => true,
        }
    }

    pub(crate) fn is_selected(&self, selector: &Selector) -> bool
        ensures { result ≡ selects (selector_of selector.now) (row_of self.now) }
    {
        self.rule.is_selected(selector)
    }

    /// Changes the rule in place. One that is to be removed stays as it is here.
    pub(crate) fn change(&mut self, change: &RowChange)
        requires { CanChange change.now self.old.disabled }
        ensures { row_of self.new ≡ changed_by change.now (row_of self.old) }
    {
        self.rule.change(change)
    }
}

ghost use Rattle.rule_values.specs.Rule.{row_of};
ghost use Rattle.held_rules.specs.FirstByte.{AsksFor};

/// The first byte of the cdhash that is the rule's requirement, if it is one.
fn first_byte(rule: &Rule) -> Option<u8>
    ensures { AsksFor result (row_of rule.now) }
{
    match &rule.short {
        ShortReq::CdHash(hash) => Some(hash.bytes[0]),
        _ => None,
    }
}
