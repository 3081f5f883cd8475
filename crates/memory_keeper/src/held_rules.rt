//! Stored rules in memory, where those of a number or of a label are found without a look at the others.

ghost use Rattle.std.specs.Prelude.{◌≡◌};

use crate::changes::change_rules;
use crate::held_rule::HeldRule;
use list_marks::mark_of;
use raw_tables::{RawRule, RawRules};
use rule_values::{RowChange, Selector};
use std::alloc::{AllocError, Global};
use std::marker::Model;

/// Stored rules in the order of their numbers.
#[derive(Drop)]
pub(crate) struct HeldRules {
    rules: Vec<HeldRule>,
    /// The mark of each rule's label.
    marks: Vec<u32>,
}

impl Model for HeldRules {
    ghost use Rattle.std.specs.Prelude.{List};
    ghost use Rattle.raw_tables.specs.declared.rule.RawRule.{RawRule};
    ghost use Rattle.raw_tables.specs.Raw.{plain_rules};
    ghost use Rattle.memory_keeper.specs.Marks.{AreMarks};

    ghost Value = { List RawRule };

    ghost view = { λ h. h.rules.items };

    ghost invariant = { λ h. AreMarks (plain_rules h.rules.items) h.marks.items };
}

impl HeldRules {
    ghost use Rattle.std.specs.Prelude.{ℕ, [], ◌∷◌, ◌++◌, All, IfOk, OnOk, OnErr};
    ghost use Rattle.store_model.specs.Change.{raw_rules_after};
    ghost use Rattle.rule_values.specs.Selector.{content_by};
    ghost use Rattle.raw_tables.specs.Raw.{plain_rules};
    ghost use Rattle.memory_keeper.specs.Changes.{CanBeDisabled};
    ghost use Rattle.memory_keeper.specs.Spans.{AreRising};

    /// No rule.
    pub(crate) fn new(alloc: Global) -> HeldRules
        ensures { result ≡ [] }
    {
        HeldRules {
            rules: Vec::new(alloc),
            marks: Vec::new(alloc),
        }
    }

    /// Copies of these rules.
    pub(crate) fn of(alloc: Global, rules: &[RawRule]) -> Result<HeldRules, AllocError>
        ensures { IfOk result (λ held. held ≡ rules.now) }
    {
        let mut held = HeldRules::new(alloc);
        for rule in rules {
            let rule = rule.clone()?;
            held.push(alloc, rule)?;
        }
        Ok(held)
    }

    /// Copies of the rules.
    pub(crate) fn copied(&self, alloc: Global) -> Result<RawRules, AllocError>
        ensures { IfOk result (λ copy. copy ≡ self.now) }
    {
        let mut copy = RawRules::new(alloc);
        for rule in &self.rules {
            let rule = rule.get().clone()?;
            copy.push(rule)?;
        }
        Ok(copy)
    }

    /// Adds a rule behind all others; where there is no memory, the rules are as before.
    pub(crate) fn push(&mut self, alloc: Global, rule: RawRule) -> Result<(), AllocError>
        ensures ok { OnOk result (self.new ≡ self.old ++ rule ∷ []) }
        ensures err { OnErr result (self.new ≡ self.old) }
    {
        let mark = mark_of(rule.label.as_slice());
        let rule = HeldRule::new(alloc, rule)?;
        self.marks.reserve(1)?;
        self.rules.push(rule)?;
        self.marks.push_reserved(mark);
        Ok(())
    }

    /// Changes the selected rules, or takes them out.
    pub(crate) fn change(&mut self, selector: &Selector, change: &RowChange)
        requires counted { ∥ All CanBeDisabled (plain_rules self.old) ∥₁ }
        requires rising { ∥ AreRising (plain_rules self.old) ∥₁ }
        ensures { (n : ℕ) → plain_rules self.new ≡ raw_rules_after n (content_by selector.now change.now) (plain_rules self.old) }
    {
        change_rules(&mut self.rules, &mut self.marks, selector, change)
    }
}
