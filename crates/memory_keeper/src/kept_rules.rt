//! The rules that a keeper in memory holds.

ghost use Rattle.std.specs.Prelude.{◌≡◌, ℕ, [], ◌∷◌, ◌++◌, All, IfOk, OnOk, OnErr};
ghost use Rattle.store_model.specs.Change.{raw_rules_after};
ghost use Rattle.rule_values.specs.Selector.{content_by};
ghost use Rattle.raw_tables.specs.Raw.{plain_rules};
ghost use Rattle.memory_keeper.specs.Changes.{CanBeDisabled};
ghost use Rattle.memory_keeper.specs.Spans.{AreRising};

use crate::held_rules::HeldRules;
use raw_tables::{RawRule, RawRules};
use rule_values::{RowChange, Selector};
use std::alloc::{AllocError, Global};

/// Rules as they were given, up to the first change of some; then each in memory of its own.
#[derive(Drop)]
pub(crate) enum KeptRules {
    Given(RawRules),
    Held(HeldRules),
}

impl KeptRules {
    ghost use Rattle.memory_keeper.specs.Kept.{rules_in};

    /// Copies of the rules.
    pub(crate) fn copied(&self, alloc: Global) -> Result<RawRules, AllocError>
        ensures { IfOk result (λ copy. copy ≡ rules_in self.now) }
    {
        match self {
            KeptRules::Given(rules) => rules.copied(),
            KeptRules::Held(rules) => rules.copied(alloc),
        }
    }

    /// Adds a rule behind all others; where there is no memory, the rules are as before.
    pub(crate) fn push(&mut self, alloc: Global, rule: RawRule) -> Result<(), AllocError>
        ensures ok { OnOk result (rules_in self.new ≡ rules_in self.old ++ rule ∷ []) }
        ensures err { OnErr result (rules_in self.new ≡ rules_in self.old) }
    {
        match self {
            KeptRules::Given(rules) => rules.push(rule),
            KeptRules::Held(rules) => rules.push(alloc, rule),
        }
    }

    /// Changes the selected rules, or takes them out; where there is no memory, the rules are as before.
    pub(crate) fn change(
        &mut self,
        alloc: Global,
        selector: &Selector,
        change: &RowChange,
    ) -> Result<(), AllocError>
        requires counted { ∥ All CanBeDisabled (plain_rules (rules_in self.old)) ∥₁ }
        requires rising { ∥ AreRising (plain_rules (rules_in self.old)) ∥₁ }
        ensures ok { (n : ℕ) → OnOk result (plain_rules (rules_in self.new) ≡ raw_rules_after n (content_by selector.now change.now) (plain_rules (rules_in self.old))) }
        ensures err { OnErr result (rules_in self.new ≡ rules_in self.old) }
    {
        match self {
            KeptRules::Given(rules) => {
                let mut held = HeldRules::of(alloc, rules.as_slice())?;
                held.change(selector, change);
                *self = KeptRules::Held(held);
            }
            KeptRules::Held(rules) => rules.change(selector, change),
        }
        Ok(())
    }
}
