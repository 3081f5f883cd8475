//! The rows that a keeper in memory holds.

ghost use Rattle.std.specs.Prelude.{◌≡◌, ◌∷◌, ◌++◌, [], ℕ, All, IfOk, OnErr, OnOk};
ghost use Rattle.store_model.specs.Accepted.{Accepts};
ghost use Rattle.store_model.specs.Change.{raw_after, raw_rules_after};
ghost use Rattle.store_model.specs.Stored.{bool_number};
ghost use Rattle.rule_values.specs.Selector.{content_by};
ghost use Rattle.raw_tables.specs.Raw.{plain_receipt, plain_rule, plain_rules, plain_tables};
ghost use Rattle.policy_keeper.specs.Change.{change_of};
ghost use Rattle.memory_keeper.specs.Changes.{CanBeDisabled};
ghost use Rattle.memory_keeper.specs.Spans.{AreRising};

use crate::held_rules::HeldRules;
use crate::kept_rules::KeptRules;
use policy_keeper::{Change, added_rule};
use raw_tables::{RawReceipt, RawReceipts, RawRule, RawTables};
use rule_edits::Content;
use rule_values::{RowChange, Selector};
use std::alloc::{AllocError, Global};
use store_model::limits::STORE_FORMAT;

/// All that is stored.
#[derive(Drop)]
pub(crate) struct KeptRows {
    format: i64,
    switch: i64,
    receipts: RawReceipts,
    rules: KeptRules,
}

impl KeptRows {
    ghost use Rattle.memory_keeper.specs.Kept.{rules_in, kept_rows};
    ghost use Rattle.memory_keeper.specs.Memory.{no_rows};

    /// No rows; assessments are switched on.
    pub(crate) fn new(alloc: Global) -> KeptRows
        ensures { kept_rows result ≡ no_rows }
    {
        KeptRows {
            format: STORE_FORMAT,
            switch: 1,
            receipts: RawReceipts::new(alloc),
            rules: KeptRules::Held(HeldRules::new(alloc)),
        }
    }

    pub(crate) fn of(tables: RawTables) -> KeptRows
        ensures { kept_rows result ≡ plain_tables tables }
    {
        KeptRows {
            format: tables.format,
            switch: tables.switch,
            receipts: tables.receipts,
            rules: KeptRules::Given(tables.rules),
        }
    }

    pub(crate) fn copied(&self, alloc: Global) -> Result<RawTables, AllocError>
        ensures { IfOk result (λ tables. plain_tables tables ≡ kept_rows self.now) }
    {
        let receipts = self.receipts.copied()?;
        let rules = self.rules.copied(alloc)?;
        Ok(RawTables {
            format: self.format,
            switch: self.switch,
            receipts,
            rules,
        })
    }

    /// Makes a change; where there is no memory, nothing of it.
    pub(crate) fn make(&mut self, alloc: Global, change: &Change) -> Result<(), AllocError>
        requires { ∥ Accepts (kept_rows self.old) ∥₁ }
        ensures ok { OnOk result (kept_rows self.new ≡ raw_after (change_of change.now) (kept_rows self.old)) }
        ensures err { OnErr result (kept_rows self.new ≡ kept_rows self.old) }
    {
        let receipt = change.receipt(alloc)?;
        match &change.edit.content {
            Content::Add(rule) => {
                let row = added_rule(alloc, change.number, rule)?;
                self.add(alloc, receipt, row)
            }
            Content::Remove(selector) => {
                self.change(alloc, receipt, selector, RowChange::Remove)
            }
            Content::Enable(selector) => {
                self.change(alloc, receipt, selector, RowChange::Enable)
            }
            Content::Disable(selector) => {
                self.change(alloc, receipt, selector, RowChange::Disable)
            }
            Content::Expire(selector, end) => {
                self.change(alloc, receipt, selector, RowChange::Expire(*end))
            }
            Content::Switch(on) => self.switch_to(receipt, *on),
        }
    }

    /// Keeps a receipt and a rule, or neither.
    fn add(&mut self, alloc: Global, receipt: RawReceipt, rule: RawRule) -> Result<(), AllocError>
        ensures ok { OnOk result (kept_rows self.new ≡ record (kept_rows self.old) {
          receipts = (kept_rows self.old).receipts ++ plain_receipt receipt ∷ [];
          rules = (kept_rows self.old).rules ++ plain_rule rule ∷ [];
        }) }
        ensures err { OnErr result (kept_rows self.new ≡ kept_rows self.old) }
    {
        self.receipts.push(receipt)?;
        let added = self.rules.push(alloc, rule);
        if added.is_err() {
            self.receipts.pop();
        }
        added
    }

    /// Keeps a receipt and changes the selected rules, or does neither.
    fn change(
        &mut self,
        alloc: Global,
        receipt: RawReceipt,
        selector: &Selector,
        change: RowChange,
    ) -> Result<(), AllocError>
        requires counted { ∥ All CanBeDisabled (kept_rows self.old).rules ∥₁ }
        requires rising { ∥ AreRising (kept_rows self.old).rules ∥₁ }
        ensures ok { (n : ℕ) → OnOk result (kept_rows self.new ≡ record (kept_rows self.old) {
          receipts = (kept_rows self.old).receipts ++ plain_receipt receipt ∷ [];
          rules = raw_rules_after n (content_by selector.now change) (kept_rows self.old).rules;
        }) }
        ensures err { OnErr result (kept_rows self.new ≡ kept_rows self.old) }
    {
        self.receipts.push(receipt)?;
        let changed = self.rules.change(alloc, selector, &change);
        if changed.is_err() {
            self.receipts.pop();
        }
        changed
    }

    /// Keeps a receipt and switches assessments, or does neither.
    fn switch_to(&mut self, receipt: RawReceipt, on: bool) -> Result<(), AllocError>
        ensures ok { OnOk result (kept_rows self.new ≡ record (kept_rows self.old) {
          receipts = (kept_rows self.old).receipts ++ plain_receipt receipt ∷ [];
          switch = bool_number on;
        }) }
        ensures err { OnErr result (kept_rows self.new ≡ kept_rows self.old) }
    {
        self.receipts.push(receipt)?;
        self.switch = on as i64;
        Ok(())
    }
}
