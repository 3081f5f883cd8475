//! What an edit under a new key will change, or why it is refused.

ghost use Rattle.std.specs.Prelude.{◌≡◌, ◌<◌, length, Some, IfSome, IsSome, OnOk, IsErrOf};
ghost use Rattle.policy_model.specs.declared.limits.TheConstants.{MOST_RECEIPTS};
ghost use Rattle.policy_model.specs.Contents.{add};
ghost use Rattle.policy_model.specs.Refusals.{refusal, refused_by_rows, none_selected};
ghost use Rattle.rule_values.specs.Selector.{selector_of, content_by};
ghost use Rattle.rule_edits.specs.Edit.{content_of, new_row};
ghost use Rattle.desk_state.specs.Answer.{refusal_of, refusal_in};
ghost use Rattle.desk_state.specs.Plan.{Plans};
ghost use Rattle.desk_state.specs.Stands.{tables};

use crate::desk::Desk;
use crate::fault::EditFault;
use crate::plan::Plan;
use authority_table::Prepared;
use rule_edits::{Content, NewRule};
use rule_values::{RowChange, RuleId, Selector};
use std::alloc::Global;

impl Desk {
    /// What an edit of this content will change under a new key, or why it is refused.
    pub(super) fn plan(&self, alloc: Global, content: &Content) -> Result<Plan, EditFault>
        ensures plans { Plans result (content_of content.now) (tables self.now) }
        ensures asked { IsErrOf result EditFault.KeeperFault → ⊥ }
        ensures few { OnOk result (length (tables self.now).receipts < MOST_RECEIPTS) }
    {
        if self.receipts.is_full() {
            Err(self.refusal_when_full(content))
        } else {
            self.plan_content(alloc, content)
        }
    }

    fn plan_content(&self, alloc: Global, content: &Content) -> Result<Plan, EditFault>
        requires few { length (tables self.now).receipts < MOST_RECEIPTS }
        ensures plans { Plans result (content_of content.now) (tables self.now) }
        ensures asked { IsErrOf result EditFault.KeeperFault → ⊥ }
    {
        match content {
            Content::Add(rule) => self.plan_rule(alloc, rule),
            Content::Remove(selector) => self.plan_change(alloc, selector, RowChange::Remove),
            Content::Enable(selector) => self.plan_change(alloc, selector, RowChange::Enable),
            Content::Disable(selector) => self.plan_change(alloc, selector, RowChange::Disable),
            Content::Expire(selector, end) => {
                self.plan_change(alloc, selector, RowChange::Expire(*end))
            }
            Content::Switch(on) => Ok(Plan {
                rows: None,
                enabled: *on,
            }),
        }
    }

    /// A full table refuses before any memory is asked for.
    fn plan_rule(&self, alloc: Global, new: &NewRule) -> Result<Plan, EditFault>
        requires few { length (tables self.now).receipts < MOST_RECEIPTS }
        ensures plans { Plans result (add (new_row new.now)) (tables self.now) }
        ensures asked { IsErrOf result EditFault.KeeperFault → ⊥ }
    {
        if self.table.is_full() {
            Err(EditFault::TableFull)
        } else {
            let id = RuleId::numbered(self.receipts.count() + 1);
            let rule = new.rule(alloc, id)?;
            let rows = self.table.plan_insert(alloc, rule)?;
            Ok(self.plan_of(rows))
        }
    }

    fn plan_change(
        &self,
        alloc: Global,
        selector: &Selector,
        change: RowChange,
    ) -> Result<Plan, EditFault>
        requires few { length (tables self.now).receipts < MOST_RECEIPTS }
        ensures plans { Plans result (content_by selector.now change) (tables self.now) }
        ensures asked { IsErrOf result EditFault.KeeperFault → ⊥ }
    {
        let rows = self.table.plan_change(alloc, selector, change)?;
        Ok(self.plan_of(rows))
    }

    /// The rules are changed; assessments stay switched on or off.
    fn plan_of(&self, rows: Prepared) -> Plan
        ensures { result ≡ record { rows = Some rows; enabled = (tables self.now).enabled } }
    {
        Plan {
            rows: Some(rows),
            enabled: self.enabled,
        }
    }

    /// Why an edit is refused where as many were accepted as ever can be.
    fn refusal_when_full(&self, content: &Content) -> EditFault
        requires full { length (tables self.now).receipts ≡ MOST_RECEIPTS }
        ensures is { refusal_of result ≡ refusal (content_of content.now) (tables self.now) }
        ensures some { IsSome (refusal_of result) }
    {
        match self.refusal_by_rows(content) {
            Some(fault) => fault,
            None => EditFault::ReceiptsFull,
        }
    }

    fn refusal_by_rows(&self, content: &Content) -> Option<EditFault>
        ensures is { refusal_in result ≡ refused_by_rows (content_of content.now) (tables self.now).rows }
        ensures some { IfSome result (λ fault. IsSome (refusal_of fault)) }
    {
        match content {
            Content::Add(_) => {
                if self.table.is_full() {
                    Some(EditFault::TableFull)
                } else {
                    None
                }
            }
            Content::Remove(selector) => self.refusal_by_selector(selector),
            Content::Enable(selector) => self.refusal_by_selector(selector),
            Content::Disable(selector) => self.refusal_by_selector(selector),
            Content::Expire(selector, _) => self.refusal_by_selector(selector),
            Content::Switch(_) => None,
        }
    }

    fn refusal_by_selector(&self, selector: &Selector) -> Option<EditFault>
        ensures is { refusal_in result ≡ none_selected (selector_of selector.now) (tables self.now).rows }
        ensures some { IfSome result (λ fault. IsSome (refusal_of fault)) }
    {
        if self.table.selects(selector) {
            None
        } else {
            Some(EditFault::NoRule)
        }
    }
}
