//! A stored rule.

ghost use Rattle.std.specs.Prelude.{◌≡◌, pos, IfOk};
ghost use Rattle.req_grammar.specs.Readings.{IsRequirementText};
ghost use Rattle.rule_values.specs.Rule.{row_of};
ghost use Rattle.policy_model.specs.declared.limits.TheConstants.{MOST_RECEIPTS};
ghost use Rattle.raw_tables.specs.Raw.{plain_receipts, plain_rule};
ghost use Rattle.store_model.specs.Accepted.{IsWithin, AcceptsReceipts, IsAdded, IsStoredRule};
ghost use Rattle.store_reading.specs.Readings.{Reads, IsRuleOf};
ghost use Rattle.store_reading.specs.Fields.{row_with};

use crate::content::adds;
use crate::fields::{Fields, read_fields};
use crate::numbers::read_count;
use crate::requirement::read_tree;
use policy_model::limits::MOST_RECEIPTS;
use raw_tables::{RawReceipt, RawRule};
use req_tree::{Bytes, SharedReq};
use rule_values::{Rule, RuleId, ShortReq};
use std::alloc::{AllocError, Global};

/// The rule of a row beside these receipts.
pub(crate) fn read_rule(
    alloc: Global,
    receipts: &[RawReceipt],
    row: &RawRule,
) -> Result<Option<Rule>, AllocError>
    requires { AcceptsReceipts (plain_receipts receipts.now) }
    ensures { IfOk result (Reads (IsStoredRule (plain_receipts receipts.now) (plain_rule row.now)) (IsRuleOf (plain_rule row.now))) }
{
    let Some(id) = read_id(receipts, row.id) else {
        return Ok(None);
    };
    let Some(fields) = read_fields(row) else {
        return Ok(None);
    };
    match read_tree(alloc, row.requirement.as_slice())? {
        None => Ok(None),
        Some(tree) => {
            let text = row.requirement.clone()?;
            Ok(Some(fields.rule(id, text, tree)))
        }
    }
}

/// The number of a rule, whose receipt is that of an add.
fn read_id(receipts: &[RawReceipt], number: i64) -> Option<RuleId>
    requires { AcceptsReceipts (plain_receipts receipts.now) }
    ensures { Reads (IsAdded (plain_receipts receipts.now) number) (λ id. pos id ≡ number) result }
{
    let count = read_count(number, MOST_RECEIPTS)?;
    let id = RuleId::of(count)?;
    let receipt = receipts.get(count as usize - 1)?;
    if adds(receipt.content.as_slice()) {
        Some(id)
    } else {
        None
    }
}

impl Fields {
    /// The rule with these fields.
    fn rule(self, id: RuleId, text: Bytes, tree: SharedReq) -> Rule
        ensures { row_of result ≡ row_with self id text tree }
    {
        Rule {
            kind: self.kind,
            allow: self.allow,
            is_default: self.flags.is_default,
            inhibit: self.flags.inhibit,
            disabled: self.disabled,
            expires: self.expires,
            short: ShortReq::of(&tree),
            id,
            priority: self.priority,
            tree,
            text,
            label: self.label,
        }
    }
}
