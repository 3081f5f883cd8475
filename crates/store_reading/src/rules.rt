//! The stored rules, one after the other.

ghost use Rattle.std.specs.Prelude.{◌≡◌, ◌<ℤ◌, ◌↔◌, [], ◌∷◌, ◌++◌, All, IsTrue, IfOk, IfErr};
ghost use Rattle.raw_tables.specs.Raw.{plain_receipts, plain_rule, plain_rules};
ghost use Rattle.store_model.specs.Accepted.{AcceptsReceipts, AcceptsRules};
ghost use Rattle.store_model.specs.Raw as model;
ghost use Rattle.store_reading.specs.Readings.{Reads, HoldsRules, IsRuleOf, AreRising};
ghost use Rattle.store_reading.specs.Fault.{IsBadRule};
ghost use Rattle.store_reading.specs.declared.fault.StoreRow.TheVariants as code;
ghost use Rattle.store_reading.specs.declared.fault.StoreFault.TheVariants.{BadStore};

use crate::fault::{StoreFault, StoreRow};
use crate::rule::read_rule;
use authority_table::Table;
use policy_model::limits::MOST_RULES;
use raw_tables::{RawReceipt, RawRule};
use rule_values::Rule;
use std::alloc::{AllocError, Global};

/// The rules that are stored in these rows beside these receipts.
pub(crate) fn read_rules(
    alloc: Global,
    receipts: &[RawReceipt],
    rows: &[RawRule],
) -> Result<Table, StoreFault>
    requires { AcceptsReceipts (plain_receipts receipts.now) }
    ensures read { IfOk result (HoldsRules (plain_receipts receipts.now) (plain_rules rows.now)) }
    ensures refused { IfErr result (IsBadRule (plain_receipts receipts.now) (plain_rules rows.now)) }
{
    let mut table = Table::new(alloc);
    for (at, row) in rows.iter().enumerate() {
        match next_rule(alloc, receipts, &rows[..at], row)? {
            None => return Err(refused(row)),
            Some(rule) => table.push(rule)?,
        }
    }
    Ok(table)
}

/// The rule of the row behind these rows.
fn next_rule(
    alloc: Global,
    receipts: &[RawReceipt],
    before: &[RawRule],
    row: &RawRule,
) -> Result<Option<Rule>, AllocError>
    requires receipts { AcceptsReceipts (plain_receipts receipts.now) }
    requires before { AcceptsRules (plain_receipts receipts.now) (plain_rules before.now) }
    ensures { IfOk result (Reads (AcceptsRules (plain_receipts receipts.now) (plain_rules before.now ++ plain_rule row.now ∷ [])) (IsRuleOf (plain_rule row.now))) }
{
    if before.len() >= MOST_RULES {
        return Ok(None);
    }
    if !is_above(before, row) {
        return Ok(None);
    }
    read_rule(alloc, receipts, row)
}

/// Whether a row's number is above those of the rows before it, whose numbers rise.
fn is_above(before: &[RawRule], row: &RawRule) -> bool
    requires { AreRising (plain_rules before.now) }
    ensures { IsTrue result ↔ All (λ (other : model.RawRule). other.id <ℤ row.now.id) (plain_rules before.now) }
{
    match before.last() {
        None => true,
        Some(last) => is_below(last, row),
    }
}

fn is_below(one: &RawRule, other: &RawRule) -> bool
    ensures { IsTrue result ↔ (one.now.id <ℤ other.now.id) }
{
    one.id < other.id
}

/// That the rule of this row is bad.
fn refused(row: &RawRule) -> StoreFault
    ensures { result ≡ BadStore (code.Rule row.now.id) }
{
    StoreFault::BadStore(StoreRow::Rule { id: row.id })
}
