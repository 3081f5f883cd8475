//! An accepted edit on its way into a keeper.

ghost use Rattle.std.specs.Prelude.{◌≡◌, IfOk};
ghost use Rattle.policy_model.specs.Changes as model;
ghost use Rattle.store_model.specs.Stored as stored;
ghost use Rattle.rule_values.specs.Kind.{kind_of};
ghost use Rattle.rule_edits.specs.Edit.{new_row};
ghost use Rattle.raw_tables.specs.Raw.{plain_receipt, plain_rule};

use line_text::Bytes;
use raw_tables::{RawReceipt, RawRule};
use rule_edits::{Edit, NewRule, content_text};
use rule_values::{Kind, Moment};
use std::alloc::{AllocError, Global};

/// An accepted edit, its number, and how many rules it touches.
#[derive(Drop)]
pub struct Change {
    pub number: u32,
    pub edit: Edit,
    pub touched: u32,
}

impl Change {
    ghost use Rattle.store_model.specs.Change.{raw_receipt_of};
    ghost use Rattle.policy_keeper.specs.Change.{change_of};

    /// The row in which its receipt is stored.
    pub fn receipt(&self, alloc: Global) -> Result<RawReceipt, AllocError>
        ensures { IfOk result (λ row. plain_receipt row ≡ raw_receipt_of (change_of self.now)) }
    {
        let key = Bytes::copy_of(alloc, self.edit.key.as_slice())?;
        let content = content_text(alloc, &self.edit.content)?;
        Ok(RawReceipt {
            num: self.number as i64,
            key,
            content,
            rules: self.touched as i64,
        })
    }
}

/// The row in which a new rule of this number is stored.
pub fn added_rule(alloc: Global, number: u32, rule: &NewRule) -> Result<RawRule, AllocError>
    ensures { IfOk result (λ row. plain_rule row ≡ stored.raw_rule (model.added_row number (new_row rule.now))) }
{
    let label = Bytes::copy_of(alloc, rule.label.as_slice())?;
    let requirement = Bytes::copy_of(alloc, rule.text.as_slice())?;
    Ok(RawRule {
        id: number as i64,
        kind: kind_number(rule.kind),
        allow: rule.allow as i64,
        disabled: 0,
        expires: expiry_number(rule.expires),
        priority: rule.priority.get(),
        flags: flags_number(rule.is_default, rule.inhibit),
        label,
        requirement,
    })
}

/// The number by which a kind is stored.
pub fn kind_number(kind: Kind) -> i64
    ensures { result ≡ stored.kind_number (kind_of kind) }
{
    match kind {
        Kind::Execute => 1,
        Kind::Install => 2,
        Kind::Document => 3,
    }
}

ghost use Rattle.std.specs.Prelude.{option_map, pos};

/// The number by which an end is stored.
pub fn expiry_number(expires: Option<Moment>) -> Option<i64>
    ensures { result ≡ option_map pos expires }
{
    match expires {
        None => None,
        Some(moment) => Some(moment.get() as i64),
    }
}

fn flags_number(is_default: bool, inhibit: bool) -> i64
    ensures { result ≡ stored.flags_number is_default inhibit }
{
    match (is_default, inhibit) {
        (true, true) => 6,
        (true, false) => 2,
        (false, true) => 4,
        (false, false) => 0,
    }
}
