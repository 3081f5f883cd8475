//! A stored receipt.

ghost use Rattle.std.specs.Prelude.{◌≡◌, pos, IfOk};
ghost use Rattle.policy_model.specs.declared.limits.TheConstants.{MOST_RULES};
ghost use Rattle.raw_tables.specs.Raw.{plain_receipt};
ghost use Rattle.edit_receipts.specs.Receipts.{receipt_of};
ghost use Rattle.store_model.specs.Stored.{raw_receipt};
ghost use Rattle.store_reading.specs.Readings.{Reads, IsReceiptAt};

use crate::content::is_content;
use crate::numbers::read_count;
use edit_receipts::Receipt;
use policy_model::limits::MOST_RULES;
use raw_tables::RawReceipt;
use rule_edits::EditKey;
use std::alloc::{AllocError, Global};

/// The receipt of this number.
pub(crate) fn read_receipt(
    alloc: Global,
    number: u32,
    row: &RawReceipt,
) -> Result<Option<Receipt>, AllocError>
    ensures { IfOk result (Reads (IsReceiptAt number (plain_receipt row.now)) (λ receipt. raw_receipt (receipt_of receipt) ≡ plain_receipt row.now)) }
{
    if row.num != number as i64 {
        return Ok(None);
    }
    let Some(key) = EditKey::of(row.key.as_slice()) else {
        return Ok(None);
    };
    let Some(rules) = read_count(row.rules, MOST_RULES as u32) else {
        return Ok(None);
    };
    if !is_content(alloc, row.content.as_slice())? {
        return Ok(None);
    }
    let content = row.content.clone()?;
    Ok(Some(Receipt {
        number,
        key,
        content,
        rules,
    }))
}
