//! The stored receipts, one after the other.

ghost use Rattle.std.specs.Prelude.{◌≡◌, [], ◌∷◌, ◌++◌, map, IfOk, IfErr};
ghost use Rattle.raw_tables.specs.Raw.{plain_receipt, plain_receipts};
ghost use Rattle.store_model.specs.Accepted.{AcceptsReceipts};
ghost use Rattle.store_reading.specs.Readings.{Reads, HoldsReceipts, raw_receipts, IsNextReceipt};
ghost use Rattle.store_reading.specs.Fault.{IsBadReceipt};
ghost use Rattle.store_reading.specs.declared.fault.StoreRow.TheVariants as code;
ghost use Rattle.store_reading.specs.declared.fault.StoreFault.TheVariants.{BadStore};

use crate::fault::{StoreFault, StoreRow};
use crate::receipt::read_receipt;
use edit_receipts::{Receipt, Receipts};
use raw_tables::RawReceipt;
use std::alloc::{AllocError, Global};

/// The receipts that are stored in these rows.
pub(crate) fn read_receipts(alloc: Global, rows: &[RawReceipt]) -> Result<Receipts, StoreFault>
    ensures read { IfOk result (HoldsReceipts (plain_receipts rows.now)) }
    ensures refused { IfErr result (IsBadReceipt (plain_receipts rows.now)) }
{
    let mut receipts = Receipts::new(alloc);
    for row in rows {
        match next_receipt(alloc, &receipts, row)? {
            None => return Err(refused(row)),
            Some(receipt) => receipts.push(receipt)?,
        }
    }
    Ok(receipts)
}

/// The receipt of the row behind the rows of these receipts.
fn next_receipt(
    alloc: Global,
    receipts: &Receipts,
    row: &RawReceipt,
) -> Result<Option<Receipt>, AllocError>
    requires { AcceptsReceipts (raw_receipts receipts.now) }
    ensures { IfOk result (Reads (AcceptsReceipts (raw_receipts receipts.now ++ plain_receipt row.now ∷ [])) (IsNextReceipt receipts.now (plain_receipt row.now))) }
{
    if receipts.is_full() {
        return Ok(None);
    }
    let number = receipts.count() + 1;
    let Some(receipt) = read_receipt(alloc, number, row)? else {
        return Ok(None);
    };
    if receipts.find(&receipt.key).is_some() {
        return Ok(None);
    }
    Ok(Some(receipt))
}

/// That the receipt of this row is bad.
fn refused(row: &RawReceipt) -> StoreFault
    ensures { result ≡ BadStore (code.Receipt row.now.num) }
{
    StoreFault::BadStore(StoreRow::Receipt { num: row.num })
}
