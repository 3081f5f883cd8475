//! The format and the switch, and which place is refused where several rows are bad.
use crate::rows::{RECEIPTS, ReceiptRow, RuleRow, is_read_as, raw_tables};
use std::alloc::Global;
use std::test::Fail;
use store_reading::StoreRow;

struct Row {
    format: i64,
    switch: i64,
    receipts: &'static [ReceiptRow],
    rules: &'static [RuleRow],
    at: Option<StoreRow>,
}

#[rattlefmt::skip]
const BAD_RECEIPT: [ReceiptRow; 1] = [ReceiptRow { num: 9, key: b"k1", content: b"switch on", rules: 0 }];

#[rattlefmt::skip]
const BAD_RULE: [RuleRow; 1] = [RuleRow { id: 7, kind: 1, allow: 1, disabled: 0, expires: None, priority: 0, flags: 0, label: b"", requirement: b"always" }];

#[rattlefmt::skip]
const ROWS: [Row; 13] = [
    Row { format: 1, switch: 0, receipts: &[], rules: &[], at: None },
    Row { format: 1, switch: 1, receipts: &[], rules: &[], at: None },
    Row { format: 1, switch: 1, receipts: &RECEIPTS, rules: &[], at: None },
    Row { format: 0, switch: 1, receipts: &[], rules: &[], at: Some(StoreRow::Format) },
    Row { format: 2, switch: 1, receipts: &[], rules: &[], at: Some(StoreRow::Format) },
    Row { format: 3, switch: 1, receipts: &[], rules: &[], at: Some(StoreRow::Format) },
    Row { format: -1, switch: 1, receipts: &[], rules: &[], at: Some(StoreRow::Format) },
    Row { format: 1, switch: -1, receipts: &[], rules: &[], at: Some(StoreRow::Switch) },
    Row { format: 1, switch: 2, receipts: &[], rules: &[], at: Some(StoreRow::Switch) },
    Row { format: 3, switch: 2, receipts: &BAD_RECEIPT, rules: &BAD_RULE, at: Some(StoreRow::Format) },
    Row { format: 1, switch: 2, receipts: &BAD_RECEIPT, rules: &BAD_RULE, at: Some(StoreRow::Switch) },
    Row { format: 1, switch: 0, receipts: &BAD_RECEIPT, rules: &BAD_RULE, at: Some(StoreRow::Receipt { num: 9 }) },
    Row { format: 1, switch: 0, receipts: &RECEIPTS, rules: &BAD_RULE, at: Some(StoreRow::Rule { id: 7 }) },
];

fn is_placed(alloc: Global, row: &Row) -> bool {
    match raw_tables(alloc, row.receipts, row.rules) {
        Err(_) => false,
        Ok(mut raw) => {
            raw.format = row.format;
            raw.switch = row.switch;
            is_read_as(alloc, &raw, row.at)
        }
    }
}

fn all_placed(alloc: Global) -> bool {
    ROWS.iter().all(|row| is_placed(alloc, row))
}

#[test]
fn the_first_bad_place_is_refused(rt: HostRuntime) -> Result<(), Fail> {
    assert!(rt; all_placed(rt.alloc()));
    Ok(())
}
