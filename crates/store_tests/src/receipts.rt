//! Receipts that are refused, and those at their bounds.
use crate::rows::{ReceiptRow, rows_are_read_as};
use std::alloc::Global;
use std::test::Fail;
use store_reading::StoreRow;

struct Row {
    receipts: &'static [ReceiptRow],
    at: Option<StoreRow>,
}

const KEY_64: &[u8] = b"0123456789abcdefghijklmnopqrstuvwxyzABCDEFGHIJKLMNOPQRSTUVWXYZ._";

const KEY_65: &[u8] = b"0123456789abcdefghijklmnopqrstuvwxyzABCDEFGHIJKLMNOPQRSTUVWXYZ._-";

// numbers, keys and counts
#[rattlefmt::skip]
const ROWS: [Row; 16] = [
    Row { receipts: &[ReceiptRow { num: 1, key: b"a", content: b"switch on", rules: 0 }], at: None },
    Row { receipts: &[ReceiptRow { num: 1, key: KEY_64, content: b"switch on", rules: 10000 }], at: None },
    Row { receipts: &[ReceiptRow { num: 0, key: b"a", content: b"switch on", rules: 0 }], at: Some(StoreRow::Receipt { num: 0 }) },
    Row { receipts: &[ReceiptRow { num: 2, key: b"a", content: b"switch on", rules: 0 }], at: Some(StoreRow::Receipt { num: 2 }) },
    Row { receipts: &[ReceiptRow { num: -1, key: b"a", content: b"switch on", rules: 0 }], at: Some(StoreRow::Receipt { num: -1 }) },
    Row { receipts: &[ReceiptRow { num: 1, key: b"a", content: b"switch on", rules: 0 }, ReceiptRow { num: 1, key: b"b", content: b"switch on", rules: 0 }], at: Some(StoreRow::Receipt { num: 1 }) },
    Row { receipts: &[ReceiptRow { num: 1, key: b"a", content: b"switch on", rules: 0 }, ReceiptRow { num: 3, key: b"b", content: b"switch on", rules: 0 }], at: Some(StoreRow::Receipt { num: 3 }) },
    Row { receipts: &[ReceiptRow { num: 1, key: b"", content: b"switch on", rules: 0 }], at: Some(StoreRow::Receipt { num: 1 }) },
    Row { receipts: &[ReceiptRow { num: 1, key: KEY_65, content: b"switch on", rules: 0 }], at: Some(StoreRow::Receipt { num: 1 }) },
    Row { receipts: &[ReceiptRow { num: 1, key: b"a b", content: b"switch on", rules: 0 }], at: Some(StoreRow::Receipt { num: 1 }) },
    Row { receipts: &[ReceiptRow { num: 1, key: b"a", content: b"switch on", rules: -1 }], at: Some(StoreRow::Receipt { num: 1 }) },
    Row { receipts: &[ReceiptRow { num: 1, key: b"a", content: b"switch on", rules: 10001 }], at: Some(StoreRow::Receipt { num: 1 }) },
    Row { receipts: &[ReceiptRow { num: 1, key: b"a", content: b"switch on", rules: 0 }, ReceiptRow { num: 2, key: b"b", content: b"switch off", rules: 0 }, ReceiptRow { num: 3, key: b"a", content: b"switch on", rules: 0 }], at: Some(StoreRow::Receipt { num: 3 }) },
    Row { receipts: &[ReceiptRow { num: 1, key: b"a", content: b"switch on", rules: 0 }, ReceiptRow { num: 2, key: b"A", content: b"switch on", rules: 0 }], at: None },
    Row { receipts: &[ReceiptRow { num: 1, key: b"a", content: b"switch on", rules: 0 }, ReceiptRow { num: 2, key: b"", content: b"switch on", rules: 0 }, ReceiptRow { num: 9, key: b"b", content: b"switch on", rules: 0 }], at: Some(StoreRow::Receipt { num: 2 }) },
    Row { receipts: &[ReceiptRow { num: 9223372036854775807, key: b"a", content: b"switch on", rules: 0 }], at: Some(StoreRow::Receipt { num: 9223372036854775807 }) },
];

fn all_receipts(alloc: Global) -> bool {
    ROWS.iter()
        .all(|row| rows_are_read_as(alloc, row.receipts, &[], row.at))
}

#[test]
fn receipts_are_numbered_under_keys_of_their_own(rt: HostRuntime) -> Result<(), Fail> {
    assert!(rt; all_receipts(rt.alloc()));
    Ok(())
}

struct Content {
    text: &'static [u8],
    taken: bool,
}

#[rattlefmt::skip]
const CONTENTS: [Content; 24] = [
    Content { text: b"add execute allow 0.5 never - - always", taken: true },
    Content { text: b"add open deny -7 77 a default+inhibit always ", taken: true },
    Content { text: b"remove id 7 any", taken: true },
    Content { text: b"enable label a%20b install", taken: true },
    Content { text: b"disable label a any", taken: true },
    Content { text: b"expire id 100000 any never", taken: true },
    Content { text: b"expire label a open 253402300799", taken: true },
    Content { text: b"switch on", taken: true },
    // another text of the same content
    Content { text: b"add execute allow 0.50 never - - always", taken: false },
    Content { text: b"add execute allow -0 never - - always", taken: false },
    Content { text: b"remove id 007 any", taken: false },
    Content { text: b"enable label %61 install", taken: false },
    Content { text: b"enable label %ff install", taken: false },
    Content { text: b"expire id 7 any 007", taken: false },
    // no content
    Content { text: b"", taken: false },
    Content { text: b"status", taken: false },
    Content { text: b"switch", taken: false },
    Content { text: b"switch k on", taken: false },
    Content { text: b"switch on ", taken: false },
    Content { text: b"remove id 0 any", taken: false },
    Content { text: b"remove id 100001 any", taken: false },
    Content { text: b"expire id 7 any 253402300800", taken: false },
    Content { text: b"add execute allow 0 never - - and", taken: false },
    Content { text: b"add execute allow 0 never - - always\n", taken: false },
];

fn is_taken(alloc: Global, row: &Content) -> bool {
    let receipts = [ReceiptRow {
        num: 1,
        key: b"a",
        content: row.text,
        rules: 0,
    }];
    let at = if row.taken {
        None
    } else {
        Some(StoreRow::Receipt { num: 1 })
    };
    rows_are_read_as(alloc, &receipts, &[], at)
}

fn all_contents(alloc: Global) -> bool {
    CONTENTS.iter().all(|row| is_taken(alloc, row))
}

#[test]
fn only_canonical_contents_are_taken(rt: HostRuntime) -> Result<(), Fail> {
    assert!(rt; all_contents(rt.alloc()));
    Ok(())
}
