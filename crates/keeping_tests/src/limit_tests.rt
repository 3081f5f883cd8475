//! Edits on desks that are loaded from rows at their limits.

use crate::desk::{is_replied, opened};
use gk_io::CallNumbers;
use line_text::Bytes;
use memory_keeper::MemoryKeeper;
use raw_tables::{RawReceipt, RawReceipts, RawRule, RawRules, RawTables};
use std::alloc::{AllocError, Global};

/// As many receipts, each of this content.
fn receipts(alloc: Global, count: i64, content: &[u8]) -> Result<RawReceipts, AllocError> {
    let mut receipts = RawReceipts::new(alloc);
    for num in 1..=count {
        let key = format!(in alloc; "k{num}")?;
        receipts.push(RawReceipt {
            num,
            key: Bytes::from_vec(key.into_bytes()),
            content: Bytes::copy_of(alloc, content)?,
            rules: 0,
        })?;
    }
    Ok(receipts)
}

/// As many rules, each disabled so often.
fn rules(alloc: Global, count: i64, disabled: i64) -> Result<RawRules, AllocError> {
    let mut rules = RawRules::new(alloc);
    for id in 1..=count {
        rules.push(RawRule {
            id,
            kind: 1,
            allow: 1,
            disabled,
            expires: None,
            priority: 0,
            flags: 0,
            label: Bytes::empty(alloc),
            requirement: Bytes::copy_of(alloc, b"always")?,
        })?;
    }
    Ok(rules)
}

/// What is stored, and the refusal of one more edit.
struct Row {
    receipts: i64,
    content: &'static [u8],
    rules: i64,
    disabled: i64,
    line: &'static [u8],
    reply: &'static [u8],
}

#[rattlefmt::skip]
const ROWS: [Row; 3] = [
    Row { receipts: 10_000, content: b"add execute allow 0 never - - always", rules: 10_000, disabled: 0, line: b"add z open deny 1 never - - never", reply: b"refused edit 13 TableFull" },
    Row { receipts: 100_000, content: b"switch on", rules: 0, disabled: 0, line: b"switch z on", reply: b"refused edit 14 ReceiptsFull" },
    Row { receipts: 1, content: b"add execute allow 0 never - - always", rules: 1, disabled: 1_000, line: b"disable z id 1 any", reply: b"refused edit 15 DisableFull rule=1" },
];

fn keeper(alloc: Global, row: &Row) -> Result<MemoryKeeper, AllocError> {
    let receipts = receipts(alloc, row.receipts, row.content)?;
    let rules = rules(alloc, row.rules, row.disabled)?;
    let tables = RawTables {
        format: 1,
        switch: 1,
        receipts,
        rules,
    };
    Ok(MemoryKeeper::with(tables, CallNumbers::new(alloc)))
}

fn is_refused(alloc: Global, row: &Row) -> bool {
    let Ok(mut keeper) = keeper(alloc, row) else {
        return false;
    };
    match opened(alloc, &mut keeper) {
        None => false,
        Some(mut desk) => is_replied(alloc, &mut desk, &mut keeper, row.line, row.reply),
    }
}

fn all_refused(alloc: Global) -> bool {
    let mut all = true;
    for row in &ROWS {
        let refused = is_refused(alloc, row);
        all = all && refused;
    }
    all
}

#[test]
fn rows_at_their_limits_are_loaded_and_take_no_more(rt: HostRuntime) {
    assert!(rt; all_refused(rt.alloc()));
}
