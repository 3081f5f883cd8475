//! Stores made of rows.

use gk_io::CallNumbers;
use line_text::{Bytes, LineText};
use memory_keeper::MemoryKeeper;
use raw_tables::{RawReceipt, RawReceipts, RawRule, RawRules, RawTables};
use std::alloc::{AllocError, Global};

/// A keeper of so many rules, each disabled so often, with the receipts that added them.
pub fn with_rules(alloc: Global, count: u32, disabled: i64) -> Result<MemoryKeeper, AllocError> {
    let mut tables = no_rows(alloc);
    for before in 0..count {
        let number = i64::from(before) + 1;
        let added = receipt(alloc, number, b"add execute allow 0 never - - always", 1)?;
        tables.receipts.push(added)?;
        let rule = rule(alloc, number, disabled)?;
        tables.rules.push(rule)?;
    }
    Ok(MemoryKeeper::with(tables, CallNumbers::new(alloc)))
}

/// A keeper of so many receipts and no rules.
pub fn with_receipts(alloc: Global, count: u32) -> Result<MemoryKeeper, AllocError> {
    let mut tables = no_rows(alloc);
    for before in 0..count {
        let switched = receipt(alloc, i64::from(before) + 1, b"switch on", 0)?;
        tables.receipts.push(switched)?;
    }
    Ok(MemoryKeeper::with(tables, CallNumbers::new(alloc)))
}

fn no_rows(alloc: Global) -> RawTables {
    RawTables {
        format: 1,
        switch: 1,
        receipts: RawReceipts::new(alloc),
        rules: RawRules::new(alloc),
    }
}

/// The receipt of this number, whose key is `k` and the number.
fn receipt(alloc: Global, num: i64, content: &[u8], rules: i64) -> Result<RawReceipt, AllocError> {
    let mut key = LineText::new();
    key.push(b'k');
    key.push_number(num.unsigned_abs());
    Ok(RawReceipt {
        num,
        key: Bytes::copy_of(alloc, key.as_slice())?,
        content: Bytes::copy_of(alloc, content)?,
        rules,
    })
}

fn rule(alloc: Global, id: i64, disabled: i64) -> Result<RawRule, AllocError> {
    Ok(RawRule {
        id,
        kind: 1,
        allow: 1,
        disabled,
        expires: None,
        priority: 0,
        flags: 0,
        label: Bytes::copy_of(alloc, b"")?,
        requirement: Bytes::copy_of(alloc, b"always")?,
    })
}
