//! Stored rows as literals, and what reading them gives.
use line_text::Bytes;
use raw_tables::{RawReceipt, RawReceipts, RawRule, RawRules, RawTables};
use std::alloc::{AllocError, Global};
use store_reading::{StoreFault, StoreRow, read_store};

#[derive(Clone, Copy, Drop)]
pub struct ReceiptRow {
    pub num: i64,
    pub key: &'static [u8],
    pub content: &'static [u8],
    pub rules: i64,
}

#[derive(Clone, Copy, Drop)]
pub struct RuleRow {
    pub id: i64,
    pub kind: i64,
    pub allow: i64,
    pub disabled: i64,
    pub expires: Option<i64>,
    pub priority: i64,
    pub flags: i64,
    pub label: &'static [u8],
    pub requirement: &'static [u8],
}

// two rules were added, and the switch was turned off between them
#[rattlefmt::skip]
pub const RECEIPTS: [ReceiptRow; 3] = [
    ReceiptRow { num: 1, key: b"k1", content: b"add execute allow 0 never - - always", rules: 1 },
    ReceiptRow { num: 2, key: b"k2", content: b"switch off", rules: 0 },
    ReceiptRow { num: 3, key: b"k3", content: b"add install deny 20.5 4000000000 Own%20%FF default+inhibit identifier a", rules: 1 },
];

pub fn raw_receipt(alloc: Global, row: &ReceiptRow) -> Result<RawReceipt, AllocError> {
    let key = Bytes::copy_of(alloc, row.key)?;
    let content = Bytes::copy_of(alloc, row.content)?;
    Ok(RawReceipt {
        num: row.num,
        key,
        content,
        rules: row.rules,
    })
}

pub fn raw_receipts(alloc: Global, rows: &[ReceiptRow]) -> Result<RawReceipts, AllocError> {
    let mut receipts = RawReceipts::new(alloc);
    for row in rows {
        receipts.push(raw_receipt(alloc, row)?)?;
    }
    Ok(receipts)
}

pub fn raw_rule(alloc: Global, row: &RuleRow) -> Result<RawRule, AllocError> {
    let label = Bytes::copy_of(alloc, row.label)?;
    let requirement = Bytes::copy_of(alloc, row.requirement)?;
    Ok(RawRule {
        id: row.id,
        kind: row.kind,
        allow: row.allow,
        disabled: row.disabled,
        expires: row.expires,
        priority: row.priority,
        flags: row.flags,
        label,
        requirement,
    })
}

pub fn raw_rules(alloc: Global, rows: &[RuleRow]) -> Result<RawRules, AllocError> {
    let mut rules = RawRules::new(alloc);
    for row in rows {
        rules.push(raw_rule(alloc, row)?)?;
    }
    Ok(rules)
}

/// A store of the format that is read, with the switch off.
pub fn raw_tables(
    alloc: Global,
    receipts: &[ReceiptRow],
    rules: &[RuleRow],
) -> Result<RawTables, AllocError> {
    let receipts = raw_receipts(alloc, receipts)?;
    let rules = raw_rules(alloc, rules)?;
    Ok(RawTables {
        format: 1,
        switch: 0,
        receipts,
        rules,
    })
}

/// Whether a store is read, where no place is given, or refused at this place.
pub fn is_read_as(alloc: Global, raw: &RawTables, at: Option<StoreRow>) -> bool {
    match (read_store(alloc, raw), at) {
        (Ok(_), None) => true,
        (Err(StoreFault::BadStore(row)), Some(at)) => row == at,
        _ => false,
    }
}

/// The same of a store with these rows.
pub fn rows_are_read_as(
    alloc: Global,
    receipts: &[ReceiptRow],
    rules: &[RuleRow],
    at: Option<StoreRow>,
) -> bool {
    match raw_tables(alloc, receipts, rules) {
        Ok(raw) => is_read_as(alloc, &raw, at),
        Err(_) => false,
    }
}

/// The same of a store with the three receipts and this rule.
pub fn rule_is_read_as(alloc: Global, rule: RawRule, at: Option<StoreRow>) -> bool {
    match raw_tables(alloc, &RECEIPTS, &[]) {
        Err(_) => false,
        Ok(mut raw) => raw.rules.push(rule).is_ok() && is_read_as(alloc, &raw, at),
    }
}
