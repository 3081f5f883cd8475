//! What rows mean once they are read.
use crate::rows::{RECEIPTS, RuleRow, raw_tables};
use authority_table::Table;
use edit_receipts::Receipts;
use raw_tables::RawTables;
use rule_edits::EditKey;
use rule_values::{Kind, Rule, RuleId};
use std::alloc::Global;
use std::test::Fail;
use store_reading::{StoredTables, read_store};

#[rattlefmt::skip]
const RULES: [RuleRow; 2] = [
    RuleRow { id: 1, kind: 1, allow: 1, disabled: 0, expires: None, priority: 0, flags: 0, label: b"", requirement: b"always" },
    RuleRow { id: 3, kind: 2, allow: 0, disabled: 7, expires: Some(4000000000), priority: 20500000, flags: 6, label: b"Own \xff", requirement: b"identifier a" },
];

fn is_named(rule: &Rule, label: &[u8], text: &[u8]) -> bool {
    rule.label.as_slice() == label && rule.text.as_slice() == text
}

fn is_first(rule: &Rule) -> bool {
    let words = rule.kind.is(Kind::Execute) && rule.allow && !rule.is_default && !rule.inhibit;
    let numbers = rule.disabled == 0 && rule.expires.is_none() && rule.priority.get() == 0;
    words && numbers && is_named(rule, b"", b"always")
}

fn ends_at(rule: &Rule, seconds: u64) -> bool {
    match rule.expires {
        None => false,
        Some(end) => end.get() == seconds,
    }
}

fn is_third(rule: &Rule) -> bool {
    let words = rule.kind.is(Kind::Install) && !rule.allow && rule.is_default && rule.inhibit;
    let numbers = rule.disabled == 7
        && ends_at(rule, 4_000_000_000)
        && rule.priority.get() == 20_500_000;
    words && numbers && is_named(rule, b"Own \xff", b"identifier a")
}

fn has_rules(table: &Table) -> bool {
    let first = match table.rule(RuleId::numbered(1)) {
        None => false,
        Some(rule) => is_first(rule),
    };
    let second = table.rule(RuleId::numbered(2)).is_none();
    let third = match table.rule(RuleId::numbered(3)) {
        None => false,
        Some(rule) => is_third(rule),
    };
    table.count() == 2 && first && second && third
}

fn has_receipt(receipts: &Receipts, key: &[u8], number: u32, content: &[u8], rules: u32) -> bool {
    let Some(key) = EditKey::of(key) else {
        return false;
    };
    match receipts.find(&key) {
        None => false,
        Some(receipt) => {
            receipt.number == number
                && receipt.content.as_slice() == content
                && receipt.rules == rules
        }
    }
}

fn has_receipts(receipts: &Receipts) -> bool {
    let first = has_receipt(receipts, b"k1", 1, RECEIPTS[0].content, 1);
    let second = has_receipt(receipts, b"k2", 2, RECEIPTS[1].content, 0);
    let third = has_receipt(receipts, b"k3", 3, RECEIPTS[2].content, 1);
    receipts.count() == 3 && first && second && third
}

fn means_both(stored: &StoredTables) -> bool {
    has_rules(&stored.table) && has_receipts(&stored.receipts)
}

fn is_read(alloc: Global, raw: &RawTables, enabled: bool) -> bool {
    match read_store(alloc, raw) {
        Err(_) => false,
        Ok(stored) => stored.enabled == enabled && means_both(&stored),
    }
}

fn all_read(alloc: Global) -> bool {
    match raw_tables(alloc, &RECEIPTS, &RULES) {
        Err(_) => false,
        Ok(mut raw) => {
            let off = is_read(alloc, &raw, false);
            raw.switch = 1;
            off && is_read(alloc, &raw, true)
        }
    }
}

#[test]
fn rows_mean_their_rules_receipts_and_switch(rt: HostRuntime) -> Result<(), Fail> {
    assert!(rt; all_read(rt.alloc()));
    Ok(())
}
