//! As many receipts and rules as a store may hold, and one more; texts and labels at their longest.
use crate::rows::{RuleRow, is_read_as, raw_rule, rule_is_read_as};
use line_text::{Bytes, LineText};
use raw_tables::{RawReceipt, RawReceipts, RawRules, RawTables};
use std::alloc::{AllocError, Global};
use std::test::Fail;
use store_reading::StoreRow;

// adds and switches come in turn, each under its number as its key
fn numbered_receipt(alloc: Global, num: u32, content: &[u8]) -> Result<RawReceipt, AllocError> {
    let mut key = LineText::new();
    key.push_number(num as u64);
    let key = Bytes::copy_of(alloc, key.as_slice())?;
    let content = Bytes::copy_of(alloc, content)?;
    Ok(RawReceipt {
        num: num as i64,
        key,
        content,
        rules: 0,
    })
}

fn many_receipts(alloc: Global, most: u32, content: &[u8]) -> Result<RawReceipts, AllocError> {
    let mut receipts = RawReceipts::new(alloc);
    for num in 0..most {
        receipts.push(numbered_receipt(alloc, num + 1, content)?)?;
    }
    Ok(receipts)
}

const RULE: RuleRow = RuleRow {
    id: 1,
    kind: 1,
    allow: 1,
    disabled: 0,
    expires: None,
    priority: 0,
    flags: 0,
    label: b"",
    requirement: b"always",
};

fn many_rules(alloc: Global, most: i64) -> Result<RawRules, AllocError> {
    let mut rules = RawRules::new(alloc);
    for id in 0..most {
        let mut rule = raw_rule(alloc, &RULE)?;
        rule.id = id + 1;
        rules.push(rule)?;
    }
    Ok(rules)
}

fn many(alloc: Global, receipts: u32, rules: i64, content: &[u8]) -> Result<RawTables, AllocError> {
    let receipts = many_receipts(alloc, receipts, content)?;
    let rules = many_rules(alloc, rules)?;
    Ok(RawTables {
        format: 1,
        switch: 1,
        receipts,
        rules,
    })
}

fn are_read_as(
    alloc: Global,
    receipts: u32,
    rules: i64,
    content: &[u8],
    at: Option<StoreRow>,
) -> bool {
    match many(alloc, receipts, rules, content) {
        Ok(raw) => is_read_as(alloc, &raw, at),
        Err(_) => false,
    }
}

#[test]
fn a_hundred_thousand_receipts_are_taken(rt: HostRuntime) -> Result<(), Fail> {
    assert!(rt; are_read_as(rt.alloc(), 100_000, 0, b"switch on", None));
    assert!(rt;
        are_read_as(
            rt.alloc(),
            100_001,
            0,
            b"switch on",
            Some(StoreRow::Receipt { num: 100_001 })
        )
    );
    Ok(())
}

const ADD: &[u8] = b"add execute allow 0 never - - always";

#[test]
fn ten_thousand_rules_are_taken(rt: HostRuntime) -> Result<(), Fail> {
    assert!(rt; are_read_as(rt.alloc(), 10_001, 10_000, ADD, None));
    assert!(rt;
        are_read_as(
            rt.alloc(),
            10_001,
            10_001,
            ADD,
            Some(StoreRow::Rule { id: 10_001 })
        )
    );
    Ok(())
}

fn of_length(alloc: Global, first: &[u8], byte: u8, length: usize) -> Result<Bytes, AllocError> {
    let mut bytes = Vec::from_slice(alloc, first)?;
    bytes.resize(length, byte)?;
    Ok(Bytes::from_vec(bytes))
}

fn label_is_read_as(alloc: Global, length: usize, at: Option<StoreRow>) -> bool {
    match (raw_rule(alloc, &RULE), of_length(alloc, b"", b'\n', length)) {
        (Ok(mut rule), Ok(label)) => {
            rule.label = label;
            rule_is_read_as(alloc, rule, at)
        }
        _ => false,
    }
}

fn text_is_read_as(alloc: Global, length: usize, at: Option<StoreRow>) -> bool {
    match (
        raw_rule(alloc, &RULE),
        of_length(alloc, b"always", b' ', length),
    ) {
        (Ok(mut rule), Ok(text)) => {
            rule.requirement = text;
            rule_is_read_as(alloc, rule, at)
        }
        _ => false,
    }
}

fn all_lengths(alloc: Global) -> bool {
    let at = Some(StoreRow::Rule { id: 1 });
    label_is_read_as(alloc, 128, None)
        && label_is_read_as(alloc, 129, at)
        && text_is_read_as(alloc, 4_096, None)
        && text_is_read_as(alloc, 4_097, at)
}

#[test]
fn labels_and_texts_have_their_most_bytes(rt: HostRuntime) -> Result<(), Fail> {
    assert!(rt; all_lengths(rt.alloc()));
    Ok(())
}
