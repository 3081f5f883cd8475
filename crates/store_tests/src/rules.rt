//! Rules that are refused, and those at their bounds.
use crate::rows::{RECEIPTS, RuleRow, raw_rule, rows_are_read_as, rule_is_read_as};
use std::alloc::Global;
use std::test::Fail;
use store_reading::StoreRow;

struct Row {
    rule: RuleRow,
    taken: bool,
}

#[rattlefmt::skip]
const ROWS: [Row; 29] = [
    Row { rule: RuleRow { id: 1, kind: 1, allow: 1, disabled: 0, expires: None, priority: 0, flags: 0, label: b"", requirement: b"always" }, taken: true },
    Row { rule: RuleRow { id: 3, kind: 3, allow: 0, disabled: 1000, expires: Some(0), priority: 1000000000000, flags: 2, label: b"a b\xff", requirement: b"never" }, taken: true },
    Row { rule: RuleRow { id: 1, kind: 2, allow: 0, disabled: 1, expires: Some(253402300799), priority: -1000000000000, flags: 4, label: b"", requirement: b"identifier a" }, taken: true },
    Row { rule: RuleRow { id: 1, kind: 1, allow: 1, disabled: 0, expires: None, priority: 1, flags: 6, label: b"", requirement: b" always " }, taken: true },
    // its receipt
    Row { rule: RuleRow { id: 0, kind: 1, allow: 1, disabled: 0, expires: None, priority: 0, flags: 0, label: b"", requirement: b"always" }, taken: false },
    Row { rule: RuleRow { id: -1, kind: 1, allow: 1, disabled: 0, expires: None, priority: 0, flags: 0, label: b"", requirement: b"always" }, taken: false },
    Row { rule: RuleRow { id: 2, kind: 1, allow: 1, disabled: 0, expires: None, priority: 0, flags: 0, label: b"", requirement: b"always" }, taken: false },
    Row { rule: RuleRow { id: 4, kind: 1, allow: 1, disabled: 0, expires: None, priority: 0, flags: 0, label: b"", requirement: b"always" }, taken: false },
    Row { rule: RuleRow { id: 100001, kind: 1, allow: 1, disabled: 0, expires: None, priority: 0, flags: 0, label: b"", requirement: b"always" }, taken: false },
    Row { rule: RuleRow { id: 4294967297, kind: 1, allow: 1, disabled: 0, expires: None, priority: 0, flags: 0, label: b"", requirement: b"always" }, taken: false },
    // its kind and verdict
    Row { rule: RuleRow { id: 1, kind: 0, allow: 1, disabled: 0, expires: None, priority: 0, flags: 0, label: b"", requirement: b"always" }, taken: false },
    Row { rule: RuleRow { id: 1, kind: 4, allow: 1, disabled: 0, expires: None, priority: 0, flags: 0, label: b"", requirement: b"always" }, taken: false },
    Row { rule: RuleRow { id: 1, kind: -1, allow: 1, disabled: 0, expires: None, priority: 0, flags: 0, label: b"", requirement: b"always" }, taken: false },
    Row { rule: RuleRow { id: 1, kind: 1, allow: 2, disabled: 0, expires: None, priority: 0, flags: 0, label: b"", requirement: b"always" }, taken: false },
    Row { rule: RuleRow { id: 1, kind: 1, allow: -1, disabled: 0, expires: None, priority: 0, flags: 0, label: b"", requirement: b"always" }, taken: false },
    // how often it was disabled, and its end
    Row { rule: RuleRow { id: 1, kind: 1, allow: 1, disabled: 1001, expires: None, priority: 0, flags: 0, label: b"", requirement: b"always" }, taken: false },
    Row { rule: RuleRow { id: 1, kind: 1, allow: 1, disabled: -1, expires: None, priority: 0, flags: 0, label: b"", requirement: b"always" }, taken: false },
    Row { rule: RuleRow { id: 1, kind: 1, allow: 1, disabled: 0, expires: Some(-1), priority: 0, flags: 0, label: b"", requirement: b"always" }, taken: false },
    Row { rule: RuleRow { id: 1, kind: 1, allow: 1, disabled: 0, expires: Some(253402300800), priority: 0, flags: 0, label: b"", requirement: b"always" }, taken: false },
    // its priority and flags
    Row { rule: RuleRow { id: 1, kind: 1, allow: 1, disabled: 0, expires: None, priority: 1000000000001, flags: 0, label: b"", requirement: b"always" }, taken: false },
    Row { rule: RuleRow { id: 1, kind: 1, allow: 1, disabled: 0, expires: None, priority: -1000000000001, flags: 0, label: b"", requirement: b"always" }, taken: false },
    Row { rule: RuleRow { id: 1, kind: 1, allow: 1, disabled: 0, expires: None, priority: 0, flags: 1, label: b"", requirement: b"always" }, taken: false },
    Row { rule: RuleRow { id: 1, kind: 1, allow: 1, disabled: 0, expires: None, priority: 0, flags: 3, label: b"", requirement: b"always" }, taken: false },
    Row { rule: RuleRow { id: 1, kind: 1, allow: 1, disabled: 0, expires: None, priority: 0, flags: 8, label: b"", requirement: b"always" }, taken: false },
    Row { rule: RuleRow { id: 1, kind: 1, allow: 1, disabled: 0, expires: None, priority: 0, flags: -2, label: b"", requirement: b"always" }, taken: false },
    // its requirement
    Row { rule: RuleRow { id: 1, kind: 1, allow: 1, disabled: 0, expires: None, priority: 0, flags: 0, label: b"", requirement: b"" }, taken: false },
    Row { rule: RuleRow { id: 1, kind: 1, allow: 1, disabled: 0, expires: None, priority: 0, flags: 0, label: b"", requirement: b"and" }, taken: false },
    Row { rule: RuleRow { id: 1, kind: 1, allow: 1, disabled: 0, expires: None, priority: 0, flags: 0, label: b"", requirement: b"always\n" }, taken: false },
    Row { rule: RuleRow { id: 1, kind: 1, allow: 1, disabled: 0, expires: None, priority: 0, flags: 0, label: b"", requirement: b"\xff" }, taken: false },
];

fn is_taken(alloc: Global, row: &Row) -> bool {
    let at = if row.taken {
        None
    } else {
        Some(StoreRow::Rule { id: row.rule.id })
    };
    match raw_rule(alloc, &row.rule) {
        Err(_) => false,
        Ok(rule) => rule_is_read_as(alloc, rule, at),
    }
}

fn all_rules(alloc: Global) -> bool {
    ROWS.iter().all(|row| is_taken(alloc, row))
}

#[test]
fn rules_are_taken_within_their_bounds(rt: HostRuntime) -> Result<(), Fail> {
    assert!(rt; all_rules(rt.alloc()));
    Ok(())
}

struct Pair {
    rules: [RuleRow; 2],
    at: Option<StoreRow>,
}

#[rattlefmt::skip]
const PAIRS: [Pair; 3] = [
    Pair { rules: [
        RuleRow { id: 1, kind: 1, allow: 1, disabled: 0, expires: None, priority: 0, flags: 0, label: b"", requirement: b"always" },
        RuleRow { id: 3, kind: 1, allow: 1, disabled: 0, expires: None, priority: 0, flags: 0, label: b"", requirement: b"always" },
    ], at: None },
    Pair { rules: [
        RuleRow { id: 3, kind: 1, allow: 1, disabled: 0, expires: None, priority: 0, flags: 0, label: b"", requirement: b"always" },
        RuleRow { id: 1, kind: 1, allow: 1, disabled: 0, expires: None, priority: 0, flags: 0, label: b"", requirement: b"always" },
    ], at: Some(StoreRow::Rule { id: 1 }) },
    Pair { rules: [
        RuleRow { id: 3, kind: 1, allow: 1, disabled: 0, expires: None, priority: 0, flags: 0, label: b"", requirement: b"always" },
        RuleRow { id: 3, kind: 1, allow: 1, disabled: 0, expires: None, priority: 0, flags: 0, label: b"", requirement: b"always" },
    ], at: Some(StoreRow::Rule { id: 3 }) },
];

fn all_pairs(alloc: Global) -> bool {
    PAIRS.iter().all(|pair| rows_are_read_as(alloc, &RECEIPTS, &pair.rules, pair.at))
}

#[test]
fn the_numbers_of_rules_rise(rt: HostRuntime) -> Result<(), Fail> {
    assert!(rt; all_pairs(rt.alloc()));
    Ok(())
}
