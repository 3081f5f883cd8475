//! A keeper in memory. What its changes come to is tested through the desk.

use crate::rows::{Receipt, Rule, are_stored};
use gk_io::CallNumbers;
use line_text::Bytes;
use memory_keeper::MemoryKeeper;
use policy_keeper::{KeepFault, Keeper};
use raw_tables::{RawReceipt, RawReceipts, RawRule, RawRules, RawTables};
use std::alloc::{AllocError, Global};

#[rattlefmt::skip]
const RECEIPTS: [Receipt; 3] = [
    Receipt { num: 1, key: b"a", content: b"switch on", rules: 0 },
    Receipt { num: 2, key: b"b", content: b"switch off", rules: 0 },
    Receipt { num: 3, key: b"c", content: b"", rules: -1 },
];

#[rattlefmt::skip]
const RULES: [Rule; 3] = [
    Rule { id: 7, kind: 1, allow: 0, disabled: 9, expires: Some(3), priority: -5, flags: 6, label: b"", requirement: b"never" },
    Rule { id: 8, kind: 2, allow: 1, disabled: 0, expires: None, priority: 5, flags: 0, label: b"x", requirement: b"always" },
    Rule { id: 0, kind: 9, allow: 9, disabled: -1, expires: Some(-3), priority: 0, flags: 1, label: b"y", requirement: b"" },
];

fn receipts(alloc: Global) -> Result<RawReceipts, AllocError> {
    let mut receipts = RawReceipts::new(alloc);
    for row in &RECEIPTS {
        receipts.push(RawReceipt {
            num: row.num,
            key: Bytes::copy_of(alloc, row.key)?,
            content: Bytes::copy_of(alloc, row.content)?,
            rules: row.rules,
        })?;
    }
    Ok(receipts)
}

fn rules(alloc: Global) -> Result<RawRules, AllocError> {
    let mut rules = RawRules::new(alloc);
    for row in &RULES {
        rules.push(RawRule {
            id: row.id,
            kind: row.kind,
            allow: row.allow,
            disabled: row.disabled,
            expires: row.expires,
            priority: row.priority,
            flags: row.flags,
            label: Bytes::copy_of(alloc, row.label)?,
            requirement: Bytes::copy_of(alloc, row.requirement)?,
        })?;
    }
    Ok(rules)
}

/// A keeper whose second call fails.
fn keeper(alloc: Global) -> Result<MemoryKeeper, AllocError> {
    let mut failing = CallNumbers::new(alloc);
    failing.push(2)?;
    let tables = RawTables {
        format: 1,
        switch: 0,
        receipts: receipts(alloc)?,
        rules: rules(alloc)?,
    };
    Ok(MemoryKeeper::with(tables, failing))
}

fn is_loaded(alloc: Global) -> bool {
    let Ok(mut keeper) = keeper(alloc) else {
        return false;
    };
    let first = are_stored(alloc, &mut keeper, 0, &RECEIPTS, &RULES);
    let second = fails(alloc, &mut keeper);
    let counted = keeper.faults() == 1;
    let third = are_stored(alloc, &mut keeper, 0, &RECEIPTS, &RULES);
    first && second && counted && third && keeper.faults() == 1
}

fn fails<K: Keeper>(alloc: Global, keeper: &mut K) -> bool {
    match keeper.load(alloc) {
        Ok(tables) => {
            drop(tables);
            false
        }
        Err(fault) => fault == KeepFault::Failed,
    }
}

#[test]
fn rows_in_memory_are_given_but_at_calls_that_fail(rt: HostRuntime) {
    assert!(rt; is_loaded(rt.alloc()));
}

fn is_new(alloc: Global) -> bool {
    let mut keeper = MemoryKeeper::new(alloc);
    are_stored(alloc, &mut keeper, 1, &[], &[]) && keeper.faults() == 0
}

#[test]
fn a_new_keeper_in_memory_has_no_rows(rt: HostRuntime) {
    assert!(rt; is_new(rt.alloc()));
}
