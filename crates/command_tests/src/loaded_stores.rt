//! The limits of the tables, from stores that are loaded.

use crate::running::{Named, Run, is_run};
use crate::stored::{with_receipts, with_rules};
use memory_keeper::MemoryKeeper;
use spctl_cli::Status;
use std::alloc::{AllocError, Global};
use std::test::Fail;

const STORE: &str = "any store";

const NO_FILE: Named = ("none", b"");

// From one below each limit, and from the limit.
#[rattlefmt::skip]
const LAST_RULE: Run = (&[STORE, "session"],
    b"add y execute allow 0 never - - always\nadd z execute allow 0 never - - always\nadd y execute allow 0 never - - always\nremove x id 10000 any\nadd z execute allow 0 never - - always\n", Status::Fine,
    b"ok edit=10000 rules=1\nrefused edit 13 TableFull\nrepeated edit=10000 rules=1\nok edit=10001 rules=1\nok edit=10002 rules=1\n");

#[rattlefmt::skip]
const NO_RULE: Run = (&[STORE, "add", "z", "execute", "allow", "0", "never", "-", "-", "always"], b"", Status::Refused, b"refused edit 13 TableFull\n");

#[rattlefmt::skip]
const LAST_RECEIPT: Run = (&[STORE, "session"], b"switch y off\nswitch z on\nswitch y off\n", Status::Fine,
    b"ok edit=100000 rules=0\nrefused edit 14 ReceiptsFull\nrepeated edit=100000 rules=0\n");

#[rattlefmt::skip]
const NO_RECEIPT: Run = (&[STORE, "switch", "z", "on"], b"", Status::Refused, b"refused edit 14 ReceiptsFull\n");

#[rattlefmt::skip]
const LAST_DISABLING: Run = (&[STORE, "session"], b"disable y id 1 any\ndisable z id 1 any\nenable z id 1 any\ndisable x id 1 any\n", Status::Fine,
    b"ok edit=2 rules=1\nrefused edit 15 DisableFull rule=1\nok edit=3 rules=1\nok edit=4 rules=1\n");

#[rattlefmt::skip]
const NO_DISABLING: Run = (&[STORE, "disable", "z", "id", "1", "any"], b"", Status::Refused, b"refused edit 15 DisableFull rule=1\n");

fn is_so(alloc: Global, mut keeper: MemoryKeeper, asked: &Run) -> Result<bool, AllocError> {
    let is = is_run(alloc, &mut keeper, NO_FILE, asked)?;
    drop(keeper);
    Ok(is)
}

#[test]
fn a_table_takes_ten_thousand_rules(rt: HostRuntime) -> Result<(), Fail> {
    let below = with_rules(rt.alloc(), 9_999, 0)?;
    let last = is_so(rt.alloc(), below, &LAST_RULE)?;
    assert!(rt; last);
    Ok(())
}

#[test]
fn a_table_of_ten_thousand_rules_is_full(rt: HostRuntime) -> Result<(), Fail> {
    let full = with_rules(rt.alloc(), 10_000, 0)?;
    let none = is_so(rt.alloc(), full, &NO_RULE)?;
    assert!(rt; none);
    Ok(())
}

#[test]
fn a_store_takes_a_hundred_thousand_edits(rt: HostRuntime) -> Result<(), Fail> {
    let below = with_receipts(rt.alloc(), 99_999)?;
    let last = is_so(rt.alloc(), below, &LAST_RECEIPT)?;
    assert!(rt; last);
    Ok(())
}

#[test]
fn a_store_of_a_hundred_thousand_edits_is_full(rt: HostRuntime) -> Result<(), Fail> {
    let full = with_receipts(rt.alloc(), 100_000)?;
    let none = is_so(rt.alloc(), full, &NO_RECEIPT)?;
    assert!(rt; none);
    Ok(())
}

#[test]
fn a_rule_is_disabled_a_thousand_times(rt: HostRuntime) -> Result<(), Fail> {
    let below = with_rules(rt.alloc(), 1, 999)?;
    let last = is_so(rt.alloc(), below, &LAST_DISABLING)?;
    let full = with_rules(rt.alloc(), 1, 1_000)?;
    let none = is_so(rt.alloc(), full, &NO_DISABLING)?;
    assert!(rt; last && none);
    Ok(())
}
