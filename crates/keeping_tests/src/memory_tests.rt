//! Edits over a keeper in memory, some of whose calls fail.

use crate::desk::{ROWS, Row, all_replied, are_alike, is_replied, opened};
use desk_state::Desk;
use gk_io::CallNumbers;
use memory_keeper::MemoryKeeper;
use raw_tables::{RawReceipts, RawRules, RawTables};
use std::alloc::Global;

/// A keeper without rows whose call of this number fails.
fn failing(alloc: Global, call: u64) -> Option<MemoryKeeper> {
    let mut numbers = CallNumbers::new(alloc);
    if numbers.push(call).is_err() {
        return None;
    }
    let tables = RawTables {
        format: 1,
        switch: 1,
        receipts: RawReceipts::new(alloc),
        rules: RawRules::new(alloc),
    };
    Some(MemoryKeeper::with(tables, numbers))
}

// The first call is the load.
#[rattlefmt::skip]
const THIRD_FAILS: [Row; 3] = [
    Row { line: b"add a execute allow 0 never - - always", reply: b"ok edit=1 rules=1" },
    Row { line: b"add b execute deny 1 never - - never", reply: b"refused edit 16 KeeperFault" },
    Row { line: b"add b execute deny 1 never - - never", reply: b"ok edit=2 rules=1" },
];

fn a_refused_edit_is_made_again(alloc: Global) -> bool {
    let Some(mut keeper) = failing(alloc, 3) else {
        return false;
    };
    match opened(alloc, &mut keeper) {
        None => false,
        Some(mut desk) => all_replied(alloc, &mut desk, &mut keeper, &THIRD_FAILS),
    }
}

#[test]
fn an_edit_that_the_keeper_refused_is_made_again(rt: HostRuntime) {
    assert!(rt; a_refused_edit_is_made_again(rt.alloc()));
}

// Three edits whose second change fails, and the same three again.
#[rattlefmt::skip]
const TWICE: [Row; 6] = [
    Row { line: b"add i1 execute allow 10 never Developer%20ID default anchor apple generic", reply: b"ok edit=1 rules=1" },
    Row { line: b"add i2 execute deny 20.5 4000000000 - - identifier \"com.bad.app\"", reply: b"refused edit 16 KeeperFault" },
    Row { line: b"add i3 install allow -1 never Own - always", reply: b"ok edit=2 rules=1" },
    Row { line: b"add i1 execute allow 10 never Developer%20ID default anchor apple generic", reply: b"repeated edit=1 rules=1" },
    Row { line: b"add i2 execute deny 20.5 4000000000 - - identifier \"com.bad.app\"", reply: b"ok edit=3 rules=1" },
    Row { line: b"add i3 install allow -1 never Own - always", reply: b"repeated edit=2 rules=1" },
];

fn edits_come_twice(alloc: Global) -> bool {
    let Some(mut keeper) = failing(alloc, 3) else {
        return false;
    };
    match opened(alloc, &mut keeper) {
        None => false,
        Some(mut desk) => all_replied(alloc, &mut desk, &mut keeper, &TWICE),
    }
}

#[test]
fn edits_that_come_twice_act_once(rt: HostRuntime) {
    assert!(rt; edits_come_twice(rt.alloc()));
}

/// All edits over a keeper whose change of this place, from 0 on, fails: the edits before it are accepted, it is
/// refused, and a desk that is loaded then goes on with it and those behind it.
fn fails_at(alloc: Global, place: usize) -> bool {
    let Some(mut keeper) = failing(alloc, (place as u64).saturating_add(2)) else {
        return false;
    };
    let Some((before, behind)) = ROWS.split_at_checked(place) else {
        return false;
    };
    let Some(row) = behind.first() else {
        return false;
    };
    let Some(mut desk) = opened(alloc, &mut keeper) else {
        return false;
    };
    let accepted = all_replied(alloc, &mut desk, &mut keeper, before);
    let refused = is_replied(
        alloc,
        &mut desk,
        &mut keeper,
        row.line,
        b"refused edit 16 KeeperFault",
    );
    let goes_on = goes_on(alloc, &desk, &mut keeper, behind);
    accepted && refused && goes_on && keeper.faults() == 1
}

/// Whether a desk that is loaded from the keeper is like this one and accepts the edits, and a desk that is loaded
/// then is like that one.
fn goes_on(alloc: Global, desk: &Desk, keeper: &mut MemoryKeeper, rows: &[Row]) -> bool {
    let Some(mut next) = opened(alloc, keeper) else {
        return false;
    };
    let same = are_alike(alloc, desk, &next);
    let replied = all_replied(alloc, &mut next, keeper, rows);
    match opened(alloc, keeper) {
        None => false,
        Some(last) => same && replied && are_alike(alloc, &next, &last),
    }
}

fn fails_everywhere(alloc: Global) -> bool {
    let mut all = true;
    for place in 0..ROWS.len() {
        let fails = fails_at(alloc, place);
        all = all && fails;
    }
    all
}

#[test]
fn each_change_that_fails_leaves_the_tables_as_they_were(rt: HostRuntime) {
    assert!(rt; fails_everywhere(rt.alloc()));
}

// Rules of one label with others between them, which change together.
#[rattlefmt::skip]
const OF_A_LABEL: [Row; 11] = [
    Row { line: b"add m1 install allow 3 never L - always", reply: b"ok edit=1 rules=1" },
    Row { line: b"add m2 install deny 4 never M - never", reply: b"ok edit=2 rules=1" },
    Row { line: b"add m3 execute allow 5 never L - never", reply: b"ok edit=3 rules=1" },
    Row { line: b"add m4 install allow 5 never L - never", reply: b"ok edit=4 rules=1" },
    Row { line: b"add m5 open deny 6 never N - never", reply: b"ok edit=5 rules=1" },
    Row { line: b"disable m6 label L install", reply: b"ok edit=6 rules=2" },
    Row { line: b"remove m7 label L install", reply: b"ok edit=7 rules=2" },
    Row { line: b"expire m8 label L any 2000000000", reply: b"ok edit=8 rules=1" },
    Row { line: b"remove m9 id 5 any", reply: b"ok edit=9 rules=1" },
    Row { line: b"disable m10 label M any", reply: b"ok edit=10 rules=1" },
    Row { line: b"remove m11 id 3 execute", reply: b"ok edit=11 rules=1" },
];

/// The edits over a keeper, up to this place by one desk, and from there on by another that is loaded then: each load
/// gives a desk like the one that made the edits.
fn is_loaded_at(alloc: Global, place: usize) -> bool {
    let Some(mut keeper) = failing(alloc, 1_000) else {
        return false;
    };
    let Some((before, behind)) = OF_A_LABEL.split_at_checked(place) else {
        return false;
    };
    let Some(mut desk) = opened(alloc, &mut keeper) else {
        return false;
    };
    let replied = all_replied(alloc, &mut desk, &mut keeper, before);
    let goes_on = goes_on(alloc, &desk, &mut keeper, behind);
    replied && goes_on
}

fn is_loaded_everywhere(alloc: Global) -> bool {
    let mut all = true;
    for place in 0..OF_A_LABEL.len() {
        let is = is_loaded_at(alloc, place);
        all = all && is;
    }
    all
}

#[test]
fn rules_of_a_label_are_kept_as_the_desk_has_them(rt: HostRuntime) {
    assert!(rt; is_loaded_everywhere(rt.alloc()));
}

fn no_desk(alloc: Global) -> bool {
    match failing(alloc, 1) {
        None => false,
        Some(mut keeper) => opened(alloc, &mut keeper).is_none() && keeper.faults() == 1,
    }
}

#[test]
fn a_load_that_fails_gives_no_desk(rt: HostRuntime) {
    assert!(rt; no_desk(rt.alloc()));
}
