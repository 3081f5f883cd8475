//! A keeper over a SQLite store in memory.

use crate::rows::{
    LINES, Line, RECEIPTS, RULES, RULES_AFTER_FIVE, all_applied, applied, are_stored,
};
use policy_keeper::{KeepFault, Keeper};
use sql_keeper::SqlKeeper;
use sqlite::{Connection, MemStore};
use std::alloc::Global;

/// A keeper over a new store.
fn keeper(alloc: Global) -> Option<SqlKeeper<MemStore>> {
    match Connection::open_in_memory(alloc) {
        Ok(connection) => Some(SqlKeeper::adopt(connection)),
        Err(_) => None,
    }
}

fn rows_are_kept(alloc: Global) -> bool {
    let Some(mut keeper) = keeper(alloc) else {
        return false;
    };
    let new = are_stored(alloc, &mut keeper, 1, &[], &[]);
    let (first, last) = LINES.split_at(5);
    let made = all_applied(alloc, &mut keeper, first);
    let half = are_stored(
        alloc,
        &mut keeper,
        1,
        RECEIPTS.split_at(5).0,
        &RULES_AFTER_FIVE,
    );
    let more = all_applied(alloc, &mut keeper, last);
    let all = are_stored(alloc, &mut keeper, 0, &RECEIPTS, &RULES);
    let again = are_stored(alloc, &mut keeper, 0, &RECEIPTS, &RULES);
    new && made && half && more && all && again && keeper.faults() == 0
}

#[test]
fn edits_of_every_kind_are_kept_row_by_row(rt: HostRuntime) {
    assert!(rt; rows_are_kept(rt.alloc()));
}

fn rows_outlast_the_keeper(alloc: Global) -> bool {
    let Some(mut keeper) = keeper(alloc) else {
        return false;
    };
    let new = are_stored(alloc, &mut keeper, 1, &[], &[]);
    let made = all_applied(alloc, &mut keeper, &LINES);
    let mut next = SqlKeeper::adopt(keeper.release());
    new && made && are_stored(alloc, &mut next, 0, &RECEIPTS, &RULES)
}

#[test]
fn a_second_keeper_over_the_store_gives_the_rows(rt: HostRuntime) {
    assert!(rt; rows_outlast_the_keeper(rt.alloc()));
}

/// A second edit under the first one's key, which the store refuses.
const SAME_KEY: Line = Line {
    number: 6,
    text: b"add k1 open deny 0 never - - never",
    touched: 1,
};

fn a_refused_change_leaves_nothing(alloc: Global) -> bool {
    let Some(mut keeper) = keeper(alloc) else {
        return false;
    };
    let new = are_stored(alloc, &mut keeper, 1, &[], &[]);
    let made = all_applied(alloc, &mut keeper, LINES.split_at(5).0);
    let refused = applied(alloc, &mut keeper, &SAME_KEY) == Some(Err(KeepFault::Failed));
    let counted = keeper.faults() == 1;
    let kept = are_stored(
        alloc,
        &mut keeper,
        1,
        RECEIPTS.split_at(5).0,
        &RULES_AFTER_FIVE,
    );
    new && made && refused && counted && kept && keeper.faults() == 1
}

#[test]
fn neither_row_of_a_refused_change_is_kept(rt: HostRuntime) {
    assert!(rt; a_refused_change_leaves_nothing(rt.alloc()));
}

fn no_tables_yet(alloc: Global) -> bool {
    let Some(mut keeper) = keeper(alloc) else {
        return false;
    };
    let refused = applied(alloc, &mut keeper, &SAME_KEY) == Some(Err(KeepFault::Failed));
    let new = are_stored(alloc, &mut keeper, 1, &[], &[]);
    refused && new && keeper.faults() == 1
}

#[test]
fn a_change_before_the_first_load_is_refused(rt: HostRuntime) {
    assert!(rt; no_tables_yet(rt.alloc()));
}

/// Whether the first load over a store that these statements made fails, and is counted.
fn fails_over(alloc: Global, statements: &str) -> bool {
    let Ok(mut connection) = Connection::open_in_memory(alloc) else {
        return false;
    };
    if connection.execute_batch(statements).is_err() {
        return false;
    }
    if !connection.is_autocommit() {
        return false;
    }
    let mut keeper = SqlKeeper::adopt(connection);
    match keeper.load(alloc) {
        Ok(tables) => {
            drop(tables);
            false
        }
        Err(fault) => fault == KeepFault::Failed && keeper.faults() == 1,
    }
}

// Another table of that name, and values of other types than their columns ask for.
#[rattlefmt::skip]
const BAD_STORES: [&str; 4] = [
    "CREATE TABLE meta(other TEXT)",
    "CREATE TABLE receipt(num INTEGER PRIMARY KEY, edit_key TEXT NOT NULL UNIQUE, content BLOB NOT NULL, rules INTEGER NOT NULL); INSERT INTO receipt VALUES (1, 'k', 'text', 1)",
    "CREATE TABLE receipt(num INTEGER PRIMARY KEY, edit_key TEXT NOT NULL UNIQUE, content BLOB NOT NULL, rules INTEGER NOT NULL); INSERT INTO receipt VALUES (1, 'k', x'61', 1.5)",
    "CREATE TABLE meta(name TEXT PRIMARY KEY, value INTEGER NOT NULL); INSERT INTO meta VALUES ('format', 'one')",
];

fn all_fail(alloc: Global) -> bool {
    let mut all = true;
    for statements in BAD_STORES {
        let fails = fails_over(alloc, statements);
        all = all && fails;
    }
    all
}

#[test]
fn a_store_of_another_shape_fails(rt: HostRuntime) {
    assert!(rt; all_fail(rt.alloc()));
}
