//! Changes as lines ask for them, and stored rows as they are wanted.

use policy_keeper::{Change, KeepFault, Keeper};
use raw_tables::{RawReceipt, RawRule, RawTables};
use rule_edits::read_edit_line;
use sql_keeper::SqlKeeper;
use sqlite::Alter;
use std::alloc::Global;

/// An edit's line, with the number and the count of rules that its change has.
pub(crate) struct Line {
    pub(crate) number: u32,
    pub(crate) text: &'static [u8],
    pub(crate) touched: u32,
}

/// Edits of every kind, and rules that are named in each way.
#[rattlefmt::skip]
pub(crate) const LINES: [Line; 11] = [
    Line { number: 1, text: b"add k1 install allow 20.5 4000000000 Own%20%FF default always", touched: 1 },
    Line { number: 2, text: b"add k2 execute deny -1 never L - never", touched: 1 },
    Line { number: 3, text: b"disable k3 label L any", touched: 1 },
    Line { number: 4, text: b"disable k4 id 2 execute", touched: 1 },
    Line { number: 5, text: b"expire k5 id 1 any 17", touched: 1 },
    Line { number: 6, text: b"switch k6 off", touched: 0 },
    Line { number: 7, text: b"add k7 execute allow 0 99 L inhibit always", touched: 1 },
    Line { number: 8, text: b"disable k8 label L execute", touched: 2 },
    Line { number: 9, text: b"enable k9 id 2 any", touched: 1 },
    Line { number: 10, text: b"remove k10 label Own%20%FF install", touched: 1 },
    Line { number: 11, text: b"expire k11 label L any never", touched: 2 },
];

/// A stored receipt as it is wanted.
pub(crate) struct Receipt {
    pub(crate) num: i64,
    pub(crate) key: &'static [u8],
    pub(crate) content: &'static [u8],
    pub(crate) rules: i64,
}

/// The receipts of those edits.
#[rattlefmt::skip]
pub(crate) const RECEIPTS: [Receipt; 11] = [
    Receipt { num: 1, key: b"k1", content: b"add install allow 20.5 4000000000 Own%20%FF default always", rules: 1 },
    Receipt { num: 2, key: b"k2", content: b"add execute deny -1 never L - never", rules: 1 },
    Receipt { num: 3, key: b"k3", content: b"disable label L any", rules: 1 },
    Receipt { num: 4, key: b"k4", content: b"disable id 2 execute", rules: 1 },
    Receipt { num: 5, key: b"k5", content: b"expire id 1 any 17", rules: 1 },
    Receipt { num: 6, key: b"k6", content: b"switch off", rules: 0 },
    Receipt { num: 7, key: b"k7", content: b"add execute allow 0 99 L inhibit always", rules: 1 },
    Receipt { num: 8, key: b"k8", content: b"disable label L execute", rules: 2 },
    Receipt { num: 9, key: b"k9", content: b"enable id 2 any", rules: 1 },
    Receipt { num: 10, key: b"k10", content: b"remove label Own%20%FF install", rules: 1 },
    Receipt { num: 11, key: b"k11", content: b"expire label L any never", rules: 2 },
];

/// A stored rule as it is wanted.
pub(crate) struct Rule {
    pub(crate) id: i64,
    pub(crate) kind: i64,
    pub(crate) allow: i64,
    pub(crate) disabled: i64,
    pub(crate) expires: Option<i64>,
    pub(crate) priority: i64,
    pub(crate) flags: i64,
    pub(crate) label: &'static [u8],
    pub(crate) requirement: &'static [u8],
}

/// The rules after the first five edits.
#[rattlefmt::skip]
pub(crate) const RULES_AFTER_FIVE: [Rule; 2] = [
    Rule { id: 1, kind: 2, allow: 1, disabled: 0, expires: Some(17), priority: 20_500_000, flags: 2, label: b"Own \xff", requirement: b"always" },
    Rule { id: 2, kind: 1, allow: 0, disabled: 2, expires: None, priority: -1_000_000, flags: 0, label: b"L", requirement: b"never" },
];

/// The rules after all of them.
#[rattlefmt::skip]
pub(crate) const RULES: [Rule; 2] = [
    Rule { id: 2, kind: 1, allow: 0, disabled: 0, expires: None, priority: -1_000_000, flags: 0, label: b"L", requirement: b"never" },
    Rule { id: 7, kind: 1, allow: 1, disabled: 1, expires: None, priority: 0, flags: 4, label: b"L", requirement: b"always" },
];

fn is_receipt(row: &RawReceipt, wanted: &Receipt) -> bool {
    let numbers = row.num == wanted.num && row.rules == wanted.rules;
    let key = row.key.as_slice() == wanted.key;
    let content = row.content.as_slice() == wanted.content;
    numbers && key && content
}

fn is_rule(row: &RawRule, wanted: &Rule) -> bool {
    let what = row.id == wanted.id && row.kind == wanted.kind && row.allow == wanted.allow;
    let when = row.disabled == wanted.disabled && row.expires == wanted.expires;
    let how = row.priority == wanted.priority && row.flags == wanted.flags;
    let label = row.label.as_slice() == wanted.label;
    let requirement = row.requirement.as_slice() == wanted.requirement;
    what && when && how && label && requirement
}

fn are_receipts(rows: &[RawReceipt], wanted: &[Receipt]) -> bool {
    let mut all = rows.len() == wanted.len();
    for (row, wanted) in rows.iter().zip(wanted) {
        all = all && is_receipt(row, wanted);
    }
    all
}

fn are_rules(rows: &[RawRule], wanted: &[Rule]) -> bool {
    let mut all = rows.len() == wanted.len();
    for (row, wanted) in rows.iter().zip(wanted) {
        all = all && is_rule(row, wanted);
    }
    all
}

/// Whether these are the rows of a store of format 1.
pub(crate) fn are_tables(
    tables: &RawTables,
    switch: i64,
    receipts: &[Receipt],
    rules: &[Rule],
) -> bool {
    let head = tables.format == 1 && tables.switch == switch;
    let receipts = are_receipts(tables.receipts.as_slice(), receipts);
    let rules = are_rules(tables.rules.as_slice(), rules);
    head && receipts && rules
}

/// Whether a load gives just these rows.
pub(crate) fn are_stored<K: Keeper>(
    alloc: Global,
    keeper: &mut K,
    switch: i64,
    receipts: &[Receipt],
    rules: &[Rule],
) -> bool {
    match keeper.load(alloc) {
        Ok(tables) => are_tables(&tables, switch, receipts, rules),
        Err(_) => false,
    }
}

/// What a change comes to, or none where the line is no edit.
pub(crate) fn applied<F: Alter>(
    alloc: Global,
    keeper: &mut SqlKeeper<F>,
    line: &Line,
) -> Option<Result<(), KeepFault>> {
    let Ok(edit) = read_edit_line(alloc, line.text) else {
        return None;
    };
    let change = Change {
        number: line.number,
        edit,
        touched: line.touched,
    };
    Some(keeper.apply(alloc, &change))
}

/// Whether all these changes are made.
pub(crate) fn all_applied<F: Alter>(
    alloc: Global,
    keeper: &mut SqlKeeper<F>,
    lines: &[Line],
) -> bool {
    let mut all = true;
    for line in lines {
        let made = applied(alloc, keeper, line) == Some(Ok(()));
        all = all && made;
    }
    all
}
