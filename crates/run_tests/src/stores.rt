//! Runs one after the other over one keeper, and stores that are refused.

use crate::devices::{clock, numbers, sink, source};
use gk_io::{CallNumbers, MemoryFile, MemoryShelf};
use line_text::Bytes;
use memory_keeper::MemoryKeeper;
use raw_tables::{RawReceipt, RawReceipts, RawRule, RawRules, RawTables};
use spctl_cli::{Status, run};
use std::alloc::{AllocError, Global};
use std::test::Fail;

/// Whether a run over the keeper ends so and writes just this, with these lines to read and without files.
fn is_run(
    alloc: Global,
    keeper: &mut MemoryKeeper,
    words: &[&str],
    lines: &[u8],
    end: Status,
    written: &[u8],
) -> Result<bool, AllocError> {
    let mut input = source(alloc, lines, &[])?;
    let mut output = sink(alloc, &[])?;
    let files: Vec<MemoryFile> = Vec::new(alloc);
    let mut shelf = MemoryShelf::new(files, CallNumbers::new(alloc));
    let mut time = clock(alloc, 0, &[])?;
    let ended = run(
        alloc,
        words,
        &mut input,
        &mut output,
        &mut shelf,
        keeper,
        &mut time,
    );
    drop(input);
    let is = ended == end && output.written() == written;
    drop(output);
    Ok(is)
}

/// Whether each of these runs over one new keeper ends so and writes just this.
fn are_runs(
    alloc: Global,
    failing: &[u64],
    runs: &[(&[&str], &[u8], Status, &[u8])],
) -> Result<bool, AllocError> {
    let mut keeper = MemoryKeeper::with(no_rows(alloc, 1), numbers(alloc, failing)?);
    let mut all = true;
    for (words, lines, end, written) in runs {
        let is = is_run(alloc, &mut keeper, words, lines, *end, written)?;
        all = all && is;
    }
    drop(keeper);
    Ok(all)
}

/// An empty store of this format.
fn no_rows(alloc: Global, format: i64) -> RawTables {
    RawTables {
        format,
        switch: 1,
        receipts: RawReceipts::new(alloc),
        rules: RawRules::new(alloc),
    }
}

const STORE: &str = "any store";

// Each row is a run: its words, its input, its status and its output. The third is refused what the second had, and
// the last but one makes its own store.
#[rattlefmt::skip]
const ADDED: [(&[&str], &[u8], Status, &[u8]); 10] = [
    (&["--", STORE, "add", "i1", "execute", "allow", "10", "never", "Developer%20ID", "default", "anchor", "apple", "generic"], b"", Status::Fine, b"ok edit=1 rules=1\n"),
    (&["--", STORE, "add", "i2", "execute", "deny", "20.5", "4000000000", "-", "-", "identifier", "\"com.bad.app\""], b"", Status::Fine, b"ok edit=2 rules=1\n"),
    (&["--", STORE, "add", "i2", "execute", "deny", "1", "never", "-", "-", "always"], b"", Status::Refused, b"refused edit 12 KeyReused edit=2 rules=1\n"),
    (&["--", STORE, "add", "i3", "install", "allow", "-1", "never", "Own", "-", "always"], b"", Status::Fine, b"ok edit=3 rules=1\n"),
    (&["--", STORE, "add", "i4", "install", "allow", "1", "now", "Own", "-", "always"], b"", Status::Refused, b"refused line 4 BadMoment\n"),
    (&[STORE, "list"], b"", Status::Fine,
        b"rule=2 type=execute verdict=deny priority=20.5 disabled=0 expires=4000000000 flags=- label=- require=identifier%20\"com.bad.app\"\nrule=1 type=execute verdict=allow priority=10 disabled=0 expires=never flags=default label=Developer%20ID require=anchor%20apple%20generic\nrule=3 type=install verdict=allow priority=-1 disabled=0 expires=never flags=- label=Own require=always\n"),
    (&[STORE, "session"], b"assess install 1111111111111111111111111111111111111111 com.example.app 0\nswitch off off\n", Status::Fine,
        b"accepted at=0 rule=3 latent=none label=Own override=none source=rules cache=kept\nok edit=4 rules=0\n"),
    (&[STORE, "status"], b"", Status::Fine, b"assessments disabled\n"),
    (&[STORE, "rehearse", "31"], b"", Status::Fine, b"steps=31 accepted=0 rejected=8 cache=0 kept=7 moved=1 edits=5 refused=5\n"),
    (&[STORE, "switch", "on", "on"], b"", Status::Fine, b"ok edit=5 rules=0\n"),
];

#[test]
fn runs_over_one_store_go_on_from_each_other(rt: HostRuntime) -> Result<(), Fail> {
    let is = are_runs(rt.alloc(), &[], &ADDED)?;
    assert!(rt; is);
    Ok(())
}

// The keeper's third call fails, whatever it is: the first of each run loads.
#[rattlefmt::skip]
const ONE_EDIT_FAILS: [(&[&str], &[u8], Status, &[u8]); 2] = [
    (&[STORE, "session"],
        b"add a execute allow 0 never - - always\nadd b execute deny 1 never - - never\nadd b execute deny 1 never - - never\n", Status::Fine,
        b"ok edit=1 rules=1\nrefused edit 16 KeeperFault\nok edit=2 rules=1\n"),
    (&[STORE, "session"], b"status\n", Status::Fine, b"status assessments=enabled rules=2 receipts=2 objects=0 now=0\n"),
];

#[rattlefmt::skip]
const A_COMMAND_FAILS: [(&[&str], &[u8], Status, &[u8]); 3] = [
    (&[STORE, "switch", "a", "off"], b"", Status::Fine, b"ok edit=1 rules=0\n"),
    (&[STORE, "status"], b"", Status::KeeperFault, b"fault KeeperFault\n"),
    (&[STORE, "status"], b"", Status::Fine, b"assessments disabled\n"),
];

#[rattlefmt::skip]
const A_SESSION_FAILS: [(&[&str], &[u8], Status, &[u8]); 2] = [
    (&[STORE, "status"], b"", Status::Fine, b"assessments enabled\n"),
    (&[STORE, "switch", "a", "off"], b"", Status::Refused, b"refused edit 16 KeeperFault\n"),
];

#[test]
fn a_call_of_the_keeper_that_fails_is_told(rt: HostRuntime) -> Result<(), Fail> {
    let edit = are_runs(rt.alloc(), &[3], &ONE_EDIT_FAILS)?;
    let load = are_runs(rt.alloc(), &[3], &A_COMMAND_FAILS)?;
    let command = are_runs(rt.alloc(), &[3], &A_SESSION_FAILS)?;
    assert!(rt; edit && load && command);
    Ok(())
}

/// A store with one rule, of id 7, and no receipt.
fn an_orphan(alloc: Global) -> Result<RawTables, AllocError> {
    let mut tables = no_rows(alloc, 1);
    let label = Bytes::copy_of(alloc, b"")?;
    let requirement = Bytes::copy_of(alloc, b"always")?;
    tables.rules.push(RawRule {
        id: 7,
        kind: 1,
        allow: 1,
        disabled: 0,
        expires: None,
        priority: 0,
        flags: 0,
        label,
        requirement,
    })?;
    Ok(tables)
}

/// A store whose one receipt has this number.
fn a_receipt(alloc: Global, num: i64) -> Result<RawTables, AllocError> {
    let mut tables = no_rows(alloc, 1);
    let key = Bytes::copy_of(alloc, b"k")?;
    let content = Bytes::copy_of(alloc, b"switch off")?;
    tables.receipts.push(RawReceipt {
        num,
        key,
        content,
        rules: 0,
    })?;
    Ok(tables)
}

/// Whether each command that asks for the store says that it is bad, and changes nothing.
fn is_refused(alloc: Global, tables: RawTables, line: &[u8]) -> Result<bool, AllocError> {
    let mut keeper = MemoryKeeper::with(tables, CallNumbers::new(alloc));
    let mut all = true;
    for words in [["s", "status"], ["s", "list"], ["s", "session"]] {
        let is = is_run(
            alloc,
            &mut keeper,
            &words,
            b"tick 1\n",
            Status::BadStore,
            line,
        )?;
        all = all && is;
    }
    drop(keeper);
    Ok(all)
}

#[test]
fn a_bad_store_is_told_by_its_first_bad_row(rt: HostRuntime) -> Result<(), Fail> {
    let format = is_refused(
        rt.alloc(),
        no_rows(rt.alloc(), 3),
        b"fault BadStore format\n",
    )?;
    let orphan = an_orphan(rt.alloc())?;
    let rule = is_refused(rt.alloc(), orphan, b"fault BadStore rule=7\n")?;
    let second = a_receipt(rt.alloc(), 2)?;
    let receipt = is_refused(rt.alloc(), second, b"fault BadStore receipt=2\n")?;
    let below = a_receipt(rt.alloc(), -9_223_372_036_854_775_808)?;
    let least = is_refused(
        rt.alloc(),
        below,
        b"fault BadStore receipt=-9223372036854775808\n",
    )?;
    assert!(rt; format && rule && receipt && least);
    Ok(())
}
