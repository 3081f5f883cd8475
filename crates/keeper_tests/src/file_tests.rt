//! Keepers over a SQLite file.

use crate::rows::{LINES, RECEIPTS, RULES, all_applied, are_stored};
use policy_keeper::{KeepFault, Keeper};
use sql_keeper::{ProgramKeeper, SqlKeeper};
use sqlite::Connection;
use std::alloc::Global;
use std::{env, fs, process};

/// The path of a file of this name that no other run has.
fn path(rt: &HostRuntime, name: &str) -> Option<String> {
    let Ok(folder) = env::temp_dir(rt) else {
        return None;
    };
    let run = process::id(rt.process());
    match format!(in rt.alloc(); "{}/sugdrof-{run}-{name}", folder.display()) {
        Ok(path) => Some(path),
        Err(_) => None,
    }
}

/// Removes a store's file and its log.
fn remove(rt: &HostRuntime, path: &str) {
    let _ = fs::remove_file(rt, path);
    if let Ok(log) = format!(in rt.alloc(); "{path}-wal") {
        let _ = fs::remove_file(rt, log.as_str());
    }
}

/// Makes all changes in the file, and closes it.
fn is_written(rt: &HostRuntime, path: &str) -> bool {
    let alloc = rt.alloc();
    let Ok(connection) = Connection::open(rt, path) else {
        return false;
    };
    let mut keeper = SqlKeeper::adopt(connection);
    let new = are_stored(alloc, &mut keeper, 1, &[], &[]);
    let made = all_applied(alloc, &mut keeper, &LINES);
    let closed = keeper.release().close().is_ok();
    new && made && closed
}

/// Whether a keeper named by the file gives the rows, two times over.
fn is_found(rt: &HostRuntime, path: &str) -> bool {
    let alloc = rt.alloc();
    let mut keeper = ProgramKeeper::named(rt, path);
    let first = are_stored(alloc, &mut keeper, 0, &RECEIPTS, &RULES);
    let second = are_stored(alloc, &mut keeper, 0, &RECEIPTS, &RULES);
    keeper.close();
    first && second
}

/// Whether a keeper named by the file fails while another one has it open.
fn is_locked(rt: &HostRuntime, path: &str) -> bool {
    let mut first = ProgramKeeper::named(rt, path);
    let opened = are_stored(rt.alloc(), &mut first, 0, &RECEIPTS, &RULES);
    let fails = each_load_fails(rt, path);
    first.close();
    opened && fails
}

fn rows_outlast_the_run(rt: &HostRuntime) -> bool {
    let Some(path) = path(rt, "kept.db") else {
        return false;
    };
    let written = is_written(rt, path.as_str());
    let first = is_found(rt, path.as_str());
    let locked = is_locked(rt, path.as_str());
    let second = is_found(rt, path.as_str());
    remove(rt, path.as_str());
    written && first && locked && second
}

#[test]
fn rows_in_a_file_are_given_to_each_later_run_but_one_at_a_time(rt: HostRuntime) {
    assert!(rt; rows_outlast_the_run(&rt));
}

/// Whether each load of a keeper named so fails.
fn each_load_fails(rt: &HostRuntime, name: &str) -> bool {
    let alloc = rt.alloc();
    let mut keeper = ProgramKeeper::named(rt, name);
    let first = load_fails(alloc, &mut keeper);
    let second = load_fails(alloc, &mut keeper);
    first && second
}

fn load_fails<K: Keeper>(alloc: Global, keeper: &mut K) -> bool {
    match keeper.load(alloc) {
        Ok(tables) => {
            drop(tables);
            false
        }
        Err(fault) => fault == KeepFault::Failed,
    }
}

/// In a folder that isn't there, a folder itself, a file that can't be written to, no name, and names of other things.
#[rattlefmt::skip]
const NO_STORES: [&str; 5] = ["/dev/no such folder/x.db", "/dev", "/proc/version", "", "file:x.db"];

fn all_loads_fail(rt: &HostRuntime) -> bool {
    let mut all = true;
    for name in NO_STORES {
        let fails = each_load_fails(rt, name);
        all = all && fails;
    }
    all
}

#[test]
fn a_store_that_cannot_be_opened_fails_at_each_call(rt: HostRuntime) {
    assert!(rt; all_loads_fail(&rt));
}

fn other_bytes_fail(rt: &HostRuntime) -> bool {
    let Some(path) = path(rt, "other.db") else {
        return false;
    };
    let bytes: &[u8] = b"These bytes are no database.\n";
    let written = fs::write(rt, path.as_str(), bytes).is_ok();
    let fails = each_load_fails(rt, path.as_str());
    remove(rt, path.as_str());
    written && fails
}

#[test]
fn a_file_that_is_no_database_fails(rt: HostRuntime) {
    assert!(rt; other_bytes_fail(&rt));
}

/// Cuts the file off after its first 5,000 bytes.
fn is_cut(rt: &HostRuntime, path: &str) -> bool {
    let Ok(bytes) = fs::read(rt, path) else {
        return false;
    };
    match bytes.get(..5000) {
        None => false,
        Some(front) => fs::write(rt, path, front).is_ok(),
    }
}

fn a_front_fails(rt: &HostRuntime) -> bool {
    let Some(path) = path(rt, "cut.db") else {
        return false;
    };
    let written = is_written(rt, path.as_str());
    let cut = is_cut(rt, path.as_str());
    let fails = each_load_fails(rt, path.as_str());
    remove(rt, path.as_str());
    written && cut && fails
}

#[test]
fn a_store_that_was_cut_short_fails(rt: HostRuntime) {
    assert!(rt; a_front_fails(&rt));
}

fn is_in_memory(rt: &HostRuntime) -> bool {
    let mut keeper = ProgramKeeper::named(rt, ":memory:");
    are_stored(rt.alloc(), &mut keeper, 1, &[], &[])
}

#[test]
fn a_store_in_memory_is_named_so(rt: HostRuntime) {
    assert!(rt; is_in_memory(&rt));
}
