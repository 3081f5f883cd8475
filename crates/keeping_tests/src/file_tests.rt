//! Edits over a file, in several runs.

use crate::desk::{ROWS, Row, all_replied, are_alike, opened};
use sql_keeper::ProgramKeeper;
use std::{env, fs};

/// The path of a file of this name that no other run has.
fn path(rt: &HostRuntime, name: &str) -> Option<String> {
    let Ok(folder) = env::temp_dir(rt) else {
        return None;
    };
    let run = std::process::id(rt.process());
    match format!(in rt.alloc(); "{}/sugdrof-{run}-{name}", folder.display()) {
        Ok(path) => Some(path),
        Err(_) => None,
    }
}

/// Removes a store's file and its log.
fn remove(rt: &HostRuntime, path: &str) {
    let _ = fs::remove_file(rt, path);
    if let Ok(log) = format!(in rt.alloc(); "{path}-wal") {
        let _ = fs::remove_file(rt, log.as_str());
    }
}

/// Whether a run over the file replies so.
fn runs(rt: &HostRuntime, path: &str, rows: &[Row]) -> bool {
    let alloc = rt.alloc();
    let mut keeper = ProgramKeeper::named(rt, path);
    let replied = match opened(alloc, &mut keeper) {
        None => false,
        Some(mut desk) => {
            let replied = all_replied(alloc, &mut desk, &mut keeper, rows);
            let same = match opened(alloc, &mut keeper) {
                None => false,
                Some(other) => are_alike(alloc, &desk, &other),
            };
            replied && same
        }
    };
    keeper.close();
    replied
}

// What a later run replies: some of the edits again, one under a kept key, and one more.
#[rattlefmt::skip]
const LATER: [Row; 4] = [
    Row { line: b"disable k3 label L any", reply: b"repeated edit=3 rules=1" },
    Row { line: b"remove k7 label Own%20%FF install", reply: b"repeated edit=7 rules=1" },
    Row { line: b"switch k8 on", reply: b"refused edit 12 KeyReused edit=8 rules=1" },
    Row { line: b"disable k9 label L any", reply: b"ok edit=9 rules=1" },
];

fn later_runs_go_on(rt: &HostRuntime) -> bool {
    let Some(path) = path(rt, "runs.db") else {
        return false;
    };
    let first = runs(rt, path.as_str(), &ROWS);
    let second = runs(rt, path.as_str(), &LATER);
    remove(rt, path.as_str());
    first && second
}

#[test]
fn a_later_run_over_the_file_goes_on_where_the_first_ended(rt: HostRuntime) {
    assert!(rt; later_runs_go_on(&rt));
}
