//! Rehearsals, and the counts that they print, against those of a program in another language that was written from
//! the description of the desk.

use rehearse_command::rehearse;
use run_status::Status;
use std::alloc::Global;

// Steps, and the line that is printed.
#[rattlefmt::skip]
const ROWS: [(u32, &[u8]); 7] = [
    (1, b"steps=1 accepted=0 rejected=0 cache=0 kept=0 moved=0 edits=0 refused=0\n"),
    (12, b"steps=12 accepted=0 rejected=2 cache=0 kept=2 moved=0 edits=0 refused=5\n"),
    (31, b"steps=31 accepted=0 rejected=8 cache=0 kept=7 moved=1 edits=5 refused=5\n"),
    (100, b"steps=100 accepted=14 rejected=15 cache=0 kept=28 moved=1 edits=13 refused=37\n"),
    (1000, b"steps=1000 accepted=169 rejected=120 cache=14 kept=214 moved=54 edits=107 refused=386\n"),
    (3000, b"steps=3000 accepted=547 rejected=339 cache=173 kept=614 moved=86 edits=375 refused=1134\n"),
    (10000, b"steps=10000 accepted=636 rejected=2398 cache=902 kept=1869 moved=219 edits=1220 refused=3743\n"),
];

fn is_printed(alloc: Global, steps: u32, want: &[u8]) -> bool {
    match rehearse(alloc, steps) {
        Ok(said) => said.status == Status::Fine && said.text.as_slice() == want,
        Err(_) => false,
    }
}

fn rows_are_printed(alloc: Global) -> bool {
    for (steps, want) in ROWS {
        if !is_printed(alloc, steps, want) {
            return false;
        }
    }
    true
}

#[test]
fn counts_are_printed(rt: HostRuntime) {
    assert!(rt; rows_are_printed(rt.alloc()));
}
