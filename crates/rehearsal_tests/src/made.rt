//! The lines and facts of rehearsals, against those of a program in another language that was written from the
//! description of the format.

use rehearsal::{Rehearsal, facts_text, session_text};
use std::alloc::Global;

// Steps, and the whole session.
#[rattlefmt::skip]
const SESSIONS: [(u32, &[u8]); 3] = [
    (1, b"begin 4 execute 1414141414141414141414141414141414141414 a20 2\n"),
    (12, b"begin 31 install 2a2a2a2a2a2a2a2a2a2a2a2a2a2a2a2a2a2a2a2a a42 3\nfinish 50\nassess open 1515151515151515151515151515151515151515 a21 3\nfinish 39\nfinish 12\nfinish 29\nbegin 8 execute 0202020202020202020202020202020202020202 a2 3\nbegin 13 open 2323232323232323232323232323232323232323 a35 1\nassess open 1313131313131313131313131313131313131313 a19 1\ntick 15\nbegin 50 open 1212121212121212121212121212121212121212 a18 1\nfinish 30\n"),
    (31, b"tick 27\nenable k2 id 1 any\nbegin 13 install 0d0d0d0d0d0d0d0d0d0d0d0d0d0d0d0d0d0d0d0d a13 2\nassess open 0f0f0f0f0f0f0f0f0f0f0f0f0f0f0f0f0f0f0f0f a15 0\nbegin 12 open 1616161616161616161616161616161616161616 a22 1\nbegin 1 open 1c1c1c1c1c1c1c1c1c1c1c1c1c1c1c1c1c1c1c1c a28 1\nbegin 46 open 1d1d1d1d1d1d1d1d1d1d1d1d1d1d1d1d1d1d1d1d a29 1\ntick 33\nassess open 1414141414141414141414141414141414141414 a20 0\ndisable k10 id 7 any\nadd k11 execute deny 3 never L4 - identifier a34\nadd k12 install deny 22 907 L3 - platform = 2\ntick 46\nassess open 0909090909090909090909090909090909090909 a9 1\nadd k15 open deny 26 never L3 - identifier a17\nassess open 1b1b1b1b1b1b1b1b1b1b1b1b1b1b1b1b1b1b1b1b a27 2\nbegin 43 execute 2323232323232323232323232323232323232323 a35 3\ntick 66\nbegin 15 install 2323232323232323232323232323232323232323 a35 0\nassess install 1717171717171717171717171717171717171717 a23 3\nadd k21 open allow 38 never L7 - always\nbegin 43 execute 2f2f2f2f2f2f2f2f2f2f2f2f2f2f2f2f2f2f2f2f a47 0\nbegin 7 execute 0c0c0c0c0c0c0c0c0c0c0c0c0c0c0c0c0c0c0c0c a12 3\nassess install 1111111111111111111111111111111111111111 a17 0\ndisable k25 id 8 any\ntick 74\nfinish 45\ntick 86\nfinish 12\nassess install 0303030303030303030303030303030303030303 a3 2\nadd k31 execute deny 65 never L5 - notarized\n"),
];

// Steps, the session's bytes, and their Adler-32 as zlib computes it.
#[rattlefmt::skip]
const SUMS: [(u32, usize, u32); 5] = [
    (1, 63, 321392304),
    (31, 1277, 480861711),
    (100, 3644, 3088833796),
    (1000, 36673, 992600350),
    (10000, 375942, 707965929),
];

/// The bytes of the facts file and their Adler-32, and its first bytes.
const FACTS_BYTES: usize = 1508;

const FACTS_SUM: u32 = 4283928641;

const FACTS_FRONT: &[u8] =
    b"cdhash,scope,slot,key,kind,value\n0000000000000000000000000000000000000000,flag,,notarized,,\n0202020202020202020202020202020202020202,flag,,notarized,,\n";

/// Adler-32 of RFC 1950.
fn adler32(bytes: &[u8]) -> u32 {
    let mut low: u32 = 1;
    let mut high: u32 = 0;
    for byte in bytes {
        low = (low % 65_521 + u32::from(*byte)) % 65_521;
        high = (high % 65_521 + low) % 65_521;
    }
    (high % 65_536) * 65_536 + low % 65_536
}

fn sessions_are_written(alloc: Global) -> bool {
    for (steps, lines) in SESSIONS {
        let Ok(text) = session_text(alloc, steps) else {
            return false;
        };
        if text.as_slice() != lines {
            return false;
        }
    }
    true
}

#[test]
fn sessions_are_those_of_the_description(rt: HostRuntime) {
    assert!(rt; sessions_are_written(rt.alloc()));
}

fn sums_are_right(alloc: Global) -> bool {
    for (steps, length, sum) in SUMS {
        let Ok(text) = session_text(alloc, steps) else {
            return false;
        };
        if text.as_slice().len() != length || adler32(text.as_slice()) != sum {
            return false;
        }
    }
    true
}

#[test]
fn long_sessions_are_those_of_the_description(rt: HostRuntime) {
    assert!(rt; sums_are_right(rt.alloc()));
}

fn facts_are_right(alloc: Global) -> bool {
    let Ok(text) = facts_text(alloc) else {
        return false;
    };
    let bytes = text.as_slice();
    bytes.starts_with(FACTS_FRONT) && bytes.len() == FACTS_BYTES && adler32(bytes) == FACTS_SUM
}

#[test]
fn each_second_hash_is_notarized(rt: HostRuntime) {
    assert!(rt; facts_are_right(rt.alloc()));
}

/// The lines come one by one, and then no more.
fn lines_come_in_turn() -> bool {
    let mut rehearsal = Rehearsal::of(2);
    let first = rehearsal.next_line()
        && rehearsal.line() == b"add k1 execute allow 4 never L3 - notarized".as_slice();
    let second = rehearsal.next_line()
        && rehearsal.line()
            == b"assess execute 0202020202020202020202020202020202020202 a2 3".as_slice();
    first && second && !rehearsal.next_line()
}

#[test]
fn two_steps_are_two_lines(rt: HostRuntime) {
    assert!(rt; lines_come_in_turn());
}
