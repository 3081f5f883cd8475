//! Texts that are sets of requirements, against blobs that were made apart from the program, and how others are refused.

use crate::limits::around;
use crate::refusals::prints;
use crate::rows::{bytes_of, parts};
use req_ops::{encode_set, is_encodable_set};
use req_parser::parse_set;
use req_tree::ReqSet;
use std::alloc::Global;
use std::test::Fail;

// The blob of each text, and the text.
#[rattlefmt::skip]
const SETS: &[u8] = b"fade0c0100000024000000010000000300000014fade0c00000000100000000100000001 designated => always
fade0c010000000c00000000 
fade0c010000000c00000000    /* nothing */ // at all
fade0c0100000024000000010000000100000014fade0c00000000100000000100000001 host => always
fade0c0100000024000000010000000200000014fade0c00000000100000000100000000 guest=>never
fade0c0100000024000000010000000400000014fade0c00000000100000000100000003 library => anchor apple
fade0c0100000024000000010000000500000014fade0c0000000010000000010000000f plugin => anchor apple generic
fade0c010000005800000002000000010000001c000000030000002cfade0c00000000100000000100000000fade0c000000002c0000000100000006000000020000000f636f6d2e6578616d706c652e617070000000000f host => never designated => identifier \"com.example.app\" and anchor apple generic
fade0c010000005800000002000000010000001c000000030000002cfade0c00000000100000000100000000fade0c000000002c0000000100000006000000020000000f636f6d2e6578616d706c652e617070000000000f designated => identifier com.example.app and anchor apple generic host => never
fade0c010000008c0000000500000001000000340000000200000044000000030000005400000004000000640000000500000074fade0c00000000100000000100000001fade0c00000000100000000100000000fade0c00000000100000000100000003fade0c0000000010000000010000000ffade0c000000001800000001000000060000000100000000 host => always guest => never designated => anchor apple library => anchor apple generic plugin => always and never
fade0c010000008c0000000500000001000000340000000200000044000000030000005400000004000000640000000500000074fade0c00000000100000000100000001fade0c00000000100000000100000000fade0c00000000100000000100000003fade0c0000000010000000010000000ffade0c000000001800000001000000060000000100000000 plugin=>always and never library=>anchor apple generic designated=>anchor apple guest=>never host=>always
fade0c010000005c00000002000000010000001c000000020000003cfade0c0000000020000000010000000700000001000000060000000000000015fade0c0000000020000000010000000600000006000000010000000000000015 host => always or never and notarized guest => always and never and notarized
fade0c010000004800000002000000010000001c0000000400000030fade0c0000000014000000010000000900000001fade0c000000001800000001000000090000000900000000 library => !!never host => ! (always)
fade0c010000005c00000002000000020000001c0000000500000034fade0c00000000180000000100000013000000044e616d65fade0c0000000028000000010000000e000000000000000a2a864886f76364060201000000000000 guest => (Name) /* x */ plugin => cert leaf[field.1.2.840.113635.100.6.2.1]
fade0c010000004c00000002000000010000001c0000000200000034fade0c00000000180000000100000013000000044e616d65fade0c0000000018000000010000000200000004686f7374 host => (\"Name\") guest => identifier \"host\"";

// What is printed, and the text.
#[rattlefmt::skip]
const REFUSED: &[u8] = b"6 Syntax token=0|always
6 Syntax token=0|=> always
6 Syntax token=1|host
6 Syntax token=1|host always
6 Syntax token=1|host = always
6 Syntax token=2|host =>
6 Syntax token=2|host => => always
6 Syntax token=2|host => guest => always
6 Syntax token=3|host => always )
6 Syntax token=3|host => always never
6 Syntax token=4|host => always and
6 Syntax token=4|host => always or guest => always
6 Syntax token=4|host => ( always
6 Syntax token=4|host => always guest
1 BadByte at=14|host => always; guest => never
6 Syntax token=3|host => always => never
6 Syntax token=5|host => always host => 
6 Syntax token=4|host => always host never
6 Syntax token=3|host => (guest => always)
9 BadKey token=5|host => certificate leaf[field.1]
9 BadKey token=8|host => always host => certificate leaf[field.1]
9 BadKey token=5|host => certificate leaf[field.1] host => always
9 BadKey token=7|host => always guest => anchor[policy.x] guest => never
9 BadKey token=4|host => anchor[timestamp.1] guest => anchor[field.x]
10 KindTwice token=3|designated => always designated => never
10 KindTwice token=6|host => always guest => never host => always
10 KindTwice token=6|host => always guest => never guest => always host => always
10 KindTwice token=15|host => always guest => always designated => always library => always plugin => always plugin => always
10 KindTwice token=3|host => always host => always host => always
1 BadByte at=15|host => always @
2 OpenString at=8|host => \"x";

fn is_written_as(alloc: Global, set: &ReqSet, want: &[u8]) -> bool {
    if !is_encodable_set(set) {
        return false;
    }
    match encode_set(alloc, set) {
        Ok(bytes) => bytes.as_slice() == want,
        Err(_) => false,
    }
}

fn compiles(alloc: Global, text: &[u8], want: &[u8]) -> bool {
    match parse_set(alloc, text) {
        Ok(set) => {
            let same = is_written_as(alloc, &set, want);
            drop(set);
            same
        }
        Err(_) => false,
    }
}

fn row_compiles(alloc: Global, row: &[u8]) -> bool {
    let (blob, text) = parts(row, b' ');
    match bytes_of(alloc, blob) {
        Some(want) => compiles(alloc, text, want.as_slice()),
        None => false,
    }
}

fn all_compile(alloc: Global) -> bool {
    let mut all = true;
    for row in SETS.split(|byte| *byte == b'\n') {
        all = all && row_compiles(alloc, row);
    }
    all
}

fn is_refused_as(alloc: Global, text: &[u8], want: &[u8]) -> bool {
    match parse_set(alloc, text) {
        Ok(set) => {
            drop(set);
            false
        }
        Err(fault) => prints(fault, want),
    }
}

fn all_refused(alloc: Global) -> bool {
    let mut all = true;
    for row in REFUSED.split(|byte| *byte == b'\n') {
        let (want, text) = parts(row, b'|');
        all = all && is_refused_as(alloc, text, want);
    }
    all
}

#[test]
fn texts_of_sets_compile_to_their_blobs(rt: HostRuntime) {
    assert!(rt; all_compile(rt.alloc()));
}

#[test]
fn the_first_fault_of_a_set_is_told(rt: HostRuntime) {
    assert!(rt; all_refused(rt.alloc()));
}

struct Edge {
    front: &'static [u8],
    middle: &'static [u8],
    back: &'static [u8],
    times: usize,
    /// What is printed, and nothing where the text is a set.
    want: &'static [u8],
}

// Each limit on both sides, texts of the greatest length, and which of two faults is told.
#[rattlefmt::skip]
const EDGES: [Edge; 14] = [
    Edge { front: b" ", middle: b"host=>true", back: b"", times: 65526, want: b"" },
    Edge { front: b" ", middle: b"host=>true", back: b"", times: 65527, want: b"8 TextTooLong" },
    Edge { front: b"", middle: b"host=>(true) guest=>", back: b"(true)", times: 1, want: b"" },
    Edge { front: b"", middle: b"host=>true", back: b" host=>true", times: 5956, want: b"10 KindTwice token=3" },
    Edge { front: b"host=>true ", middle: b"plugin", back: b"", times: 5957, want: b"6 Syntax token=17872" },
    Edge { front: b"", middle: b"host=>", back: b"(", times: 256, want: b"6 Syntax token=258" },
    Edge { front: b"", middle: b"host=>", back: b"(", times: 257, want: b"7 TooDeep" },
    Edge { front: b"", middle: b"host=>true guest=>never", back: b" or true", times: 255, want: b"" },
    Edge { front: b"", middle: b"host=>true guest=>never", back: b" or true", times: 256, want: b"7 TooDeep" },
    Edge { front: b"", middle: b"host=>true host=>never", back: b" or true", times: 256, want: b"10 KindTwice token=3" },
    Edge { front: b"", middle: b"host=>cert leaf[field.] host=>never", back: b"", times: 1, want: b"1 BadByte at=21" },
    Edge { front: b"", middle: b"host=>anchor[field.x] host=>never", back: b" or true", times: 256, want: b"9 BadKey token=4" },
    Edge { front: b"", middle: b"host=>anchor[field.x] host=>never", back: b" or", times: 1, want: b"6 Syntax token=10" },
    Edge { front: b"(", middle: b"host=>@", back: b"", times: 300, want: b"1 BadByte at=306" },
];

fn is_as_wanted(alloc: Global, text: &[u8], want: &[u8]) -> bool {
    match parse_set(alloc, text) {
        Ok(set) => {
            drop(set);
            want.is_empty()
        }
        Err(fault) => prints(fault, want),
    }
}

fn is_told(alloc: Global, row: &Edge) -> bool {
    match around(alloc, row.front, row.middle, row.back, row.times) {
        Ok(text) => is_as_wanted(alloc, text.as_slice(), row.want),
        Err(_) => false,
    }
}

fn all_told(alloc: Global) -> bool {
    let mut all = true;
    for row in &EDGES {
        all = all && is_told(alloc, row);
    }
    all
}

#[test]
fn sets_at_their_limits_are_told(rt: HostRuntime) {
    assert!(rt; all_told(rt.alloc()));
}

// So many left parentheses, and as many right ones, in each of two parts.
fn nested_twice(alloc: Global, times: usize) -> Option<Vec<u8>> {
    let first = around(alloc, b"(", b"true", b")", times).ok()?;
    let mut text = Vec::new(alloc);
    text.extend_from_slice(b"host=>").ok()?;
    text.extend_from_slice(first.as_slice()).ok()?;
    text.extend_from_slice(b" library=>").ok()?;
    text.extend_from_slice(first.as_slice()).ok()?;
    Some(text)
}

fn nests_as(alloc: Global, times: usize, want: &[u8]) -> bool {
    match nested_twice(alloc, times) {
        Some(text) => is_as_wanted(alloc, text.as_slice(), want),
        None => false,
    }
}

#[test]
fn each_part_has_its_parentheses(rt: HostRuntime) {
    assert!(rt; nests_as(rt.alloc(), 256, b"") && nests_as(rt.alloc(), 257, b"7 TooDeep"));
}
