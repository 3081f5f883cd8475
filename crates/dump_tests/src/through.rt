//! Blobs that are printed as text, and the blobs that the texts make again.

use crate::rows::{bytes_of, parts};
use req_language::{through_text, through_text_set};
use std::alloc::Global;
use std::test::Fail;

// Blobs, and what they come back as: a chain that nests to the right, a flag on a known opcode, an old field, skipped
// opcodes; and two that come back as they were.
#[rattlefmt::skip]
const REQUIREMENTS: &[u8] = b"fade0c0000000020000000010000000600000001000000060000000000000015 fade0c0000000020000000010000000600000006000000010000000000000015
fade0c00000000100000000180000001 fade0c00000000100000000100000001
fade0c0000000020000000010000000500000003612e620000000003632e6400 fade0c0000000024000000010000000a00000003612e62000000000100000003632e6400
fade0c000000001c00000001800000ff000000080000000000000000 fade0c00000000100000000100000000
fade0c000000002000000001400000ff00000008000000000000000000000001 fade0c00000000100000000100000001
fade0c0000000018000000010000000200000003615c6200 fade0c0000000018000000010000000200000003615c6200
fade0c00000000340000000100000007000000170000000600000009000000070000000100000000000000070000001500000000 fade0c00000000340000000100000007000000170000000600000009000000070000000100000000000000070000001500000000";

// The same of sets: parts out of order, a part with a flag, and no part.
#[rattlefmt::skip]
const SETS: &[u8] = b"fade0c010000003c00000002000000050000001c000000010000002cfade0c00000000100000000100000000fade0c00000000100000000100000001 fade0c010000003c00000002000000010000001c000000050000002cfade0c00000000100000000100000001fade0c00000000100000000100000000
fade0c0100000024000000010000000300000014fade0c00000000100000000140000001 fade0c0100000024000000010000000300000014fade0c00000000100000000100000001
fade0c010000000c00000000 fade0c010000000c00000000";

/// Whether bytes, of a set or of a requirement, come back as these.
fn comes_back(alloc: Global, as_set: bool, bytes: &[u8], want: &[u8]) -> bool {
    if as_set {
        match through_text_set(alloc, bytes) {
            Ok(again) => again.as_slice() == want,
            Err(_) => false,
        }
    } else {
        match through_text(alloc, bytes) {
            Ok(again) => again.as_slice() == want,
            Err(_) => false,
        }
    }
}

fn row_comes_back(alloc: Global, as_set: bool, row: &[u8]) -> bool {
    let (blob, again) = parts(row);
    let Some(bytes) = bytes_of(alloc, blob) else {
        return false;
    };
    let Some(want) = bytes_of(alloc, again) else {
        return false;
    };
    comes_back(alloc, as_set, bytes.as_slice(), want.as_slice())
}

fn all_come_back(alloc: Global, as_set: bool, table: &[u8]) -> bool {
    let mut all = true;
    for row in table.split(|byte| *byte == b'\n') {
        all = all && row_comes_back(alloc, as_set, row);
    }
    all
}

#[test]
fn requirements_come_back(rt: HostRuntime) {
    assert!(rt; all_come_back(rt.alloc(), false, REQUIREMENTS));
}

#[test]
fn sets_come_back(rt: HostRuntime) {
    assert!(rt; all_come_back(rt.alloc(), true, SETS));
}
