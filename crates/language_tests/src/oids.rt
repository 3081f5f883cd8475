//! Object identifiers, as text and as bytes.

use crate::rows::{bytes_of, parts};
use req_tree::{OidBytesFault, OidFault, is_oid, oid_from_bytes, oid_from_text, oid_to_text};
use std::alloc::Global;
use std::test::Fail;

// X.690, 8.19.5; RFC 5280, 4.1.2.2 and Appendix A; Apple's certificate extensions for signing.
#[rattlefmt::skip]
const OBJECT_IDENTIFIERS: &[u8] = b"813403 2.100.3
550403 2.5.4.3
2a864886f70d01010b 1.2.840.113549.1.1.11
2a864886f76364060206 1.2.840.113635.100.6.2.6
2a864886f7636406010d 1.2.840.113635.100.6.1.13
00 0.0
4f00 1.39.0
8fffffff7f 2.4294967215";

// Texts, of which the first bad arc is told.
#[rattlefmt::skip]
const BAD_TEXTS: &[u8] = b" BadArc
x BadArc
3 BadArc
2 TooShort
3.1 BadArc
4294967296.1 BadArc
01.2 BadArc
1.40 BadArc
1.4294967296 BadArc
2.4294967216 ArcTooLarge
1.2. BadArc
1..2 BadArc
1.2.03 BadArc
1.2.4294967296 ArcTooLarge
1.2.4294967296.x ArcTooLarge
1.2.x.4294967296 BadArc";

#[rattlefmt::skip]
const BAD_BYTES: &[u8] = b"-
8001
2a86
2a8001
9080808000
2affffffffff7f";

// Whether text and bytes are one object identifier's.
fn is_one(alloc: Global, text: &[u8], bytes: &[u8]) -> Option<bool> {
    let read = oid_from_text(alloc, text).ok()?;
    let oid = oid_from_bytes(alloc, bytes).ok()?;
    let printed = oid_to_text(alloc, &oid).ok()?;
    Some(read.as_slice() == bytes && is_oid(bytes) && printed.as_slice() == text)
}

fn is_row(alloc: Global, row: &[u8]) -> bool {
    let (bytes, text) = parts(row);
    match bytes_of(alloc, bytes) {
        Some(bytes) => is_one(alloc, text, bytes.as_slice()) == Some(true),
        None => false,
    }
}

fn all_are_rows(alloc: Global, table: &[u8]) -> bool {
    let mut all = true;
    for row in table.split(|byte| *byte == b'\n') {
        all = all && is_row(alloc, row);
    }
    all
}

#[test]
fn object_identifiers_read_and_print(rt: HostRuntime) {
    assert!(rt; all_are_rows(rt.alloc(), OBJECT_IDENTIFIERS));
}

fn name(fault: OidFault) -> &'static [u8] {
    match fault {
        OidFault::BadArc => b"BadArc",
        OidFault::ArcTooLarge => b"ArcTooLarge",
        OidFault::TooShort => b"TooShort",
        OidFault::OutOfMemory => b"OutOfMemory",
    }
}

fn is_bad_text(alloc: Global, row: &[u8]) -> bool {
    let (text, want) = parts(row);
    match oid_from_text(alloc, text) {
        Ok(_) => false,
        Err(fault) => name(fault) == want,
    }
}

fn are_bad_texts(alloc: Global, table: &[u8]) -> bool {
    let mut all = true;
    for row in table.split(|byte| *byte == b'\n') {
        all = all && is_bad_text(alloc, row);
    }
    all
}

fn are_no_oid(alloc: Global, bytes: &[u8]) -> bool {
    let refused = oid_from_bytes(alloc, bytes).err() == Some(OidBytesFault::BadOid);
    refused && !is_oid(bytes)
}

fn is_bad_row(alloc: Global, row: &[u8]) -> bool {
    match bytes_of(alloc, row) {
        Some(bytes) => are_no_oid(alloc, bytes.as_slice()),
        None => false,
    }
}

fn are_bad_bytes(alloc: Global, table: &[u8]) -> bool {
    let mut all = true;
    for row in table.split(|byte| *byte == b'\n') {
        all = all && is_bad_row(alloc, row);
    }
    all
}

#[test]
fn the_first_bad_arc_is_told(rt: HostRuntime) {
    assert!(rt; are_bad_texts(rt.alloc(), BAD_TEXTS));
    assert!(rt; are_bad_bytes(rt.alloc(), BAD_BYTES));
}
