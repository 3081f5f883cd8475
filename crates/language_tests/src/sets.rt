//! Sets of requirements.

use crate::rows::{bytes_of, parts};
use cs_blob::BlobFault;
use req_ops::{
    OpsFault, SetFault, decode_set, encode_set, is_encodable_set, reread_set, respell_set,
};
use req_tree::{Bytes, LineText, Req, ReqSet};
use std::alloc::{AllocError, Global};
use std::test::Fail;

// The set with `always` as its designated part.
const DESIGNATED: &[u8] =
    b"\xfa\xde\x0c\x01\0\0\0\x24\0\0\0\x01\0\0\0\x03\0\0\0\x14\xfa\xde\x0c\0\0\0\0\x10\0\0\0\x01\0\0\0\x01";

const EMPTY: &[u8] = b"\xfa\xde\x0c\x01\0\0\0\x0c\0\0\0\0";

// Sets and their first faults: another magic; two parts of types 1 and 3 at one offset; a byte behind the set; a
// type that sets have not; and parts that are no requirements.
#[rattlefmt::skip]
const REFUSED: &[u8] = b"fade0c000000000c00000000 1 Blob 2 BadMagic
fade0c010000002c00000002000000010000001c000000030000001cfade0c00000000100000000100000001 1 Blob 6 PartOverlap index=1
fade0c010000000c0000000021 3 Trailing at=12
fade0c0100000024000000010000000600000014fade0c00000000100000000100000001 4 BadSetKind index=0
fade0c0100000024000000010000000300000014fade0c00000000100000000200000001 5 Part index=0 2 BadKind
fade0c0100000024000000010000000300000014fade0c00000000100000000100000016 5 Part index=0 4 OutOfScopeOp at=12";

// `never` for the host and `always` for the plugin, written by hand.
#[rattlefmt::skip]
const TWO_PARTS: &[u8] = b"fade0c010000003c00000002000000010000001c000000050000002cfade0c00000000100000000100000000fade0c00000000100000000100000001";

// The same set: with falling types, with a gap behind the index and one at the end, and with a flag.
#[rattlefmt::skip]
const OTHER_SPELLINGS: &[u8] = b"fade0c010000003c00000002000000050000001c000000010000002cfade0c00000000100000000100000001fade0c00000000100000000100000000
fade0c010000003e00000002000000010000001d000000050000002d21fade0c00000000100000000100000000fade0c0000000010000000010000000121
fade0c010000003c00000002000000010000001c000000050000002cfade0c00000000100000000140000000fade0c00000000100000000100000001";

fn has_designated(alloc: Global, bytes: &[u8]) -> bool {
    let read = decode_set(alloc, bytes);
    let has = match &read {
        Ok(set) => matches!(set.part(3), Some(Req::Always)) && set.part(1).is_none(),
        Err(_) => false,
    };
    drop(read);
    has
}

fn is_empty_set(alloc: Global, bytes: &[u8]) -> bool {
    let read = decode_set(alloc, bytes);
    let empty = match &read {
        Ok(set) => set.part(3).is_none(),
        Err(_) => false,
    };
    drop(read);
    empty
}

#[test]
fn a_set_has_the_parts_of_its_index(rt: HostRuntime) {
    assert!(rt; has_designated(rt.alloc(), DESIGNATED));
    assert!(rt; is_empty_set(rt.alloc(), EMPTY));
}

fn prints(fault: SetFault, want: &[u8]) -> bool {
    let mut line = LineText::new();
    fault.line_into(&mut line);
    line.as_slice() == want
}

fn is_refused_as(alloc: Global, bytes: &[u8], want: &[u8]) -> bool {
    match decode_set(alloc, bytes) {
        Ok(set) => {
            drop(set);
            false
        }
        Err(fault) => prints(fault, want),
    }
}

fn is_refused(alloc: Global, row: &[u8]) -> bool {
    let (text, want) = parts(row);
    match bytes_of(alloc, text) {
        Some(bytes) => is_refused_as(alloc, bytes.as_slice(), want),
        None => false,
    }
}

fn all_are_refused(alloc: Global, table: &[u8]) -> bool {
    let mut all = true;
    for row in table.split(|byte| *byte == b'\n') {
        all = all && is_refused(alloc, row);
    }
    all
}

#[test]
fn the_first_fault_of_a_set_is_told(rt: HostRuntime) {
    assert!(rt; all_are_refused(rt.alloc(), REFUSED));
}

fn is_designated(alloc: Global, set: &ReqSet) -> bool {
    if !is_encodable_set(set) {
        return false;
    }
    match encode_set(alloc, set) {
        Ok(bytes) => bytes.as_slice() == DESIGNATED,
        Err(_) => false,
    }
}

fn is_reread(alloc: Global, set: &ReqSet) -> bool {
    if !is_encodable_set(set) {
        return false;
    }
    let again = reread_set(alloc, set);
    let same = match &again {
        Ok(again) => matches!(again.part(3), Some(Req::Always)) && again.part(5).is_none(),
        Err(_) => false,
    };
    drop(again);
    same
}

fn is_written_and_reread(alloc: Global) -> bool {
    let mut set = ReqSet::new();
    set.put(3, Req::Always);
    let written = is_designated(alloc, &set);
    let again = is_reread(alloc, &set);
    drop(set);
    written && again
}

#[test]
fn a_set_is_written_and_read_again(rt: HostRuntime) {
    assert!(rt; is_written_and_reread(rt.alloc()));
}

fn comes_back_as(alloc: Global, bytes: &[u8], want: &[u8]) -> bool {
    match respell_set(alloc, bytes) {
        Ok(again) => again.as_slice() == want,
        Err(_) => false,
    }
}

#[test]
fn plain_sets_come_back(rt: HostRuntime) {
    assert!(rt; comes_back_as(rt.alloc(), DESIGNATED, DESIGNATED));
    assert!(rt; comes_back_as(rt.alloc(), EMPTY, EMPTY));
    assert!(rt; has_two_parts(rt.alloc(), TWO_PARTS));
}

// Whether the bytes of a row come back as the two parts, plain.
fn has_two_parts(alloc: Global, row: &[u8]) -> bool {
    match (bytes_of(alloc, row), bytes_of(alloc, TWO_PARTS)) {
        (Some(bytes), Some(want)) => comes_back_as(alloc, bytes.as_slice(), want.as_slice()),
        _ => false,
    }
}

fn all_have_two_parts(alloc: Global, table: &[u8]) -> bool {
    let mut all = true;
    for row in table.split(|byte| *byte == b'\n') {
        all = all && has_two_parts(alloc, row);
    }
    all
}

#[test]
fn other_spellings_come_back_plain(rt: HostRuntime) {
    assert!(rt; all_have_two_parts(rt.alloc(), OTHER_SPELLINGS));
}

// A set without parts, and bytes that belong to none.
fn empty_set(alloc: Global, size: u32) -> Result<Vec<u8>, AllocError> {
    let mut bytes = Vec::with_capacity(alloc, size as usize)?;
    bytes.extend_from_slice(b"\xfa\xde\x0c\x01")?;
    bytes.extend_from_slice(&size.to_be_bytes())?;
    bytes.resize(size as usize, 0)?;
    Ok(bytes)
}

fn largest_comes_back(alloc: Global) -> bool {
    match empty_set(alloc, 1_048_576) {
        Ok(bytes) => comes_back_as(alloc, bytes.as_slice(), EMPTY),
        Err(_) => false,
    }
}

fn larger_is_refused(alloc: Global) -> bool {
    match empty_set(alloc, 1_048_577) {
        Ok(bytes) => is_refused_as(alloc, bytes.as_slice(), b"2 TooLong"),
        Err(_) => false,
    }
}

#[test]
fn a_set_has_at_most_1048576_bytes(rt: HostRuntime) {
    assert!(rt; largest_comes_back(rt.alloc()));
    assert!(rt; larger_is_refused(rt.alloc()));
}

fn written_fault(alloc: Global, set: &ReqSet) -> Option<OpsFault> {
    if !is_encodable_set(set) {
        return None;
    }
    encode_set(alloc, set).err()
}

// An identifier of 600,000 bytes.
fn long_req(alloc: Global) -> Result<Req, AllocError> {
    let mut value = Vec::with_capacity(alloc, 600_000)?;
    value.resize(600_000, 97)?;
    Ok(Req::Ident {
        value: Bytes::from_vec(value),
    })
}

fn two_are_too_long(alloc: Global) -> Result<bool, AllocError> {
    let host = long_req(alloc)?;
    let guest = long_req(alloc)?;
    let mut set = ReqSet::new();
    set.put(1, host);
    let one = written_fault(alloc, &set).is_none();
    set.put(2, guest);
    let both = written_fault(alloc, &set) == Some(OpsFault::TooLong);
    drop(set);
    Ok(one && both)
}

#[test]
fn a_long_set_is_not_written(rt: HostRuntime) {
    assert!(rt; two_are_too_long(rt.alloc()) == Ok(true));
}

// The rows above tell the others.
fn all_print() -> bool {
    let whole = prints(
        SetFault::Blob(BlobFault::PartOverlap { index: 1 }),
        b"1 Blob 6 PartOverlap index=1",
    );
    let part = prints(
        SetFault::Part {
            index: 1,
            fault: OpsFault::UnknownOp { at: 12, op: 0xff },
        },
        b"5 Part index=1 3 UnknownOp at=12 op=0x000000ff",
    );
    whole && part && prints(SetFault::OutOfMemory, b"")
}

#[test]
fn a_fault_tells_its_number_and_fields(rt: HostRuntime) {
    assert!(rt; all_print());
}
