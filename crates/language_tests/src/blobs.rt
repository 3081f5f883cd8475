//! Blobs and super-blobs by the layout of Apple's cs_blobs.h.

use crate::rows::{bytes_of, parts};
use cs_blob::{Blob, BlobFault, SuperBlob, SuperWriter, WriterFault};
use req_tree::LineText;
use std::alloc::Global;
use std::test::Fail;

const REQUIREMENT: u32 = 0xfade0c00;

const SET: u32 = 0xfade0c01;

const ALWAYS: &[u8] = b"\xfa\xde\x0c\x00\0\0\0\x10\0\0\0\x01\0\0\0\x01";

const NO_BODY: &[u8] = b"\xfa\xde\x0c\x00\0\0\0\x08";

// How many parts a super-blob has, or its refusal. Each part is of 8 bytes, but for the one that holds the
// requirement `always`. The rows from the eleventh on: a gap before the part, and bytes behind the whole; a part in
// the index, near 2^32 twice, and whose header reaches past the end; a part's own length of 7, past the end, and near
// 2^32; two entries for one part, of two types and of one; and the second part before the first.
#[rattlefmt::skip]
const SETS: &[u8] = b"- 1 Short
fade0c01000000 1 Short
fade0c000000000c00000000 2 BadMagic
fade0c010000000700000000 3 BadLength
fade0c010000000d00000000 3 BadLength
fade0c010000000800000000 1 Short
fade0c010000000c00000041 4 TooManyParts
fade0c010000000c00000040 1 Short
fade0c010000000c00000000 parts=0
fade0c0100000024000000010000000300000014fade0c00000000100000000100000001 parts=1
fade0c010000002000000001000000030000001867617021fade0c00000000086d6f7265 parts=1
fade0c010000001c000000010000000300000010fade0c0000000008 5 PartOutside index=0
fade0c010000001c0000000100000003fffffff8fade0c0000000008 5 PartOutside index=0
fade0c010000001c0000000100000003fffffffffade0c0000000008 5 PartOutside index=0
fade0c010000001c000000010000000300000015fade0c000000000800 5 PartOutside index=0
fade0c010000001c000000010000000300000014fade0c0000000007 5 PartOutside index=0
fade0c010000001c000000010000000300000014fade0c000000000900 5 PartOutside index=0
fade0c010000001c000000010000000300000014fade0c00fffffff4 5 PartOutside index=0
fade0c010000002400000002000000010000001c000000030000001cfade0c0000000008 6 PartOverlap index=1
fade0c010000002400000002000000030000001c000000030000001cfade0c0000000008 7 PartTwice index=1
fade0c010000002c000000020000000100000024000000030000001cfade0c0000000008fade0c0200000008 parts=2";

fn is_right(alloc: Global, row: &[u8]) -> bool {
    let (text, want) = parts(row);
    match bytes_of(alloc, text) {
        Some(bytes) => tells(bytes.as_slice(), want),
        None => false,
    }
}

fn tells(bytes: &[u8], want: &[u8]) -> bool {
    let mut line = LineText::new();
    match SuperBlob::read(bytes, SET) {
        Ok(blob) => {
            line.push_all(b"parts=");
            line.push_number(u64::from(blob.count()));
        }
        Err(fault) => fault.line_into(&mut line),
    }
    line.as_slice() == want
}

fn all_right(alloc: Global, table: &[u8]) -> bool {
    let mut all = true;
    for row in table.split(|byte| *byte == b'\n') {
        all = all && is_right(alloc, row);
    }
    all
}

#[test]
fn super_blobs_and_their_faults(rt: HostRuntime) {
    assert!(rt; all_right(rt.alloc(), SETS));
}

// A gap before the part of 8 bytes, and bytes behind the whole.
const GAP: &[u8] =
    b"\xfa\xde\x0c\x01\0\0\0\x20\0\0\0\x01\0\0\0\x03\0\0\0\x18gap!\xfa\xde\x0c\x00\0\0\0\x08more";

fn has_its_part(bytes: &[u8]) -> bool {
    match SuperBlob::read(bytes, SET) {
        Ok(set) => {
            let kinds = set.count() == 1 && set.kind_at(0) == 3;
            let part = set.part(3) == Some(NO_BODY) && set.part(1).is_none();
            let whole = set.whole() == GAP.split_at(32).0 && set.rest() == b"more".as_slice();
            kinds && part && whole
        }
        Err(_) => false,
    }
}

fn has_its_body(bytes: &[u8]) -> bool {
    match Blob::read(bytes, REQUIREMENT) {
        Ok(blob) => {
            let whole = blob.whole().len() == 10 && blob.body() == b"bo".as_slice();
            whole && blob.rest() == b"dy".as_slice()
        }
        Err(_) => false,
    }
}

#[test]
fn a_part_is_a_slice_of_the_bytes(rt: HostRuntime) {
    assert!(rt; has_its_part(GAP));
    assert!(rt; has_its_body(b"\xfa\xde\x0c\x00\0\0\0\x0abody"));
}

const DESIGNATED: &[u8] =
    b"\xfa\xde\x0c\x01\0\0\0\x24\0\0\0\x01\0\0\0\x03\0\0\0\x14\xfa\xde\x0c\x00\0\0\0\x10\0\0\0\x01\0\0\0\x01";

fn is_written_once(alloc: Global) -> Option<bool> {
    let always = Blob::read(ALWAYS, REQUIREMENT).ok()?;
    let mut writer = SuperWriter::new(alloc, SET);
    writer.add(alloc, 3, always.whole()).ok()?;
    let twice = writer.add(alloc, 3, always.whole()) == Err(WriterFault::PartTwice);
    let whole = writer.finish().ok()?;
    Some(twice && whole.as_slice() == DESIGNATED)
}

#[test]
fn what_is_written_reads_back(rt: HostRuntime) {
    assert!(rt; is_written_once(rt.alloc()) == Some(true));
}

fn has_room_for_64(alloc: Global) -> Option<bool> {
    let part = Blob::read(NO_BODY, REQUIREMENT).ok()?;
    let mut writer = SuperWriter::new(alloc, SET);
    for kind in 0..64 {
        writer.add(alloc, kind, part.whole()).ok()?;
    }
    let full = writer.add(alloc, 64, part.whole()) == Err(WriterFault::TooManyParts);
    let whole = writer.finish().ok()?;
    let set = SuperBlob::read(whole.as_slice(), SET).ok()?;
    Some(full && set.part(63) == Some(NO_BODY))
}

#[test]
fn there_is_room_for_64_parts(rt: HostRuntime) {
    assert!(rt; has_room_for_64(rt.alloc()) == Some(true));
}

fn prints(fault: BlobFault, want: &[u8]) -> bool {
    let mut line = LineText::new();
    fault.line_into(&mut line);
    line.as_slice() == want
}

#[test]
fn faults_print_number_name_and_fields(rt: HostRuntime) {
    assert!(rt; prints(BlobFault::Short, b"1 Short"));
    assert!(rt;
        prints(
            BlobFault::PartOverlap { index: 1 },
            b"6 PartOverlap index=1"
        )
    );
    assert!(rt; prints(BlobFault::PartTwice { index: 63 }, b"7 PartTwice index=63"));
}
