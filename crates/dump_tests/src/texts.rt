//! Requirements and sets as text.

use crate::rows::{bytes_of, parts};
use req_dumper::{dump, dump_set};
use req_ops::{decode, decode_set};
use std::alloc::Global;
use std::test::Fail;

// Blobs, and their texts: each opcode, each test, each way a string is written, and each operator under others.
#[rattlefmt::skip]
const REQUIREMENTS: &[u8] = b"fade0c000000009c0000000100000006000000060000000600000006000000020000000f636f6d2e6578616d706c652e617070000000000f0000000e000000010000000a2a864886f763640602060000000000000000000e000000000000000a2a864886f7636406010d0000000000000000000b000000000000000a7375626a6563742e4f550000000000010000000a324443343332474c4c320000 identifier \"com.example.app\" and anchor apple generic and certificate 1[field.1.2.840.113635.100.6.2.6] /* exists */ and certificate leaf[field.1.2.840.113635.100.6.1.13] /* exists */ and certificate leaf[subject.OU] = \"2DC432GLL2\"
fade0c0000000020000000010000000600000001000000060000000000000015 always and never and notarized
fade0c00000000340000000100000007000000170000000600000009000000070000000100000000000000070000001500000000 legacy or ! (always or never) and (notarized or never)
fade0c000000001c00000001800000ff000000080000000000000000 never /* opcode 0x800000ff, 8 bytes */
fade0c000000002000000001400000ff00000008000000000000000000000001 /* skipped opcode 0x400000ff, 8 bytes */ always
fade0c000000002900000001000000060000000140abcdef0000000107000000070000000000000015 always and /* skipped opcode 0x40abcdef, 1 bytes */ (never or notarized)
fade0c0000000014000000010000000200000000 identifier \"\"
fade0c000000001800000001000000020000000161000000 identifier a
fade0c000000001c0000000100000002000000055465616d37000000 identifier Team7
fade0c000000001c000000010000000200000005375465616d000000 identifier \"7Team\"
fade0c000000002000000001000000020000000b636572746966696361746500 identifier \"certificate\"
fade0c00000000180000000100000002000000026f720000 identifier \"or\"
fade0c000000001800000001000000020000000361226200 identifier \"a\\\"b\"
fade0c00000000180000000100000002000000046120627e identifier \"a b~\"
fade0c0000000018000000010000000200000003615c6200 identifier 0x615c62
fade0c00000000180000000100000002000000017f000000 identifier 0x7f
fade0c0000000018000000010000000200000002ff000000 identifier 0xff00
fade0c00000000100000000100000003 anchor apple
fade0c000000002c0000000100000004ffffffff00000014a0a1a2a3a4a5a6a7a8a9aaabacadaeafb0b1b2b3 certificate root = H\"a0a1a2a3a4a5a6a7a8a9aaabacadaeafb0b1b2b3\"
fade0c000000002c0000000100000004fffffffe00000014a0a1a2a3a4a5a6a7a8a9aaabacadaeafb0b1b2b3 certificate -2 = H\"a0a1a2a3a4a5a6a7a8a9aaabacadaeafb0b1b2b3\"
fade0c0000000020000000010000000500000003612e620000000003632e6400 info[a.b] = \"c.d\"
fade0c0000000028000000010000000800000014a0a1a2a3a4a5a6a7a8a9aaabacadaeafb0b1b2b3 cdhash H\"a0a1a2a3a4a5a6a7a8a9aaabacadaeafb0b1b2b3\"
fade0c000000001c0000000100000009000000060000000100000000 ! (always and never)
fade0c0000000020000000010000000900000009000000070000000100000000 ! ! (always or never)
fade0c0000000024000000010000000a000000016b000000000000020000000176000000 info[k] ~ v
fade0c0000000024000000010000000a000000016b000000000000030000000176000000 info[k] = v*
fade0c0000000024000000010000000a000000016b000000000000040000000176000000 info[k] = *v
fade0c0000000024000000010000000a000000016b000000000000050000000131000000 info[k] < \"1\"
fade0c0000000024000000010000000a000000016b000000000000060000000276310000 info[k] > v1
fade0c0000000024000000010000000a000000016b000000000000070000000176000000 info[k] <= v
fade0c0000000024000000010000000a000000016b000000000000080000000176000000 info[k] >= v
fade0c000000001c000000010000000a000000016b0000000000000e info[k] absent
fade0c000000001c000000010000000a00000004612e2e6200000000 info[\"a..b\"] /* exists */
fade0c000000001c000000010000000a00000002612e000000000000 info[\"a.\"] /* exists */
fade0c000000001c000000010000000a000000046c65616600000000 info[\"leaf\"] /* exists */
fade0c000000002400000001000000100000000b636f6d2e6170706c652e780000000000 entitlement[com.apple.x] /* exists */
fade0c0000000014000000010000000c00000000 certificate leaf trusted
fade0c0000000014000000010000000c00000003 certificate 3 trusted
fade0c0000000010000000010000000d anchor trusted
fade0c00000000280000000100000011ffffffff0000000288370000000000010000000178000000 certificate root[policy.2.999] = x
fade0c0000000020000000010000000e7fffffff00000002277f00000000000e certificate 2147483647[field.0.39.127] absent
fade0c000000002000000001000000120000000a4170706c6520526f6f740000 anchor apple \"Apple Root\"
fade0c000000001c0000000100000013000000067361666172690000 (safari)
fade0c0000000014000000010000001480000000 platform = -2147483648
fade0c0000000014000000010000001400000007 platform = 7";

// Sets, and their texts, with ; for the end of a line.
#[rattlefmt::skip]
const SETS: &[u8] = b"fade0c0100000024000000010000000300000014fade0c00000000100000000100000001 designated => always;
fade0c010000000c00000000 
fade0c01000000940000000500000001000000340000000200000044000000030000005400000004000000740000000500000084fade0c00000000100000000100000001fade0c00000000100000000100000003fade0c0000000020000000010000000700000000000000060000000100000000fade0c00000000100000000100000015fade0c00000000100000000100000017 host => always;guest => anchor apple;designated => never or always and never;library => notarized;plugin => legacy;
fade0c010000003c00000002000000050000001c000000010000002cfade0c00000000100000000100000000fade0c00000000100000000100000001 host => always;plugin => never;";

fn dumps_as(alloc: Global, bytes: &[u8], want: &[u8]) -> bool {
    let Ok(req) = decode(alloc, bytes) else {
        return false;
    };
    let text = dump(alloc, &req);
    drop(req);
    match text {
        Ok(text) => text.as_slice() == want,
        Err(_) => false,
    }
}

fn row_dumps(alloc: Global, row: &[u8]) -> bool {
    let (blob, want) = parts(row);
    match bytes_of(alloc, blob) {
        Some(bytes) => dumps_as(alloc, bytes.as_slice(), want),
        None => false,
    }
}

fn all_dump(alloc: Global, table: &[u8]) -> bool {
    let mut all = true;
    for row in table.split(|byte| *byte == b'\n') {
        all = all && row_dumps(alloc, row);
    }
    all
}

#[test]
fn requirements_have_their_texts(rt: HostRuntime) {
    assert!(rt; all_dump(rt.alloc(), REQUIREMENTS));
}

/// Whether texts are equal where `;` stands for LF in the one that is wanted.
fn is_same(text: &[u8], want: &[u8]) -> bool {
    let mut same = text.len() == want.len();
    for (byte, wanted) in text.iter().zip(want) {
        let end = *byte == b'\n' && *wanted == b';';
        same = same && (end || *byte == *wanted);
    }
    same
}

fn set_dumps_as(alloc: Global, bytes: &[u8], want: &[u8]) -> bool {
    let Ok(set) = decode_set(alloc, bytes) else {
        return false;
    };
    let text = dump_set(alloc, &set);
    drop(set);
    match text {
        Ok(text) => is_same(text.as_slice(), want),
        Err(_) => false,
    }
}

fn set_row_dumps(alloc: Global, row: &[u8]) -> bool {
    let (blob, want) = parts(row);
    match bytes_of(alloc, blob) {
        Some(bytes) => set_dumps_as(alloc, bytes.as_slice(), want),
        None => false,
    }
}

fn all_sets_dump(alloc: Global, table: &[u8]) -> bool {
    let mut all = true;
    for row in table.split(|byte| *byte == b'\n') {
        all = all && set_row_dumps(alloc, row);
    }
    all
}

#[test]
fn sets_have_their_texts(rt: HostRuntime) {
    assert!(rt; all_sets_dump(rt.alloc(), SETS));
}
