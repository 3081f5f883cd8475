//! The commands on requirements, over one file: what each says, and with which status.

use crate::devices::{run_on_file, sink};
use spctl_cli::Status;
use std::alloc::{AllocError, Global};
use std::test::Fail;

// Developer ID as `codesign` prints it, and the bytes that were made of it by hand from the layout.
const DEVELOPER_ID: &[u8] =
    b"identifier \"com.example.app\" and anchor apple generic and certificate 1[field.1.2.840.113635.100.6.2.6] /* exists */ and certificate leaf[field.1.2.840.113635.100.6.1.13] /* exists */ and certificate leaf[subject.OU] = \"2DC432GLL2\"";

const DEVELOPER_ID_BLOB: &[u8] =
    b"fade0c000000009c0000000100000006000000060000000600000006000000020000000f636f6d2e6578616d706c652e617070000000000f0000000e000000010000000a2a864886f763640602060000000000000000000e000000000000000a2a864886f7636406010d0000000000000000000b000000000000000a7375626a6563742e4f550000000000010000000a324443343332474c4c320000";

// A command, the text of its file, and the blob that it writes, in hexadecimal.
#[rattlefmt::skip]
const COMPILED: [(&str, &[u8], &[u8]); 6] = [
    ("compile", DEVELOPER_ID, DEVELOPER_ID_BLOB),
    ("compile", b"always and never and notarized",
        b"fade0c0000000020000000010000000600000006000000010000000000000015"),
    ("compile", b"legacy or ! (always or never) and (notarized or never)",
        b"fade0c00000000340000000100000007000000170000000600000009000000070000000100000000000000070000001500000000"),
    ("compileset", b"designated => always",
        b"fade0c0100000024000000010000000300000014fade0c00000000100000000100000001"),
    ("compileset", b"plugin => never host => always",
        b"fade0c010000003c00000002000000010000001c000000050000002cfade0c00000000100000000100000001fade0c00000000100000000100000000"),
    ("compileset", b"", b"fade0c010000000c00000000"),
];

// A command, the text of its file, and the line that refuses it.
#[rattlefmt::skip]
const REFUSED: [(&str, &[u8], &[u8]); 17] = [
    ("compile", b"identifier and", b"refused text 6 Syntax token=1\n"),
    ("compile", b"always or", b"refused text 6 Syntax token=2\n"),
    ("compile", b"", b"refused text 6 Syntax token=0\n"),
    ("compile", b"anchor apple trusted", b"refused text 6 Syntax token=2\n"),
    ("compile", b"certificate leaf", b"refused text 6 Syntax token=2\n"),
    ("compile", b"! ( always", b"refused text 6 Syntax token=3\n"),
    ("compile", b"info[Version] <", b"refused text 6 Syntax token=5\n"),
    ("compile", b"always )", b"refused text 6 Syntax token=1\n"),
    ("compile", b"(a and b)", b"refused text 6 Syntax token=2\n"),
    ("compile", b"platform = 2147483648", b"refused text 6 Syntax token=2\n"),
    ("compile", b"com.example", b"refused text 6 Syntax token=0\n"),
    ("compile", b"cdhash H\"12\"", b"refused text 4 BadHex at=7\n"),
    ("compile", b"\"abc", b"refused text 2 OpenString at=0\n"),
    ("compile", b"certificate leaf[field.1]", b"refused text 9 BadKey token=3\n"),
    ("compile", b"designated => always", b"refused text 6 Syntax token=0\n"),
    ("compileset", b"always", b"refused text 6 Syntax token=0\n"),
    ("compileset", b"host => always host => never", b"refused text 10 KindTwice token=3\n"),
];

// A blob in hexadecimal, the end of its run, and the text that is written of it.
#[rattlefmt::skip]
const DUMPED: [(&[u8], Status, &[u8]); 14] = [
    (b"fade0c0000000020000000010000000600000001000000060000000000000015", Status::Fine,
        b"always and never and notarized\n"),
    (b"fade0c00000000340000000100000007000000170000000600000009000000070000000100000000000000070000001500000000", Status::Fine,
        b"legacy or ! (always or never) and (notarized or never)\n"),
    (b"fade0c000000001c00000001800000ff000000080000000000000000", Status::Fine,
        b"never /* opcode 0x800000ff, 8 bytes */\n"),
    (b"fade0c000000002000000001400000ff00000008000000000000000000000001", Status::Fine,
        b"/* skipped opcode 0x400000ff, 8 bytes */ always\n"),
    (b"fade0c0000000014000000010000000200000000", Status::Fine, b"identifier \"\"\n"),
    (b"fade0c0100000024000000010000000300000014fade0c00000000100000000100000001", Status::Fine,
        b"designated => always\n"),
    (b"fade0c010000000c00000000", Status::Fine, b""),
    (b"fade0c000000001000000001000000ff", Status::Refused,
        b"refused ops 3 UnknownOp at=12 op=0x000000ff\n"),
    (b"fade0c000000001c0000000100000002000000056162636465000001", Status::Refused,
        b"refused ops 7 BadPadding at=16\n"),
    (b"fade0c000000001a000000010000000200000005616263646500", Status::Refused,
        b"refused ops 6 Cut at=16\n"),
    (b"fade0c0000000010000000010000000100", Status::Refused, b"refused ops 10 Trailing at=16\n"),
    (b"", Status::Refused, b"refused ops 1 Blob 1 Short\n"),
    (b"fade0c01", Status::Refused, b"refused set 1 Blob 1 Short\n"),
    (b"fade0c0100000024000000010000000300000014fade0c00000000100000000100000016", Status::Refused,
        b"refused set 5 Part index=0 4 OutOfScopeOp at=12\n"),
];

/// Whether the command over the file `r` ends so and writes just this.
fn is_said(
    alloc: Global,
    command: &str,
    file: &[u8],
    end: Status,
    written: &[u8],
) -> Result<bool, AllocError> {
    let mut output = sink(alloc, &[])?;
    let ended = run_on_file(alloc, &[":memory:", command, "r"], "r", file, &mut output)?;
    let is = ended == end && output.written() == written;
    drop(output);
    Ok(is)
}

fn is_compiled(alloc: Global, command: &str, text: &[u8], blob: &[u8]) -> Result<bool, AllocError> {
    match hex::decode(alloc, blob) {
        Ok(bytes) => is_said(alloc, command, text, Status::Fine, bytes.as_slice()),
        Err(_) => Ok(false),
    }
}

fn is_dumped(alloc: Global, blob: &[u8], end: Status, text: &[u8]) -> Result<bool, AllocError> {
    match hex::decode(alloc, blob) {
        Ok(bytes) => is_said(alloc, "dump", bytes.as_slice(), end, text),
        Err(_) => Ok(false),
    }
}

#[test]
fn texts_are_compiled(rt: HostRuntime) -> Result<(), Fail> {
    for (command, text, blob) in COMPILED {
        let is = is_compiled(rt.alloc(), command, text, blob)?;
        assert!(rt; is);
    }
    Ok(())
}

#[test]
fn texts_are_refused(rt: HostRuntime) -> Result<(), Fail> {
    for (command, text, line) in REFUSED {
        let is = is_said(rt.alloc(), command, text, Status::Refused, line)?;
        assert!(rt; is);
    }
    Ok(())
}

#[test]
fn blobs_are_dumped(rt: HostRuntime) -> Result<(), Fail> {
    for (blob, end, text) in DUMPED {
        let is = is_dumped(rt.alloc(), blob, end, text)?;
        assert!(rt; is);
    }
    Ok(())
}

fn developer_id_is_dumped(alloc: Global) -> Result<bool, AllocError> {
    let mut line = Vec::from_slice(alloc, DEVELOPER_ID)?;
    line.push(b'\n')?;
    is_dumped(alloc, DEVELOPER_ID_BLOB, Status::Fine, line.as_slice())
}

#[test]
fn what_codesign_prints_comes_back(rt: HostRuntime) -> Result<(), Fail> {
    let is = developer_id_is_dumped(rt.alloc())?;
    assert!(rt; is);
    Ok(())
}
