//! The command `assess` over a signature file and its code.

ghost use Rattle.std.specs.Prelude.{None};

use crate::devices::{clock, sink, source};
use gk_io::{Fetched, Shelf, ShelfFault, Sink};
use memory_keeper::MemoryKeeper;
use spctl_cli::{Status, run};
use std::alloc::{AllocError, Global};
use std::test::Fail;

// A signature of one directory: SHA-256, pages of 4,096 bytes, two of them, and a code of 4,097 zero bytes. Its bytes
// were made from the layout by a program of a few lines, and its digests by another.
#[rattlefmt::skip]
const SIGNATURE: &[u8] = b"fade0cc0000000c4000000010000000000000014fade0c02000000b0000205000000000000000070000000600000000000000002000010012002000c0000000000000000000000000000000000000000000000000000000000000000000000000000000000000000000000000000000000000000636f6d2e6578616d706c652e61707000ad7facb2586fc6e966c004d7d1d16b024f5805ff7cb47c7a85dabd8b48892ca76e340b9cffb37a989ca544e6bb780a2c78901d3fb33738768511a30617afa01d";

// The same directory, and behind it an empty set of requirements, of which it has no digest.
#[rattlefmt::skip]
const WITH_REQUIREMENTS: &[u8] = b"fade0cc0000000d800000002000000000000001c00000002000000ccfade0c02000000b0000205000000000000000070000000600000000000000002000010012002000c0000000000000000000000000000000000000000000000000000000000000000000000000000000000000000000000000000000000000000636f6d2e6578616d706c652e61707000ad7facb2586fc6e966c004d7d1d16b024f5805ff7cb47c7a85dabd8b48892ca76e340b9cffb37a989ca544e6bb780a2c78901d3fb33738768511a30617afa01dfade0c010000000c00000000";

const DEFAULT: &[u8] =
    b"rejected at=5 rule=none latent=none label=no%20matching%20rule override=none source=rules cache=kept\n";

const UNSIGNED: &[u8] =
    b"rejected at=5 rule=none latent=none label=no%20usable%20signature override=none source=unsigned cache=none\n";

// Which byte of the signature is another, and what is then written: none is, the version is too low, a scatter
// vector is there, and the limit leaves one page too many.
#[rattlefmt::skip]
const CHANGED: [(usize, u8, Status, &[u8]); 4] = [
    (0,  0xfa, Status::Denied,  DEFAULT),
    (30, 0,    Status::Refused, b"refused code 3 BadVersion part=0\n"),
    (67, 4,    Status::Refused, b"refused code 8 Scatter part=0\n"),
    (55, 0,    Status::Refused, b"refused code 9 SlotCount part=0\n"),
];

// How long the code is and what its last byte is, and what is then written.
#[rattlefmt::skip]
const CODES: [(usize, u8, Status, &[u8]); 4] = [
    (4_097, 0, Status::Denied,  DEFAULT),
    (4_097, 1, Status::Refused, b"refused code 10 PageDiffers slot=1\n"),
    (4_096, 0, Status::Refused, b"refused code 11 CodeShort\n"),
    (4_098, 1, Status::Denied,  DEFAULT),
];

// Files by name that it doesn't tell; the call of this number fails.
#[derive(Drop)]
struct Files<'a> {
    signature: &'a [u8],
    code: &'a [u8],
    calls: u64,
    failing: u64,
    faults: u64,
}

impl<'a> Shelf for Files<'a> {
    ghost files = { λ _. None };

    ghost faults = { λ s. s.faults };

    fn fetch(
        &mut self,
        _alloc: Global,
        name: &str,
        limit: usize,
        into: &mut Vec<u8>,
    ) -> Result<Fetched, ShelfFault> {
        self.calls = self.calls.saturating_add(1);
        if self.calls == self.failing {
            self.faults = self.faults.saturating_add(1);
            return Err(ShelfFault::Failed);
        }
        let bytes = match name {
            "sig" => self.signature,
            "code" => self.code,
            _ => return Ok(Fetched::Missing),
        };
        if limit < bytes.len() {
            return Ok(Fetched::TooLong);
        }
        into.extend_from_slice(bytes)?;
        Ok(Fetched::Found)
    }
}

/// Whether a run over these files, of whose fetches one fails, ends so and writes just this at that time.
fn is_said(
    alloc: Global,
    words: &[&str],
    signature: &[u8],
    code: &[u8],
    failing: u64,
    now: u64,
    end: Status,
    written: &[u8],
) -> Result<bool, AllocError> {
    let mut input = source(alloc, b"", &[])?;
    let mut output = sink(alloc, &[])?;
    let mut files = Files {
        signature,
        code,
        calls: 0,
        failing,
        faults: 0,
    };
    let mut time = clock(alloc, now, &[2])?;
    let ended = run(
        alloc,
        words,
        &mut input,
        &mut output,
        &mut files,
        &mut MemoryKeeper::new(alloc),
        &mut time,
    );
    let is = ended == end && output.written() == written;
    drop(output);
    Ok(is)
}

const WITH_CODE: [&str; 5] = ["any", "assess", "execute", "sig", "code"];

fn is_changed(
    alloc: Global,
    at: usize,
    byte: u8,
    end: Status,
    written: &[u8],
) -> Result<bool, AllocError> {
    let code = vec![in alloc; 0; 4_097]?;
    match hex::decode(alloc, SIGNATURE) {
        Ok(mut bytes) if at < bytes.len() => {
            bytes[at] = byte;
            is_said(
                alloc,
                &WITH_CODE,
                bytes.as_slice(),
                code.as_slice(),
                0,
                5,
                end,
                written,
            )
        }
        _ => Ok(false),
    }
}

#[test]
fn a_signature_is_assessed_or_refused(rt: HostRuntime) -> Result<(), Fail> {
    for (at, byte, end, written) in CHANGED {
        let is = is_changed(rt.alloc(), at, byte, end, written)?;
        assert!(rt; is);
    }
    Ok(())
}

fn is_code(
    alloc: Global,
    length: usize,
    last: u8,
    end: Status,
    written: &[u8],
) -> Result<bool, AllocError> {
    let mut code = vec![in alloc; 0; length]?;
    if let Some(byte) = code.as_mut_slice().last_mut() {
        *byte = last;
    }
    match hex::decode(alloc, SIGNATURE) {
        Ok(bytes) => is_said(
            alloc,
            &WITH_CODE,
            bytes.as_slice(),
            code.as_slice(),
            0,
            5,
            end,
            written,
        ),
        Err(_) => Ok(false),
    }
}

#[test]
fn code_is_looked_at(rt: HostRuntime) -> Result<(), Fail> {
    for (length, last, end, written) in CODES {
        let is = is_code(rt.alloc(), length, last, end, written)?;
        assert!(rt; is);
    }
    Ok(())
}

fn parts_are_looked_at(alloc: Global) -> Result<bool, AllocError> {
    let line = b"refused code 12 PartDiffers kind=2\n";
    match hex::decode(alloc, WITH_REQUIREMENTS) {
        Ok(bytes) => is_said(
            alloc,
            &["", "assess", "install", "sig"],
            bytes.as_slice(),
            b"",
            0,
            5,
            Status::Refused,
            line,
        ),
        Err(_) => Ok(false),
    }
}

#[test]
fn a_part_without_a_digest_is_refused(rt: HostRuntime) -> Result<(), Fail> {
    let is = parts_are_looked_at(rt.alloc())?;
    assert!(rt; is);
    Ok(())
}

// Words, which fetch fails, the time, and how the run ends, where both files are empty.
#[rattlefmt::skip]
const UNSIGNED_RUNS: [(&[&str], u64, u64, Status, &[u8]); 8] = [
    (&[":memory:", "assess", "execute", "sig"], 0, 5, Status::Denied, UNSIGNED),
    (&[":memory:", "assess", "open", "sig", "code"], 0, 5, Status::Denied, UNSIGNED),
    (&[":memory:", "assess", "open", "sig"], 0, 18_446_744_073_709_551_615, Status::Denied,
        b"rejected at=253402300799 rule=none latent=none label=no%20usable%20signature override=none source=unsigned cache=none\n"),
    (&[":memory:", "assess", "open", "sog", "code"], 0, 5, Status::FileMissing, b"fault FileMissing name=sog\n"),
    (&[":memory:", "assess", "open", "sig", "cod"], 0, 5, Status::FileMissing, b"fault FileMissing name=cod\n"),
    (&[":memory:", "assess", "open", "sig", "code"], 1, 5, Status::ShelfFault, b"fault ShelfFault\n"),
    (&[":memory:", "assess", "open", "sig", "code"], 2, 5, Status::ShelfFault, b"fault ShelfFault\n"),
    (&[":memory:", "assess", "opens", "sig"], 0, 5, Status::Usage,
        b"usage: gatekeeper [--facts NAME] STORE COMMAND [WORDS]\n"),
];

#[test]
fn an_empty_file_is_no_signature(rt: HostRuntime) -> Result<(), Fail> {
    for (words, failing, now, end, written) in UNSIGNED_RUNS {
        let is = is_said(rt.alloc(), words, b"", b"", failing, now, end, written)?;
        assert!(rt; is);
    }
    Ok(())
}

fn a_clock_fails(alloc: Global) -> Result<bool, AllocError> {
    let mut input = source(alloc, b"", &[])?;
    let mut output = sink(alloc, &[])?;
    let mut files = Files {
        signature: b"no signature",
        code: b"",
        calls: 0,
        failing: 0,
        faults: 0,
    };
    let mut time = clock(alloc, 5, &[1])?;
    let words = [":memory:", "assess", "execute", "sig"];
    let ended = run(
        alloc,
        &words,
        &mut input,
        &mut output,
        &mut files,
        &mut MemoryKeeper::new(alloc),
        &mut time,
    );
    let is = ended == Status::ClockFault && output.written() == b"fault ClockFault\n".as_slice();
    drop(output);
    Ok(is)
}

// The files are fetched first, then the clock is asked, and only then the signature is looked at.
#[test]
fn a_clock_that_fails_is_told(rt: HostRuntime) -> Result<(), Fail> {
    let is = a_clock_fails(rt.alloc())?;
    assert!(rt; is);
    Ok(())
}
