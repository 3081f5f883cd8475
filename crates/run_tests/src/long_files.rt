//! Files of the greatest size that a command takes, and of one byte more.

ghost use Rattle.std.specs.Prelude.{None};

use crate::devices::{clock, sink, source};
use gk_io::{Fetched, Shelf, ShelfFault, Sink};
use memory_keeper::MemoryKeeper;
use spctl_cli::{Status, run};
use std::alloc::{AllocError, Global};
use std::test::Fail;

const PIECE: [u8; 65_536] = [b'\n'; 65_536];

/// The front, and behind it line feeds up to this length.
fn fill(into: &mut Vec<u8>, front: &[u8], length: usize) -> Result<(), AllocError> {
    into.extend_from_slice(front)?;
    let left = length.saturating_sub(front.len());
    for _ in 0..left / PIECE.len() {
        into.extend_from_slice(&PIECE)?;
    }
    into.extend_from_slice(&PIECE[..left % PIECE.len()])
}

// A file `long` that begins so and has this length, and an empty one under any other name. Where it isn't handed over
// whole, it is empty too, but of its length for the limit.
#[derive(Drop)]
struct LongFile {
    front: &'static [u8],
    length: usize,
    whole: bool,
}

impl Shelf for LongFile {
    ghost files = { λ _. None };

    ghost faults = { λ _. 0 };

    fn fetch(
        &mut self,
        _alloc: Global,
        name: &str,
        limit: usize,
        into: &mut Vec<u8>,
    ) -> Result<Fetched, ShelfFault> {
        if name != "long" {
            return Ok(Fetched::Found);
        }
        if limit < self.length {
            return Ok(Fetched::TooLong);
        }
        if !self.whole {
            return Ok(Fetched::Found);
        }
        fill(into, self.front, self.length)?;
        if into.len() == self.length {
            Ok(Fetched::Found)
        } else {
            Ok(Fetched::Missing)
        }
    }
}

struct Row {
    words: &'static [&'static str],
    front: &'static [u8],
    most: usize,
    whole: bool,
    end: Status,
    written: &'static [u8],
}

const UNSIGNED: &[u8] =
    b"rejected at=5 rule=none latent=none label=no%20usable%20signature override=none source=unsigned cache=none\n";

// The words of a command, how its long file begins, how many bytes it may have, and how the run then ends: what is
// wrong with a file is told only of one that was read. A code file isn't handed over whole: without a signature none is
// looked at.
#[rattlefmt::skip]
const FACTS_FILE: Row = Row { words: &["--facts", "long", ":memory:", "session"], front: b"no header\n", most: 67_108_864, whole: true, end: Status::BadFacts, written: b"fault BadFacts 1 BadRow row=1\n" };

#[rattlefmt::skip]
const IMPORT_FILE: Row = Row { words: &[":memory:", "import", "long"], front: b"no header\n", most: 67_108_864, whole: true, end: Status::Refused, written: b"refused import 1 BadHeader\n" };

#[rattlefmt::skip]
const SIGNATURE_FILE: Row = Row { words: &[":memory:", "assess", "execute", "long"], front: b"", most: 16_777_216, whole: true, end: Status::Refused, written: b"refused code 1 Super 2 BadMagic\n" };

#[rattlefmt::skip]
const CODE_FILE: Row = Row { words: &[":memory:", "assess", "execute", "none", "long"], front: b"", most: 268_435_456, whole: false, end: Status::Denied, written: UNSIGNED };

/// Whether a run over a long file of this length ends so and writes just this.
fn is_ended(
    alloc: Global,
    row: &Row,
    length: usize,
    end: Status,
    written: &[u8],
) -> Result<bool, AllocError> {
    let mut input = source(alloc, b"tick 1\n", &[])?;
    let mut output = sink(alloc, &[])?;
    let mut files = LongFile {
        front: row.front,
        length,
        whole: row.whole,
    };
    let mut time = clock(alloc, 5, &[])?;
    let ended = run(
        alloc,
        row.words,
        &mut input,
        &mut output,
        &mut files,
        &mut MemoryKeeper::new(alloc),
        &mut time,
    );
    drop(input);
    let is = ended == end && output.written() == written;
    drop(output);
    Ok(is)
}

/// Whether a file of the greatest size is read, and one of a byte more is too long.
fn has_limit(alloc: Global, row: &Row) -> Result<bool, AllocError> {
    let line = b"fault FileTooLong name=long\n";
    let read = is_ended(alloc, row, row.most, row.end, row.written)?;
    let more = row.most.saturating_add(1);
    let refused = is_ended(alloc, row, more, Status::FileTooLong, line)?;
    Ok(read && refused)
}

#[test]
fn a_facts_file_has_its_limit(rt: HostRuntime) -> Result<(), Fail> {
    let has = has_limit(rt.alloc(), &FACTS_FILE)?;
    assert!(rt; has);
    Ok(())
}

#[test]
fn an_import_file_has_its_limit(rt: HostRuntime) -> Result<(), Fail> {
    let has = has_limit(rt.alloc(), &IMPORT_FILE)?;
    assert!(rt; has);
    Ok(())
}

#[test]
fn a_signature_file_has_its_limit(rt: HostRuntime) -> Result<(), Fail> {
    let has = has_limit(rt.alloc(), &SIGNATURE_FILE)?;
    assert!(rt; has);
    Ok(())
}

#[test]
fn a_code_file_has_its_limit(rt: HostRuntime) -> Result<(), Fail> {
    let has = has_limit(rt.alloc(), &CODE_FILE)?;
    assert!(rt; has);
    Ok(())
}
