//! Lines and sessions at their limits.

ghost use Rattle.std.specs.Prelude.{None};

use crate::devices::{SESSION, run_alone, sink};
use gk_io::{CallNumbers, Failed, MemorySource, Sink, Source};
use spctl_cli::Status;
use std::alloc::{AllocError, Global};
use std::test::Fail;

/// Whether a word of this length is refused so, and the line behind it is answered.
fn is_refused_alone(alloc: Global, length: usize, written: &[u8]) -> Result<bool, AllocError> {
    let mut bytes = vec![in alloc; b'a'; length]?;
    bytes.extend_from_slice(b"\ntick 1\n")?;
    let mut input = MemorySource::new(bytes, CallNumbers::new(alloc));
    let mut output = sink(alloc, &[])?;
    let ended = run_alone(alloc, &SESSION, &mut input, &mut output)?;
    drop(input);
    let is = ended == Status::Fine && output.written() == written;
    drop(output);
    Ok(is)
}

// A word of so many bytes is a line of no form, and one that is too long is refused as such.
#[rattlefmt::skip]
const LONG_LINES: [(usize, &[u8]); 4] = [
    (8_191, b"refused line 1 BadLine column=1\nnow=1\n"),
    (8_192, b"refused line 1 BadLine column=1\nnow=1\n"),
    (8_193, b"refused line 1 BadLine column=8193\nnow=1\n"),
    (8_194, b"refused line 1 BadLine column=8193\nnow=1\n"),
];

#[test]
fn a_line_past_its_limit_is_refused_alone(rt: HostRuntime) -> Result<(), Fail> {
    for (length, written) in LONG_LINES {
        let is = is_refused_alone(rt.alloc(), length, written)?;
        assert!(rt; is);
    }
    Ok(())
}

/// Whether an added requirement of this length, of spaces but for a word, gets this reply.
fn is_added(alloc: Global, length: usize, written: &[u8]) -> Result<bool, AllocError> {
    let mut bytes = Vec::new(alloc);
    bytes.extend_from_slice(b"add k execute allow 0 never - - always")?;
    for _ in 6..length {
        bytes.push(b' ')?;
    }
    let mut input = MemorySource::new(bytes, CallNumbers::new(alloc));
    let mut output = sink(alloc, &[])?;
    let ended = run_alone(alloc, &SESSION, &mut input, &mut output)?;
    drop(input);
    let is = ended == Status::Fine && output.written() == written;
    drop(output);
    Ok(is)
}

#[test]
fn a_requirement_has_its_limit(rt: HostRuntime) -> Result<(), Fail> {
    let is = is_added(rt.alloc(), 4_096, b"ok edit=1 rules=1\n")?
        && is_added(rt.alloc(), 4_097, b"refused line 7 RequirementTooLong\n")?;
    assert!(rt; is);
    Ok(())
}

/// Whether a long line behind this word is refused as too long.
fn is_too_long(alloc: Global, word: &[u8]) -> Result<bool, AllocError> {
    let mut bytes = word.to_vec(alloc)?;
    for _ in 0..8_193 {
        bytes.push(b' ')?;
    }
    let mut input = MemorySource::new(bytes, CallNumbers::new(alloc));
    let mut output = sink(alloc, &[])?;
    let ended = run_alone(alloc, &SESSION, &mut input, &mut output)?;
    drop(input);
    let is = ended == Status::Fine
        && output.written() == b"refused line 1 BadLine column=8193\n".as_slice();
    drop(output);
    Ok(is)
}

#[test]
fn its_length_is_the_first_thing_in_a_line(rt: HostRuntime) -> Result<(), Fail> {
    for word in [
        b"begin 1".as_slice(),
        b"finish 1",
        b"tick 5",
        b"status",
        b"add k",
    ] {
        let is = is_too_long(rt.alloc(), word)?;
        assert!(rt; is);
    }
    Ok(())
}

// Gives so many empty lines.
#[derive(Drop)]
struct EmptyLines {
    left: usize,
}

impl Source for EmptyLines {
    ghost left = { λ _. None };

    ghost faults = { λ _. 0 };

    fn read(&mut self, buf: &mut [u8]) -> Result<usize, Failed> {
        let count = buf.len().min(self.left);
        buf[..count].fill(b'\n');
        self.left -= count;
        Ok(count)
    }
}

// Counts the bytes that are written.
#[derive(Drop)]
struct Counted {
    bytes: usize,
}

impl Sink for Counted {
    ghost written = { λ _. None };

    ghost faults = { λ _. 0 };

    fn put(&mut self, bytes: &[u8]) -> Result<(), Failed> {
        self.bytes = self.bytes.saturating_add(bytes.len());
        Ok(())
    }

    fn flush(&mut self) -> Result<(), Failed> {
        Ok(())
    }
}

/// Whether a session of so many empty lines ends so and writes so many bytes.
fn is_ended(alloc: Global, lines: usize, end: Status, written: usize) -> Result<bool, AllocError> {
    let mut input = EmptyLines { left: lines };
    let mut output = Counted { bytes: 0 };
    let ended = run_alone(alloc, &SESSION, &mut input, &mut output)?;
    Ok(ended == end && output.bytes == written)
}

// Each reply is `refused line 1 BadLine column=1`.
#[test]
fn a_million_lines_are_answered(rt: HostRuntime) -> Result<(), Fail> {
    let fine = is_ended(rt.alloc(), 1_000_000, Status::Fine, 32_000_000)?;
    assert!(rt; fine);
    Ok(())
}

// The last line is `fault SessionTooLong`.
#[test]
fn a_line_more_ends_the_session(rt: HostRuntime) -> Result<(), Fail> {
    let long = is_ended(rt.alloc(), 1_000_001, Status::SessionTooLong, 32_000_021)?;
    assert!(rt; long);
    Ok(())
}
