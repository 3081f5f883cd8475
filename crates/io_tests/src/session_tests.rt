//! Sessions over devices in memory, and over devices of these tests' own.

ghost use Rattle.std.specs.Prelude.{ℕ, List, None};

use crate::devices::{sink_of, source_of};
use gk_io::{Failed, MemorySink, MemorySource, Sink, Source};
use line_session::{Ended, Responder, run_session};
use line_text::LineText;
use std::alloc::{AllocError, Global};

// Answers each line by its first 1,000 bytes, and counts what it answered.
#[derive(Drop)]
struct Echo {
    answers: u64,
}

impl Responder for Echo {
    ghost answered = { λ _ _ _ _. Unit {0} };

    ghost ready = { λ _. Unit {0} };

    fn answer(
        &mut self,
        _alloc: Global,
        line: &[u8],
        out: &mut LineText,
    ) -> Result<(), AllocError> {
        self.answers = self.answers.saturating_add(1);
        let count = line.len().min(1_000);
        out.push_all(&line[..count]);
        Ok(())
    }
}

// Gives the same byte so many times, and tells nothing.
#[derive(Drop)]
struct Same {
    byte: u8,
    left: usize,
}

impl Source for Same {
    ghost left = { λ _. None };

    ghost faults = { λ _. 0 };

    fn read(&mut self, buf: &mut [u8]) -> Result<usize, Failed> {
        let count = buf.len().min(self.left);
        for byte in &mut buf[..count] {
            *byte = self.byte;
        }
        self.left -= count;
        Ok(count)
    }
}

// Gives the bytes of another source one at a time, and tells nothing.
#[derive(Drop)]
struct Trickle {
    inner: MemorySource,
}

impl Source for Trickle {
    ghost left = { λ _. None };

    ghost use Rattle.gk_io.specs.Memory.{source_faults};

    ghost faults = { λ s. source_faults s.inner };

    fn read(&mut self, buf: &mut [u8]) -> Result<usize, Failed> {
        let count = buf.len().min(1);
        self.inner.read(&mut buf[..count])
    }
}

// Counts the calls that write, and keeps no bytes.
#[derive(Drop)]
struct Count {
    puts: u64,
}

impl Sink for Count {
    ghost written = { λ _. None };

    ghost faults = { λ _. 0 };

    fn put(&mut self, _bytes: &[u8]) -> Result<(), Failed> {
        self.puts = self.puts.saturating_add(1);
        Ok(())
    }

    fn flush(&mut self) -> Result<(), Failed> {
        Ok(())
    }
}

// How a session of an echo ends, and how many lines it answers.
fn is_answered<S: Source, W: Sink>(
    alloc: Global,
    input: &mut S,
    output: &mut W,
    ended: Ended,
    answers: u64,
) -> bool {
    let mut echo = Echo { answers: 0 };
    run_session(alloc, &mut echo, input, output) == ended && echo.answers == answers
}

// The bytes of three lines, of which the last has no LF.
const THREE: &[u8] = b"a\nb\nc";

// The call that fails, and the replies of an echo to the three lines before it, a byte a call.
const READ_FAILS: [(u64, &[u8], u64); 6] = [
    (1, b"", 0),
    (2, b"", 0),
    (3, b"a\n", 1),
    (4, b"a\n", 1),
    (5, b"a\nb\n", 2),
    (6, b"a\nb\n", 2),
];

// How a session of an echo ends, what it writes and flushes, and how many lines it answers.
fn is_written<S: Source>(
    alloc: Global,
    input: &mut S,
    ended: Ended,
    written: &[u8],
    answers: u64,
) -> Result<bool, AllocError> {
    let mut output = sink_of(alloc, 100, 0, 0)?;
    Ok(
        is_answered(alloc, input, &mut output, ended, answers)
            && output.written() == written
            && output.flushed() == written,
    )
}

fn is_written_in_pieces(
    alloc: Global,
    bytes: &[u8],
    call: u64,
    ended: Ended,
    written: &[u8],
    answers: u64,
) -> Result<bool, AllocError> {
    let inner = source_of(alloc, bytes, call)?;
    is_written(alloc, &mut Trickle { inner }, ended, written, answers)
}

fn all_read_faults(alloc: Global) -> bool {
    for (call, written, answers) in READ_FAILS {
        if is_written_in_pieces(alloc, THREE, call, Ended::ReadFault, written, answers)
            != Ok(true)
        {
            return false;
        }
    }
    true
}

#[test]
fn each_read_fails_in_turn(rt: HostRuntime) {
    assert!(rt; all_read_faults(rt.alloc()));
}

// The call that fails, as the next one would, what is written before it, and how many lines were answered.
const WRITE_FAILS: [(u64, &[u8], u64); 6] = [
    (1, b"", 1),
    (2, b"a\n", 1),
    (3, b"a\n", 2),
    (4, b"a\nb\n", 2),
    (5, b"a\nb\n", 3),
    (6, b"a\nb\nc\n", 3),
];

fn is_write_fault(
    alloc: Global,
    call: u64,
    written: &[u8],
    answers: u64,
) -> Result<bool, AllocError> {
    let mut output = sink_of(alloc, 100, call, call.saturating_add(1))?;
    Ok(
        is_cut_off(alloc, &mut output, answers)?
            && output.written() == written
            && output.faults() == 1,
    )
}

fn is_cut_off(alloc: Global, output: &mut MemorySink, answers: u64) -> Result<bool, AllocError> {
    let mut input = source_of(alloc, THREE, 0)?;
    Ok(is_answered(alloc, &mut input, output, Ended::WriteFault, answers))
}

fn all_write_faults(alloc: Global) -> bool {
    for (call, written, answers) in WRITE_FAILS {
        if is_write_fault(alloc, call, written, answers) != Ok(true) {
            return false;
        }
    }
    true
}

#[test]
fn each_write_fails_in_turn_and_the_sink_is_called_no_more(rt: HostRuntime) {
    assert!(rt; all_write_faults(rt.alloc()));
}

// Inputs that are read to their end, the replies of an echo, and how many lines there are.
const FINE: [(&[u8], &[u8], u64); 6] = [
    (b"", b"", 0),
    (b"\n", b"\n", 1),
    (b"a\nb\nc", b"a\nb\nc\n", 3),
    (b"a\r\n\0\n", b"a\r\n\0\n", 2),
    (b"\n\n\0", b"\n\n\0\n", 3),
    (b"a\nb\n", b"a\nb\n", 2),
];

fn is_written_whole(
    alloc: Global,
    bytes: &[u8],
    written: &[u8],
    answers: u64,
) -> Result<bool, AllocError> {
    let mut input = source_of(alloc, bytes, 0)?;
    is_written(alloc, &mut input, Ended::Fine, written, answers)
}

fn all_are_echoed(alloc: Global) -> bool {
    for (bytes, written, answers) in FINE {
        if is_written_whole(alloc, bytes, written, answers) != Ok(true)
            || is_written_in_pieces(alloc, bytes, 0, Ended::Fine, written, answers) != Ok(true)
        {
            return false;
        }
    }
    true
}

#[test]
fn each_line_has_its_reply_whatever_the_pieces(rt: HostRuntime) {
    assert!(rt; all_are_echoed(rt.alloc()));
}

// A byte, how often it comes, and how many lines are answered.
const LIMITS: [(u8, usize, Ended, u64); 4] = [
    (b'\n', 1_000_000, Ended::Fine, 1_000_000),
    (b'\n', 1_000_001, Ended::TooLong, 1_000_000),
    (b'x', 268_435_456, Ended::Fine, 1),
    (b'x', 268_435_457, Ended::TooLong, 0),
];

fn is_limited(alloc: Global, byte: u8, left: usize, ended: Ended, answers: u64) -> bool {
    let mut input = Same { byte, left };
    let mut output = Count { puts: 0 };
    is_answered(alloc, &mut input, &mut output, ended, answers) && output.puts == answers
}

fn all_are_limited(alloc: Global) -> bool {
    for (byte, left, ended, answers) in LIMITS {
        if !is_limited(alloc, byte, left, ended, answers) {
            return false;
        }
    }
    true
}

#[test]
fn a_session_ends_at_its_limits_and_each_reply_is_one_write(rt: HostRuntime) {
    assert!(rt; all_are_limited(rt.alloc()));
}
