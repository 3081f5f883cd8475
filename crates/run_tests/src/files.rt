//! Files that aren't there or are too long, and devices that fail, under a command on a file.

use crate::devices::{clock, run_on_file, shelf, sink, source};
use memory_keeper::MemoryKeeper;
use spctl_cli::{Status, run};
use std::alloc::{AllocError, Global};
use std::test::Fail;

// The words of the command line, of which the last names a file, and what is written where it isn't there.
#[rattlefmt::skip]
const MISSING: [(&[&str], &[u8]); 6] = [
    (&[":memory:", "compile", "s"], b"fault FileMissing name=s\n"),
    (&["any store", "compile", "no file"], b"fault FileMissing name=no%20file\n"),
    (&["", "dump", ""], b"fault FileMissing name=-\n"),
    (&[":memory:", "dump", "-"], b"fault FileMissing name=%2D\n"),
    (&[":memory:", "dump", "a%b\n"], b"fault FileMissing name=a%25b%0A\n"),
    (&[":memory:", "dump", "\u{e9}"], b"fault FileMissing name=%C3%A9\n"),
];

/// Whether a run over one file, `r`, ends so and writes just this.
fn is_ended(
    alloc: Global,
    words: &[&str],
    file: &[u8],
    end: Status,
    written: &[u8],
) -> Result<bool, AllocError> {
    let mut output = sink(alloc, &[])?;
    let ended = run_on_file(alloc, words, "r", file, &mut output)?;
    let is = ended == end && output.written() == written;
    drop(output);
    Ok(is)
}

#[test]
fn a_file_that_is_missing_is_named(rt: HostRuntime) -> Result<(), Fail> {
    for (words, line) in MISSING {
        let is = is_ended(rt.alloc(), words, b"always", Status::FileMissing, line)?;
        assert!(rt; is);
    }
    Ok(())
}

/// Whether a file of so many spaces, which is no text and no blob, ends the command so, by a line that begins so.
fn is_ended_at(
    alloc: Global,
    command: &str,
    length: usize,
    end: Status,
    line: &[u8],
) -> Result<bool, AllocError> {
    let file = vec![in alloc; b' '; length]?;
    is_ended(
        alloc,
        &[":memory:", command, "r"],
        file.as_slice(),
        end,
        line,
    )
}

// A command, a length of its file, and how it ends: at the limit and one byte past it.
#[rattlefmt::skip]
const LENGTHS: [(&str, usize, Status, &[u8]); 6] = [
    ("compile", 65_536, Status::Refused, b"refused text 6 Syntax token=0\n"),
    ("compile", 65_537, Status::FileTooLong, b"fault FileTooLong name=r\n"),
    ("compileset", 65_536, Status::Fine, b"\xfa\xde\x0c\x01\0\0\0\x0c\0\0\0\0"),
    ("compileset", 65_537, Status::FileTooLong, b"fault FileTooLong name=r\n"),
    ("dump", 1_048_576, Status::Refused, b"refused ops 1 Blob 2 BadMagic\n"),
    ("dump", 1_048_577, Status::FileTooLong, b"fault FileTooLong name=r\n"),
];

#[test]
fn files_at_their_limits(rt: HostRuntime) -> Result<(), Fail> {
    for (command, length, end, line) in LENGTHS {
        let is = is_ended_at(rt.alloc(), command, length, end, line)?;
        assert!(rt; is);
    }
    Ok(())
}

/// Whether `compile r` over a file that says `always` ends so and writes just this, while these calls of the
/// shelf and of the sink fail.
fn is_cut(
    alloc: Global,
    fetching: &[u64],
    writing: &[u64],
    end: Status,
    written: &[u8],
) -> Result<bool, AllocError> {
    let mut input = source(alloc, b"tick 1\n", &[1])?;
    let mut output = sink(alloc, writing)?;
    let mut files = shelf(alloc, "r", b"always", fetching)?;
    let mut time = clock(alloc, 0, &[1])?;
    let words = [":memory:", "compile", "r"];
    let ended = run(
        alloc,
        &words,
        &mut input,
        &mut output,
        &mut files,
        &mut MemoryKeeper::new(alloc),
        &mut time,
    );
    let unread = input.faults() == 0 && time.faults() == 0;
    drop(files);
    let is = ended == end && output.written() == written && unread;
    drop(output);
    Ok(is)
}

const ALWAYS: &[u8] = b"\xfa\xde\x0c\0\0\0\0\x10\0\0\0\x01\0\0\0\x01";

#[rattlefmt::skip]
const FAILURES: [(&[u64], &[u64], Status, &[u8]); 7] = [
    (&[],  &[],  Status::Fine,       ALWAYS),
    (&[1], &[],  Status::ShelfFault, b"fault ShelfFault\n"),
    (&[2], &[],  Status::Fine,       ALWAYS),
    (&[],  &[1], Status::WriteFault, b""),
    (&[],  &[2], Status::WriteFault, ALWAYS),
    (&[1], &[1], Status::WriteFault, b""),
    (&[1], &[2], Status::WriteFault, b"fault ShelfFault\n"),
];

#[test]
fn each_call_that_fails_ends_the_command(rt: HostRuntime) -> Result<(), Fail> {
    for (fetching, writing, end, written) in FAILURES {
        let is = is_cut(rt.alloc(), fetching, writing, end, written)?;
        assert!(rt; is);
    }
    Ok(())
}
