//! Sessions whose replies were worked out by hand, and words that are no command.

ghost use Rattle.std.specs.Prelude.{None};

use crate::devices::{SESSION, run_alone, sink, source};
use gk_io::{Failed, MemorySource, Source};
use spctl_cli::Status;
use std::alloc::{AllocError, Global};
use std::test::Fail;

// Lines, and the replies that were worked out by hand.
#[rattlefmt::skip]
const SESSIONS: [(&str, &[u8], &[u8]); 8] = [
    ("no bytes", b"", b""),
    ("one rule",
        b"tick 100\nadd k1 execute allow 0 never - - always\nassess execute 1111111111111111111111111111111111111111 com.example.app 0\n",
        b"now=100\nok edit=1 rules=1\naccepted at=100 rule=1 latent=none label=- override=none source=rules cache=kept\n"),
    ("a tie",
        b"add a execute deny 5 never - - always\nadd b execute allow 5 never - - always\nassess execute 1111111111111111111111111111111111111111 com.example.app 0\n",
        b"ok edit=1 rules=1\nok edit=2 rules=1\nrejected at=0 rule=1 latent=none label=- override=none source=rules cache=kept\n"),
    ("an end",
        b"status\nadd a execute allow 0 100 - - cdhash H\"1111111111111111111111111111111111111111\"\ntick 100\ntick 7\nassess execute 1111111111111111111111111111111111111111 com.example.app 0\n",
        b"status assessments=enabled rules=0 receipts=0 objects=0 now=0\nok edit=1 rules=1\nnow=100\nnow=100\nrejected at=100 rule=none latent=none label=no%20matching%20rule override=none source=rules cache=kept\n"),
    ("a key again",
        b"add k1 execute allow 0 never - - always\nadd k1 execute allow 0 never - - always\nadd k1 execute deny 0 never - - always\n",
        b"ok edit=1 rules=1\nrepeated edit=1 rules=1\nrefused edit 12 KeyReused edit=1 rules=1\n"),
    ("no last LF", b"tick 5\ntick 6", b"now=5\nnow=6\n"),
    ("CR and zero", b"tick 5\r\ntick\x005\n", b"refused line 4 BadMoment\nrefused line 1 BadLine column=1\n"),
    ("empty words", b"\ntick  5\n", b"refused line 1 BadLine column=1\nrefused line 4 BadMoment\n"),
];

const USAGE: &[u8] = b"usage: gatekeeper [--facts NAME] STORE COMMAND [WORDS]\n";

const OTHER_WORDS: [&[&str]; 12] = [
    &[],
    &["session"],
    &[":memory:"],
    &[":memory:", ""],
    &[":memory:", "frob"],
    &[":memory:", "session", "now"],
    &[":memory:", "status", "now"],
    &[":memory:", "list", "now"],
    &[":memory:", "import"],
    &["session", ":memory:"],
    &["--facts", ":memory:", "session"],
    &["--frob", ":memory:", "session"],
];

/// Whether a run over these words and bytes ends so and writes just this.
fn is_run(
    alloc: Global,
    words: &[&str],
    bytes: &[u8],
    end: Status,
    written: &[u8],
) -> Result<bool, AllocError> {
    let mut input = source(alloc, bytes, &[])?;
    let mut output = sink(alloc, &[])?;
    let ended = run_alone(alloc, words, &mut input, &mut output)?;
    drop(input);
    let is = ended == end && output.written() == written;
    drop(output);
    Ok(is)
}

#[test]
fn sessions_are_answered(rt: HostRuntime) -> Result<(), Fail> {
    for (_name, lines, replies) in SESSIONS {
        let is = is_run(rt.alloc(), &SESSION, lines, Status::Fine, replies)?;
        assert!(rt; is);
    }
    Ok(())
}

#[test]
fn other_words_are_told_the_usage(rt: HostRuntime) -> Result<(), Fail> {
    for words in OTHER_WORDS {
        let is = is_run(rt.alloc(), words, b"tick 1\n", Status::Usage, USAGE)?;
        assert!(rt; is);
    }
    Ok(())
}

// Gives the bytes of another source one at a time.
#[derive(Drop)]
struct OneByOne {
    bytes: MemorySource,
}

impl Source for OneByOne {
    ghost use Rattle.gk_io.specs.Memory.{source_faults};

    ghost left = { λ _. None };

    ghost faults = { λ s. source_faults s.bytes };

    fn read(&mut self, buf: &mut [u8]) -> Result<usize, Failed> {
        let end = buf.len().min(1);
        self.bytes.read(&mut buf[..end])
    }
}

/// Whether a session of these bytes, read one at a time, writes just this.
fn is_answered_one_by_one(alloc: Global, bytes: &[u8], written: &[u8]) -> Result<bool, AllocError> {
    let bytes = source(alloc, bytes, &[])?;
    let mut input = OneByOne { bytes };
    let mut output = sink(alloc, &[])?;
    let ended = run_alone(alloc, &SESSION, &mut input, &mut output)?;
    drop(input);
    let is = ended == Status::Fine && output.written() == written;
    drop(output);
    Ok(is)
}

#[test]
fn bytes_that_come_one_by_one_are_the_same_lines(rt: HostRuntime) -> Result<(), Fail> {
    for (_name, lines, replies) in SESSIONS {
        let is = is_answered_one_by_one(rt.alloc(), lines, replies)?;
        assert!(rt; is);
    }
    Ok(())
}

#[test]
fn each_status_has_its_code(rt: HostRuntime) {
    let codes = [
        Status::Fine.code(),
        Status::ReadFault.code(),
        Status::WriteFault.code(),
        Status::SessionTooLong.code(),
        Status::Usage.code(),
        Status::OutOfMemory.code(),
        Status::Denied.code(),
        Status::ShelfFault.code(),
        Status::ClockFault.code(),
        Status::FileMissing.code(),
        Status::FileTooLong.code(),
        Status::Refused.code(),
    ];
    assert!(rt; codes == [0, 1, 1, 1, 2, 4, 3, 1, 1, 1, 1, 1]);
}
