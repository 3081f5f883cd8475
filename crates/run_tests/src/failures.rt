//! Each call of source and sink fails in turn.

use crate::devices::{SESSION, run_alone, sink, source};
use spctl_cli::Status;
use std::alloc::{AllocError, Global};
use std::test::Fail;

// Of one session: the calls of the source and of the sink that fail, the end, and all that was written. Its bytes
// come in one call, and a second call tells their end; each line is written by one call and flushed by one.
const CUT: &[u8] = b"tick 1\ntick 2\ntick";

#[rattlefmt::skip]
const FAILURES: [(&[u64], &[u64], Status, &[u8]); 14] = [
    (&[1], &[],  Status::ReadFault,  b"fault ReadFault\n"),
    (&[2], &[],  Status::ReadFault,  b"now=1\nnow=2\nfault ReadFault\n"),
    (&[3], &[],  Status::Fine,       b"now=1\nnow=2\nrefused line 1 BadLine column=5\n"),
    (&[],  &[1], Status::WriteFault, b""),
    (&[],  &[2], Status::WriteFault, b"now=1\n"),
    (&[],  &[3], Status::WriteFault, b"now=1\n"),
    (&[],  &[4], Status::WriteFault, b"now=1\nnow=2\n"),
    (&[],  &[5], Status::WriteFault, b"now=1\nnow=2\n"),
    (&[],  &[6], Status::WriteFault, b"now=1\nnow=2\nrefused line 1 BadLine column=5\n"),
    (&[],  &[7], Status::Fine,       b"now=1\nnow=2\nrefused line 1 BadLine column=5\n"),
    (&[],  &[1, 2], Status::WriteFault, b""),
    (&[],  &[2, 3], Status::WriteFault, b"now=1\n"),
    (&[2], &[5], Status::WriteFault, b"now=1\nnow=2\n"),
    (&[2], &[6], Status::WriteFault, b"now=1\nnow=2\nfault ReadFault\n"),
];

/// Whether the session ends so and writes just this while these calls fail, and each device counts one failure
/// at most.
fn is_cut(
    alloc: Global,
    reading: &[u64],
    writing: &[u64],
    end: Status,
    written: &[u8],
) -> Result<bool, AllocError> {
    let mut input = source(alloc, CUT, reading)?;
    let mut output = sink(alloc, writing)?;
    let ended = run_alone(alloc, &SESSION, &mut input, &mut output)?;
    let once = input.faults() <= 1 && output.faults() <= 1;
    drop(input);
    let is = ended == end && output.written() == written && once;
    drop(output);
    Ok(is)
}

#[test]
fn each_call_that_fails_ends_the_session(rt: HostRuntime) -> Result<(), Fail> {
    for (reading, writing, end, written) in FAILURES {
        let is = is_cut(rt.alloc(), reading, writing, end, written)?;
        assert!(rt; is);
    }
    Ok(())
}
