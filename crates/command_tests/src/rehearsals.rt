//! A rehearsal run twice.

use crate::running::run_into;
use gk_io::{CallNumbers, MemorySink};
use memory_keeper::MemoryKeeper;
use spctl_cli::Status;
use std::alloc::{AllocError, Global};
use std::test::Fail;

/// What a rehearsal of ten thousand lines writes.
fn rehearsed(alloc: Global) -> Result<MemorySink, AllocError> {
    let mut output = MemorySink::with_room(alloc, 1_000, CallNumbers::new(alloc))?;
    let words = [":memory:", "rehearse", "10000"];
    let ended = run_into(
        alloc,
        &mut MemoryKeeper::new(alloc),
        ("none", b""),
        &words,
        b"",
        &mut output,
    )?;
    if ended != Status::Fine {
        return Err(AllocError);
    }
    Ok(output)
}

#[test]
fn a_rehearsal_run_twice_gives_the_same_line(rt: HostRuntime) -> Result<(), Fail> {
    let first = rehearsed(rt.alloc())?;
    let second = rehearsed(rt.alloc())?;
    let begins = first.written().starts_with(b"steps=10000 accepted=");
    let same = begins && first.written() == second.written();
    assert!(rt; same);
    Ok(())
}
