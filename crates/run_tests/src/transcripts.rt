//! Transcripts of sessions: lines behind `> `, each with its reply under it.

use crate::devices::{SESSION, run_alone, sink};
use gk_io::{CallNumbers, MemorySource, Sink};
use spctl_cli::Status;
use std::alloc::{AllocError, Global};

/// The lines of a transcript and the replies, each ended by its LF.
fn parts(alloc: Global, transcript: &[u8]) -> Result<(Vec<u8>, Vec<u8>), AllocError> {
    let mut lines = Vec::new(alloc);
    let mut replies = Vec::new(alloc);
    for row in transcript.split(|byte| *byte == b'\n') {
        match row {
            [b'>', b' ', line @ ..] => {
                lines.extend_from_slice(line)?;
                lines.push(b'\n')?;
            }
            _ => {
                replies.extend_from_slice(row)?;
                replies.push(b'\n')?;
            }
        }
    }
    Ok((lines, replies))
}

/// Whether a session of the lines ends well and writes just the replies.
pub fn is_answered_so(alloc: Global, transcript: &[u8]) -> Result<bool, AllocError> {
    let (lines, replies) = parts(alloc, transcript)?;
    let mut input = MemorySource::new(lines, CallNumbers::new(alloc));
    let mut output = sink(alloc, &[])?;
    let ended = run_alone(alloc, &SESSION, &mut input, &mut output)?;
    drop(input);
    let is = ended == Status::Fine && output.written() == replies.as_slice();
    drop(output);
    Ok(is)
}
