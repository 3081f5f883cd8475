//! Devices in memory.

use gk_io::{
    CallNumbers, MemoryClock, MemoryFile, MemoryShelf, MemorySink, MemorySource, Sink, Source,
};
use memory_keeper::MemoryKeeper;
use spctl_cli::{Status, run};
use std::alloc::{AllocError, Global};

pub const SESSION: [&str; 2] = [":memory:", "session"];

/// These numbers of calls.
pub fn numbers(alloc: Global, calls: &[u64]) -> Result<CallNumbers, AllocError> {
    let mut list = CallNumbers::new(alloc);
    for call in calls {
        list.push(*call)?;
    }
    Ok(list)
}

/// A sink of which these calls fail.
pub fn sink(alloc: Global, failing: &[u64]) -> Result<MemorySink, AllocError> {
    MemorySink::with_room(alloc, 4_096, numbers(alloc, failing)?)
}

/// A source of these bytes of which these calls fail.
pub fn source(alloc: Global, bytes: &[u8], failing: &[u64]) -> Result<MemorySource, AllocError> {
    Ok(MemorySource::new(bytes.to_vec(alloc)?, numbers(alloc, failing)?))
}

/// A clock of one moment of which these calls fail.
pub fn clock(alloc: Global, moment: u64, failing: &[u64]) -> Result<MemoryClock, AllocError> {
    let moments = vec![in alloc; moment]?;
    Ok(MemoryClock::new(moments, numbers(alloc, failing)?))
}

/// A shelf of one file, of which these calls fail.
pub fn shelf(
    alloc: Global,
    name: &str,
    bytes: &[u8],
    failing: &[u64],
) -> Result<MemoryShelf, AllocError> {
    let mut files = Vec::new(alloc);
    files.push(MemoryFile {
        name: String::from_str(alloc, name)?,
        bytes: Vec::from_slice(alloc, bytes)?,
    })?;
    Ok(MemoryShelf::new(files, numbers(alloc, failing)?))
}

/// A run over one file, without input, at moment 0.
pub fn run_on_file<W: Sink>(
    alloc: Global,
    words: &[&str],
    name: &str,
    bytes: &[u8],
    output: &mut W,
) -> Result<Status, AllocError> {
    let mut input = source(alloc, b"", &[])?;
    let mut files = shelf(alloc, name, bytes, &[])?;
    let mut time = clock(alloc, 0, &[])?;
    Ok(run(
        alloc,
        words,
        &mut input,
        output,
        &mut files,
        &mut MemoryKeeper::new(alloc),
        &mut time,
    ))
}

/// A run without files, at moment 0.
pub fn run_alone<S: Source, W: Sink>(
    alloc: Global,
    words: &[&str],
    input: &mut S,
    output: &mut W,
) -> Result<Status, AllocError> {
    let files: Vec<MemoryFile> = Vec::new(alloc);
    let mut shelf = MemoryShelf::new(files, CallNumbers::new(alloc));
    let mut clock = clock(alloc, 0, &[])?;
    Ok(run(
        alloc,
        words,
        input,
        output,
        &mut shelf,
        &mut MemoryKeeper::new(alloc),
        &mut clock,
    ))
}
