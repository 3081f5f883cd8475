//! Devices in memory that fail at one or two of their calls. Calls are counted from 1, so that 0 names none.
use gk_io::{CallNumbers, MemorySink, MemorySource};
use std::alloc::{AllocError, Global};

pub fn calls(alloc: Global, first: u64, second: u64) -> Result<CallNumbers, AllocError> {
    let mut list = CallNumbers::new(alloc);
    list.push(first)?;
    list.push(second)?;
    Ok(list)
}

pub fn source_of(alloc: Global, bytes: &[u8], call: u64) -> Result<MemorySource, AllocError> {
    let failing = calls(alloc, call, call)?;
    Ok(MemorySource::new(Vec::from_slice(alloc, bytes)?, failing))
}

pub fn sink_of(
    alloc: Global,
    room: usize,
    first: u64,
    second: u64,
) -> Result<MemorySink, AllocError> {
    MemorySink::with_room(alloc, room, calls(alloc, first, second)?)
}
