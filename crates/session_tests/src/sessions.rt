//! A session of a desk that is loaded from a keeper in memory.

use code_facts::FactTable;
use desk_lines::session_lines;
use desk_state::Desk;
use gk_io::{CallNumbers, MemorySink, MemorySource};
use line_session::Ended;
use memory_keeper::MemoryKeeper;
use raw_tables::{RawReceipts, RawRules, RawTables};
use std::alloc::{AllocError, Global};
use std::sync::Arc;

/// A keeper without rows, whose call of this number fails; none where it is 0.
fn keeper(alloc: Global, failing: u64) -> Result<MemoryKeeper, AllocError> {
    let mut calls = CallNumbers::new(alloc);
    calls.push(failing)?;
    let tables = RawTables {
        format: 1,
        switch: 1,
        receipts: RawReceipts::new(alloc),
        rules: RawRules::new(alloc),
    };
    Ok(MemoryKeeper::with(tables, calls))
}

/// Whether a session of a desk that knows what a facts file says gives just these replies. The keeper's call of this
/// number fails: the first one loads the desk.
pub fn is_session(
    alloc: Global,
    facts: &[u8],
    failing: u64,
    lines: &[u8],
    replies: &[u8],
) -> Option<bool> {
    let table = FactTable::read(alloc, facts).ok()?;
    let facts = Arc::new(alloc, table).ok()?;
    let mut keeper = keeper(alloc, failing).ok()?;
    let Ok(mut desk) = Desk::load(alloc, &mut keeper, facts) else {
        return None;
    };
    let bytes = Vec::from_slice(alloc, lines).ok()?;
    let mut input = MemorySource::new(bytes, CallNumbers::new(alloc));
    let mut output = MemorySink::with_room(alloc, 4_096, CallNumbers::new(alloc)).ok()?;
    let ended = session_lines(alloc, &mut desk, &mut keeper, &mut input, &mut output);
    let is = ended == Ended::Fine && output.written() == replies;
    Some(is)
}
