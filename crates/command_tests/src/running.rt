//! A run over a keeper, one file and some lines.

use gk_io::{CallNumbers, MemoryClock, MemoryFile, MemoryShelf, MemorySink, MemorySource};
use memory_keeper::MemoryKeeper;
use spctl_cli::{Status, run};
use std::alloc::{AllocError, Global};

/// The words of a run, the lines of its input, its end and its output.
pub type Run = (
    &'static [&'static str],
    &'static [u8],
    Status,
    &'static [u8],
);

/// A file by its name.
pub type Named = (&'static str, &'static [u8]);

/// Whether a run at moment 0 ends so and writes just this.
pub fn is_run(
    alloc: Global,
    keeper: &mut MemoryKeeper,
    file: Named,
    asked: &Run,
) -> Result<bool, AllocError> {
    let (words, lines, end, written) = *asked;
    let mut output = MemorySink::with_room(alloc, 4_096, CallNumbers::new(alloc))?;
    let ended = run_into(alloc, keeper, file, words, lines, &mut output)?;
    let is = ended == end && output.written() == written;
    drop(output);
    Ok(is)
}

/// A run over the keeper, a shelf of one file and these lines.
pub fn run_into(
    alloc: Global,
    keeper: &mut MemoryKeeper,
    file: Named,
    words: &[&str],
    lines: &[u8],
    output: &mut MemorySink,
) -> Result<Status, AllocError> {
    let mut input = MemorySource::new(lines.to_vec(alloc)?, CallNumbers::new(alloc));
    let mut shelf = shelf_of(alloc, file)?;
    let mut clock = MemoryClock::new(vec![in alloc; 0]?, CallNumbers::new(alloc));
    Ok(run(
        alloc, words, &mut input, output, &mut shelf, keeper, &mut clock,
    ))
}

/// A shelf of one file.
pub fn shelf_of(alloc: Global, file: (&str, &[u8])) -> Result<MemoryShelf, AllocError> {
    let mut files = Vec::new(alloc);
    files.push(MemoryFile {
        name: String::from_str(alloc, file.0)?,
        bytes: Vec::from_slice(alloc, file.1)?,
    })?;
    Ok(MemoryShelf::new(files, CallNumbers::new(alloc)))
}

/// Whether each of these runs, one after the other over the keeper, ends so and writes just this.
pub fn are_runs(
    alloc: Global,
    keeper: &mut MemoryKeeper,
    file: Named,
    runs: &[Run],
) -> Result<bool, AllocError> {
    let mut all = true;
    for asked in runs {
        let is = is_run(alloc, keeper, file, asked)?;
        all = all && is;
    }
    Ok(all)
}
