//! A facts file, read many times over.

use crate::plan::read_plan;
use code_facts::FactTable;
use std::time::Instant;
use std::{env, fs, io};

/// The words are names of facts files, and how often each is read; with the word `time` each line has the
/// nanoseconds.
pub fn measure(rt: &HostRuntime) -> io::Result<()> {
    let plan = read_plan(rt, 1)?;
    for word in env::args(rt)?.skip(2) {
        let word = word.as_str();
        if word != "time" && word.parse::<u64>().is_err() {
            measure_file(rt, word, plan.times, plan.timed)?;
        }
    }
    Ok(())
}

/// Reads one file so often, and prints its name, its bytes and how often it was a facts file.
fn measure_file(rt: &HostRuntime, name: &str, times: u64, timed: bool) -> io::Result<()> {
    let bytes = fs::read(rt, name)?;
    let start = Instant::now(rt)?;
    let mut read = 0u64;
    for _ in 0..times {
        if FactTable::read(rt.alloc(), bytes.as_slice()).is_ok() {
            read = read.saturating_add(1);
        }
    }
    let reading = start.elapsed(rt)?.as_nanos();
    if timed {
        println!(rt; "{name} {} {read} {reading}", bytes.len())
    } else {
        println!(rt; "{name}: {} bytes, read {read} times", bytes.len())
    }
}
