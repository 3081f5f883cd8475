//! Requirement blobs of files, each read and written many times over.

use crate::plan::{Plan, read_plan};
use crate::requirements;
use std::time::Instant;
use std::{env, fs, io};

/// The words are names of files, and how many megabytes of each are read and written. With the word `time` each
/// line has how often, and the nanoseconds of reading and of writing.
pub fn measure(rt: &HostRuntime) -> io::Result<()> {
    let plan = read_plan(rt, 1)?;
    for word in env::args(rt)?.skip(2) {
        let word = word.as_str();
        if word != "time" && word.parse::<u64>().is_err() {
            measure_file(rt, word, plan)?;
        }
    }
    Ok(())
}

/// Reads and writes one blob, and prints its name, its bytes and how often.
fn measure_file(rt: &HostRuntime, name: &str, plan: Plan) -> io::Result<()> {
    let bytes = fs::read(rt, name)?;
    let times = turns(plan.times, bytes.len());
    let start = Instant::now(rt)?;
    let read = requirements::read_often(rt.alloc(), bytes.as_slice(), times);
    let reading = start.elapsed(rt)?.as_nanos();
    let start = Instant::now(rt)?;
    let written = requirements::write_often(rt.alloc(), bytes.as_slice(), times);
    let writing = start.elapsed(rt)?.as_nanos();
    if plan.timed {
        println!(rt; "{name} {} {times} {reading} {writing}", bytes.len())
    } else {
        println!(rt;
            "{name}: {} bytes, read {read} times, written {written} times",
            bytes.len()
        )
    }
}

/// How often so many bytes make so many megabytes.
fn turns(megabytes: u64, length: usize) -> u64 {
    megabytes.saturating_mul(1_000_000) / (length as u64).max(1)
}
