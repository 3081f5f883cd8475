//! Counts under the turn lock and under a mutex of std, in one, two and four threads.

use crate::plan::{Plan, rate, read_plan};
use crate::{lock, mutex};
use std::alloc::Global;
use std::env::Env;
use std::io;
use std::sync::Wait;
use std::thread::Threads;
use std::time::{Clock, Instant};

const THREADS: [u64; 3] = [1, 2, 4];

/// The words are the turns that each thread takes, and `time` if the turns per second are to be printed too.
pub fn measure<R: Threads + Wait + Sync + Clock + Print + Env + Alloc>(
    rt: &R,
    alloc: Global,
) -> io::Result<()> {
    let plan = read_plan(rt, 1000)?;
    for threads in THREADS {
        count_with(rt, alloc, threads, plan)?;
    }
    Ok(())
}

fn count_with<R: Threads + Wait + Sync + Clock + Print>(
    rt: &R,
    alloc: Global,
    threads: u64,
    plan: Plan,
) -> io::Result<()> {
    let start = Instant::now(rt)?;
    let count = lock::count_of(rt, alloc, threads, plan.times);
    let locked = start.elapsed(rt)?.as_nanos();
    let start = Instant::now(rt)?;
    let same = mutex::count_of(rt, threads, plan.times);
    let held = start.elapsed(rt)?.as_nanos();
    println!(rt;
        "threads {threads}: lock {} mutex {same}",
        count.unwrap_or(0)
    )?;
    if plan.timed {
        println!(rt;
            "  turns per second: lock {} mutex {}",
            rate(same, locked),
            rate(same, held)
        )?;
    }
    Ok(())
}
