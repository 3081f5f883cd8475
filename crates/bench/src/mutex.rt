//! The count under a mutex of std.
use std::sync::{Mutex, Wait};
use std::thread::{Threads, join};

fn add_times<R: Wait>(rt: &R, count: &Mutex<u64>, times: u64) {
    for _ in 0..times {
        let mut held = count.lock(rt);
        *held = held.wrapping_add(1);
    }
}

fn add_in_two<R: Threads + Wait + Sync>(rt: &R, count: &Mutex<u64>, times: u64) {
    join(
        rt,
        || add_times(rt, count, times),
        || add_times(rt, count, times),
    );
}

/// The count of one, two or four threads.
pub fn count_of<R: Threads + Wait + Sync>(rt: &R, threads: u64, times: u64) -> u64 {
    let count = Mutex::new(0u64);
    match threads {
        1 => add_times(rt, &count, times),
        2 => add_in_two(rt, &count, times),
        _ => {
            join(
                rt,
                || add_in_two(rt, &count, times),
                || add_in_two(rt, &count, times),
            );
        }
    }
    count.into_inner()
}
