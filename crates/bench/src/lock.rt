//! The count under the turn lock.
use std::alloc::Global;
use std::sync::Wait;
use std::thread::Threads;
use turn_count::{Counter, bump_times, count_of_four, count_of_two, counted};

fn count_of_one<R: Wait>(rt: &R, alloc: Global, times: u64) -> Option<u64> {
    let (lock, mut seat) = Counter::locked(alloc).ok()?;
    if !bump_times(rt, &lock, &mut seat, times) {
        return None;
    }
    counted(lock.close(seat))
}

/// The count of one, two or four threads; none if memory or the tickets run out.
pub fn count_of<R: Threads + Wait + Sync>(
    rt: &R,
    alloc: Global,
    threads: u64,
    times: u64,
) -> Option<u64> {
    match threads {
        1 => count_of_one(rt, alloc, times),
        2 => count_of_two(rt, alloc, times).ok(),
        4 => count_of_four(rt, alloc, times),
        _ => None,
    }
}
