//! What the words ask for.

use std::env::Env;
use std::{env, io};

/// How often something is done, and whether its speed is to be printed.
#[derive(Clone, Copy)]
pub struct Plan {
    pub times: u64,
    pub timed: bool,
}

/// Reads a number and the word `time`, in any order, and passes over other words.
pub fn read_plan<R: Env + Alloc>(rt: &R, times: u64) -> io::Result<Plan> {
    let mut plan = Plan {
        times,
        timed: false,
    };
    for word in env::args(rt)?.skip(2) {
        match word.as_str().parse::<u64>() {
            Ok(number) => plan.times = number,
            Err(_) => plan.timed = plan.timed || word.as_str() == "time",
        }
    }
    Ok(plan)
}

/// How many a second.
pub fn rate(times: u64, nanos: u128) -> u128 {
    times as u128 * 1_000_000_000 / nanos.max(1)
}
