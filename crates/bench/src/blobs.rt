//! Object identifiers and super-blobs, each read many times over.

use crate::plan::{rate, read_plan};
use crate::{oids, super_blobs};
use std::io;
use std::time::Instant;

/// The words are how often each is read, and `time` if the rates are to be printed too.
pub fn measure(rt: &HostRuntime) -> io::Result<()> {
    let plan = read_plan(rt, 1000)?;
    let start = Instant::now(rt)?;
    let bytes = oids::read_and_print(rt.alloc(), plan.times).unwrap_or(0);
    let oids = start.elapsed(rt)?.as_nanos();
    println!(rt; "object identifiers, read and printed: {bytes} bytes")?;
    let start = Instant::now(rt)?;
    let parts = super_blobs::read_whole(rt.alloc(), plan.times).unwrap_or(0);
    let blobs = start.elapsed(rt)?.as_nanos();
    println!(rt; "super-blobs of 64 parts: {parts} parts")?;
    if plan.timed {
        println!(rt;
            "  a second: {} object identifiers, {} super-blobs",
            rate(plan.times, oids),
            rate(plan.times, blobs)
        )?;
    }
    Ok(())
}
