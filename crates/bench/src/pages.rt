//! Code hashed in one piece, and page by page against a signature.

use crate::plan::read_plan;
use crate::signed;
use sha2::{Digest, Sha256};
use std::io;
use std::time::Instant;

/// The words are how many megabytes of code, and `time` if the rates are to be printed too.
pub fn measure(rt: &HostRuntime) -> io::Result<()> {
    let plan = read_plan(rt, 1)?;
    let pages = plan.times.min(64) as u32 * 256;
    let code = match signed::code(rt.alloc(), pages) {
        Ok(code) => code,
        Err(_) => return Ok(()),
    };
    let signature = signed::signature(rt.alloc(), code.as_slice(), pages);
    let start = Instant::now(rt)?;
    let digest = Sha256::digest(code.as_slice());
    let whole = start.elapsed(rt)?.as_nanos();
    println!(rt;
        "code of {} bytes, whose digest begins with {}",
        code.len(),
        digest[0]
    )?;
    let start = Instant::now(rt)?;
    let agrees = signed::agrees(&signature, code.as_slice());
    let paged = start.elapsed(rt)?.as_nanos();
    println!(rt; "its pages agree with its signature: {agrees}")?;
    if plan.timed {
        println!(rt;
            "  megabytes a second: {} in one piece, {} page by page",
            rate(code.len(), whole),
            rate(code.len(), paged)
        )?;
    }
    Ok(())
}

/// How many megabytes a second.
fn rate(bytes: usize, nanos: u128) -> u128 {
    bytes as u128 * 1_000 / nanos.max(1)
}
