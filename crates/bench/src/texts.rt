//! Requirement blobs of files, each printed as text, and its text parsed, many times over.

use crate::plan::{Plan, read_plan};
use line_text::Bytes;
use req_dumper::dump;
use req_ops::decode;
use req_parser::parse;
use req_tree::Req;
use std::alloc::Global;
use std::time::Instant;
use std::{env, fs, io};

/// The words are names of files, and how many megabytes of each and of its text are printed and parsed. With the word
/// `time` each line has of printing and of parsing the bytes, how often, and the nanoseconds.
pub fn measure(rt: &HostRuntime) -> io::Result<()> {
    let plan = read_plan(rt, 1)?;
    for word in env::args(rt)?.skip(2) {
        let word = word.as_str();
        if word != "time" && word.parse::<u64>().is_err() {
            measure_file(rt, word, plan)?;
        }
    }
    Ok(())
}

/// Prints one blob's text and parses it, and prints its name, and of each the bytes and how often.
fn measure_file(rt: &HostRuntime, name: &str, plan: Plan) -> io::Result<()> {
    let bytes = fs::read(rt, name)?;
    match decode(rt.alloc(), bytes.as_slice()) {
        Ok(req) => measure_requirement(rt, name, bytes.len(), &req, plan),
        Err(_) => println!(rt; "{name} is no requirement"),
    }
}

fn measure_requirement(
    rt: &HostRuntime,
    name: &str,
    size: usize,
    req: &Req,
    plan: Plan,
) -> io::Result<()> {
    let text = text_of(rt.alloc(), req);
    let length = text.as_slice().len();
    let start = Instant::now(rt)?;
    let printed = print_often(rt.alloc(), req, length, turns(plan.times, size));
    let printing = start.elapsed(rt)?.as_nanos();
    let start = Instant::now(rt)?;
    let parsed = parse_often(rt.alloc(), text.as_slice(), turns(plan.times, length));
    let parsing = start.elapsed(rt)?.as_nanos();
    if plan.timed {
        println!(rt; "{name} {size} {printed} {printing} {length} {parsed} {parsing}")
    } else {
        println!(rt;
            "{name}: {size} bytes, printed {printed} times; {length} bytes of text, parsed {parsed} times"
        )
    }
}

/// The text; empty where there is no memory for it.
fn text_of(alloc: Global, req: &Req) -> Bytes {
    match dump(alloc, req) {
        Ok(text) => text,
        Err(_) => Bytes::from_vec(Vec::new(alloc)),
    }
}

/// How often the requirement was printed in so many bytes.
fn print_often(alloc: Global, req: &Req, length: usize, times: u64) -> u64 {
    let mut count = 0u64;
    for _ in 0..times {
        if text_of(alloc, req).as_slice().len() == length {
            count = count.saturating_add(1);
        }
    }
    count
}

/// How often the text was read as a requirement.
fn parse_often(alloc: Global, text: &[u8], times: u64) -> u64 {
    let mut count = 0u64;
    for _ in 0..times {
        if is_parsed(alloc, text) {
            count = count.saturating_add(1);
        }
    }
    count
}

fn is_parsed(alloc: Global, text: &[u8]) -> bool {
    match parse(alloc, text) {
        Ok(_) => true,
        Err(_) => false,
    }
}

/// How often so many bytes make so many megabytes.
fn turns(megabytes: u64, length: usize) -> u64 {
    megabytes.saturating_mul(1_000_000) / (length as u64).max(1)
}
