//! Each limit on both sides, and texts of the greatest length that are one run.

use crate::refusals::is_refused_as;
use req_parser::parse;
use req_tree::depth;
use std::alloc::{AllocError, Global};
use std::test::Fail;

fn push_times(text: &mut Vec<u8>, piece: &[u8], times: usize) -> Result<(), AllocError> {
    for _ in 0..times {
        for byte in piece {
            text.push(*byte)?;
        }
    }
    Ok(())
}

/// The front so many times, the middle, and the back so many times.
pub fn around(
    alloc: Global,
    front: &[u8],
    middle: &[u8],
    back: &[u8],
    times: usize,
) -> Result<Vec<u8>, AllocError> {
    let mut text = Vec::new(alloc);
    push_times(&mut text, front, times)?;
    push_times(&mut text, middle, 1)?;
    push_times(&mut text, back, times)?;
    Ok(text)
}

fn has_depth(alloc: Global, text: &[u8], want: usize) -> bool {
    match parse(alloc, text) {
        Ok(req) => {
            let found = depth(&req);
            drop(req);
            found == want
        }
        Err(_) => false,
    }
}

struct Deep {
    front: &'static [u8],
    back: &'static [u8],
    times: usize,
    depth: usize,
}

// The most of each, round `always`: parentheses, denials, a chain, operands in parentheses, spaces.
#[rattlefmt::skip]
const MOST: [Deep; 5] = [
    Deep { front: b"(", back: b")", times: 256, depth: 1 },
    Deep { front: b"!", back: b"", times: 255, depth: 256 },
    Deep { front: b"never or ", back: b"", times: 255, depth: 256 },
    Deep { front: b"never and (", back: b")", times: 255, depth: 256 },
    Deep { front: b" ", back: b"", times: 65530, depth: 1 },
];

fn is_deep(alloc: Global, row: &Deep, times: usize) -> bool {
    match around(alloc, row.front, b"always", row.back, times) {
        Ok(text) => has_depth(alloc, text.as_slice(), row.depth),
        Err(_) => false,
    }
}

fn all_deep(alloc: Global) -> bool {
    let mut all = true;
    for row in &MOST {
        all = all && is_deep(alloc, row, row.times);
    }
    all
}

#[test]
fn the_most_is_taken(rt: HostRuntime) {
    assert!(rt; all_deep(rt.alloc()));
}

fn is_refused_beyond(alloc: Global, row: &Deep, times: usize) -> bool {
    let want: &[u8] = if row.times > 60000 {
        b"8 TextTooLong"
    } else {
        b"7 TooDeep"
    };
    match around(alloc, row.front, b"always", row.back, times) {
        Ok(text) => is_refused_as(alloc, text.as_slice(), want),
        Err(_) => false,
    }
}

fn all_refused_beyond(alloc: Global) -> bool {
    let mut all = true;
    for row in &MOST {
        all = all && is_refused_beyond(alloc, row, row.times.saturating_add(1));
    }
    all
}

#[test]
fn one_more_is_refused(rt: HostRuntime) {
    assert!(rt; all_refused_beyond(rt.alloc()));
}

struct Run {
    front: &'static [u8],
    middle: &'static [u8],
    back: &'static [u8],
    times: usize,
    want: &'static [u8],
}

// Texts of up to 65,536 bytes that are one run; and right parentheses, which are counted without a floor.
#[rattlefmt::skip]
const RUNS: [Run; 9] = [
    Run { front: b"!", middle: b"", back: b"", times: 65536, want: b"6 Syntax token=65536" },
    Run { front: b"(", middle: b"", back: b"", times: 65536, want: b"7 TooDeep" },
    Run { front: b")", middle: b"", back: b"", times: 65536, want: b"6 Syntax token=0" },
    Run { front: b"always and ", middle: b"always", back: b"", times: 5957, want: b"7 TooDeep" },
    Run { front: b"/**/", middle: b"", back: b"", times: 16384, want: b"6 Syntax token=0" },
    Run { front: b"", middle: b"\"", back: b"a", times: 65535, want: b"2 OpenString at=0" },
    Run { front: b"a.", middle: b"a", back: b"", times: 32767, want: b"6 Syntax token=0" },
    Run { front: b"(", middle: b"", back: b")", times: 300, want: b"7 TooDeep" },
    Run { front: b")", middle: b"", back: b"(", times: 300, want: b"6 Syntax token=0" },
];

fn is_told(alloc: Global, row: &Run) -> bool {
    match around(alloc, row.front, row.middle, row.back, row.times) {
        Ok(text) => is_refused_as(alloc, text.as_slice(), row.want),
        Err(_) => false,
    }
}

fn all_told(alloc: Global) -> bool {
    let mut all = true;
    for row in &RUNS {
        all = all && is_told(alloc, row);
    }
    all
}

#[test]
fn long_runs_are_read(rt: HostRuntime) {
    assert!(rt; all_told(rt.alloc()));
}
