//! A line of a text with a mark below it.

use crate::shown::letter_of;
use std::alloc::AllocError;

/// Most bytes of a line that are shown, and most of them in front of the mark.
const SHOWN: usize = 76;

const BEFORE: usize = 40;

/// A part of a text.
#[derive(Clone, Copy, Drop)]
pub(crate) struct Span {
    pub at: usize,
    pub length: usize,
}

/// The line in which a part begins.
#[derive(Clone, Copy)]
pub(crate) struct Line<'a> {
    /// From 1.
    pub number: usize,
    /// How many of its bytes stand before the part.
    pub before: usize,
    pub bytes: &'a [u8],
}

/// The line of this place, or the last one where the place is behind all.
pub(crate) fn line_at(text: &[u8], at: usize) -> Line<'_> {
    let mut begin = 0_usize;
    let mut last = Line {
        number: 1,
        before: 0,
        bytes: text,
    };
    for (row, bytes) in text.split(|byte| *byte == b'\n').enumerate() {
        last = Line {
            number: row.saturating_add(1),
            before: at.saturating_sub(begin),
            bytes,
        };
        let end = begin.saturating_add(bytes.len());
        if at <= end {
            break;
        }
        begin = end.saturating_add(1);
    }
    last
}

/// Appends the part's line, and a mark below the part.
pub(crate) fn push_marked(
    out: &mut String,
    line: &Line<'_>,
    length: usize,
) -> Result<(), AllocError> {
    let from = line.before.saturating_sub(BEFORE);
    out.push_str("  ")?;
    for byte in line.bytes.iter().skip(from).take(SHOWN) {
        out.push(letter_of(*byte))?;
    }
    out.push_str("\n  ")?;
    for _ in from..line.before {
        out.push(' ')?;
    }
    for _ in 0..length.min(SHOWN - BEFORE).max(1) {
        out.push('^')?;
    }
    out.push('\n')
}
