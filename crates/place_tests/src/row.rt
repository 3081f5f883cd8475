//! One row: what it asks for, a space, and a text.

ghost use Rattle.std.specs.Prelude.{◌≤◌, length};
ghost use Rattle.line_text.specs.LineText.{line_bytes};

use line_text::LineText;
use req_parser::{TextFault, parse, parse_set};
use std::alloc::Global;

/// Where the text of a row stops, or `read`.
pub fn told(alloc: Global, row: &[u8]) -> LineText
    ensures { length (line_bytes result) ≤ 1000 }
{
    let mut out = LineText::new();
    let (asked, text) = parts(row);
    let fault = if asked == b"set".as_slice() {
        set_fault(alloc, text)
    } else {
        text_fault(alloc, text)
    };
    match fault {
        Some(fault) => fault.line_into(&mut out),
        None => out.push_all(b"read"),
    }
    out
}

fn text_fault(alloc: Global, text: &[u8]) -> Option<TextFault> {
    match parse(alloc, text) {
        Ok(req) => {
            drop(req);
            None
        }
        Err(fault) => Some(fault),
    }
}

fn set_fault(alloc: Global, text: &[u8]) -> Option<TextFault> {
    match parse_set(alloc, text) {
        Ok(set) => {
            drop(set);
            None
        }
        Err(fault) => Some(fault),
    }
}

/// What stands before the first space, and what stands behind it.
fn parts(row: &[u8]) -> (&[u8], &[u8]) {
    for (at, byte) in row.iter().enumerate() {
        if *byte == b' ' {
            return (row.split_at(at).0, row.split_at(at + 1).1);
        }
    }
    (row, b"")
}
