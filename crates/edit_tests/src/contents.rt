//! Contents: canonical texts that are read back, and texts that are another content's or none.

use line_text::LineText;
use rule_edits::{content_is, content_text, read_content};
use std::alloc::Global;
use std::test::Fail;

struct Row {
    text: &'static [u8],
    canonical: &'static [u8],
    other: &'static [u8],
}

#[rattlefmt::skip]
const ROWS: [Row; 10] = [
    Row { text: b"add execute allow 0.50 never - - true", canonical: b"add execute allow 0.5 never - - true", other: b"add execute allow 0.5 never - - always" },
    Row { text: b"add open deny -7 77 a default always", canonical: b"add open deny -7 77 a default always", other: b"add open deny -7 77 a default always " },
    Row { text: b"remove id 007 any", canonical: b"remove id 7 any", other: b"remove id 7 open" },
    Row { text: b"enable label a%20b any", canonical: b"enable label a%20b any", other: b"enable label a any" },
    Row { text: b"disable label a any", canonical: b"disable label a any", other: b"enable label a any" },
    Row { text: b"expire id 7 any never", canonical: b"expire id 7 any never", other: b"expire id 7 any 0" },
    Row { text: b"expire id 7 any 007", canonical: b"expire id 7 any 7", other: b"expire id 7 any" },
    Row { text: b"switch on", canonical: b"switch on", other: b"switch off" },
    Row { text: b"switch off", canonical: b"switch off", other: b"switch" },
    Row { text: b"remove label id install", canonical: b"remove label id install", other: b"" },
];

fn is_canonical(alloc: Global, row: &Row) -> bool {
    let Ok(content) = read_content(alloc, row.text) else {
        return false;
    };
    let is = content_is(&content, row.canonical);
    let no = !content_is(&content, row.other);
    match content_text(alloc, &content) {
        Ok(text) => is && no && text.as_slice() == row.canonical,
        Err(_) => false,
    }
}

fn all_canonical(alloc: Global) -> bool {
    let mut all = true;
    for row in &ROWS {
        all = all && is_canonical(alloc, row);
    }
    all
}

#[test]
fn contents_have_one_text(rt: HostRuntime) {
    assert!(rt; all_canonical(rt.alloc()));
}

struct Refused {
    text: &'static [u8],
    refusal: &'static [u8],
}

#[rattlefmt::skip]
const REFUSED: [Refused; 8] = [
    Refused { text: b"", refusal: b"refused line 1 BadLine column=1" },
    Refused { text: b"status", refusal: b"refused line 1 BadLine column=1" },
    Refused { text: b"switch", refusal: b"refused line 1 BadLine column=7" },
    Refused { text: b"switch k on", refusal: b"refused line 1 BadLine column=8" },
    Refused { text: b"remove k id 7 any", refusal: b"refused line 1 BadLine column=8" },
    Refused { text: b"expire id 7 any x", refusal: b"refused line 4 BadMoment" },
    Refused { text: b"add execute allow x never - - always", refusal: b"refused line 3 BadPriority" },
    Refused { text: b"add execute allow 0 never - - and", refusal: b"refused line 2 BadRequirement 6 Syntax token=0" },
];

fn is_refused(alloc: Global, row: &Refused) -> bool {
    match read_content(alloc, row.text) {
        Ok(content) => {
            drop(content);
            false
        }
        Err(fault) => {
            let mut out = LineText::new();
            fault.line_into(&mut out);
            out.as_slice() == row.refusal
        }
    }
}

fn all_refused(alloc: Global) -> bool {
    let mut all = true;
    for row in &REFUSED {
        all = all && is_refused(alloc, row);
    }
    all
}

#[test]
fn texts_of_no_content_are_refused(rt: HostRuntime) {
    assert!(rt; all_refused(rt.alloc()));
}
