//! Lines of edits that are refused: each word wrong in turn at each place, worked by hand from the forms of lines.

use line_text::LineText;
use rule_edits::{LineFault, read_edit_line};
use std::alloc::{AllocError, Global};
use std::test::Fail;

struct Row {
    line: &'static [u8],
    refusal: &'static [u8],
}

#[rattlefmt::skip]
const ADDED: [Row; 39] = [
    Row { line: b"add", refusal: b"refused line 1 BadLine column=4" },
    Row { line: b"add ", refusal: b"refused line 6 BadKey" },
    Row { line: b"add k/ run", refusal: b"refused line 6 BadKey" },
    Row { line: b"add k", refusal: b"refused line 1 BadLine column=6" },
    Row { line: b"add k run allow", refusal: b"refused line 1 BadLine column=7" },
    Row { line: b"add k any allow", refusal: b"refused line 1 BadLine column=7" },
    Row { line: b"add k execute", refusal: b"refused line 1 BadLine column=14" },
    Row { line: b"add k execute Allow 0", refusal: b"refused line 1 BadLine column=15" },
    Row { line: b"add k execute allow", refusal: b"refused line 1 BadLine column=20" },
    Row { line: b"add k execute allow  never", refusal: b"refused line 3 BadPriority" },
    Row { line: b"add k execute allow +1 never", refusal: b"refused line 3 BadPriority" },
    Row { line: b"add k execute allow 1. never", refusal: b"refused line 3 BadPriority" },
    Row { line: b"add k execute allow .5 never", refusal: b"refused line 3 BadPriority" },
    Row { line: b"add k execute allow 1000000.000001 never", refusal: b"refused line 3 BadPriority" },
    Row { line: b"add k execute allow 00000001 never", refusal: b"refused line 3 BadPriority" },
    Row { line: b"add k execute allow 1.0000000 never", refusal: b"refused line 3 BadPriority" },
    Row { line: b"add k execute allow 0", refusal: b"refused line 1 BadLine column=22" },
    Row { line: b"add k execute allow 0 Never -", refusal: b"refused line 4 BadMoment" },
    Row { line: b"add k execute allow 0 253402300800 -", refusal: b"refused line 4 BadMoment" },
    Row { line: b"add k execute allow 0 0000000000000 -", refusal: b"refused line 4 BadMoment" },
    Row { line: b"add k execute allow 0 -1 -", refusal: b"refused line 4 BadMoment" },
    Row { line: b"add k execute allow 0 never", refusal: b"refused line 1 BadLine column=28" },
    Row { line: b"add k execute allow 0 never  -", refusal: b"refused line 5 BadLabel" },
    Row { line: b"add k execute allow 0 never a%2 -", refusal: b"refused line 5 BadLabel" },
    Row { line: b"add k execute allow 0 never a%2g -", refusal: b"refused line 5 BadLabel" },
    Row { line: b"add k execute allow 0 never \x7f -", refusal: b"refused line 5 BadLabel" },
    Row { line: b"add k execute allow 0 never \x1f -", refusal: b"refused line 5 BadLabel" },
    Row { line: b"add k execute allow 0 never -", refusal: b"refused line 1 BadLine column=30" },
    Row { line: b"add k execute allow 0 never - inhibit+default always", refusal: b"refused line 1 BadLine column=31" },
    Row { line: b"add k execute allow 0 never -  always", refusal: b"refused line 1 BadLine column=31" },
    Row { line: b"add k execute allow 0 never - -", refusal: b"refused line 1 BadLine column=32" },
    Row { line: b"add k execute allow 0 never - - ", refusal: b"refused line 2 BadRequirement 6 Syntax token=0" },
    Row { line: b"add k execute allow 0 never - - always always", refusal: b"refused line 2 BadRequirement 6 Syntax token=1" },
    Row { line: b"add k execute allow 0 never - - always ?", refusal: b"refused line 2 BadRequirement 1 BadByte at=7" },
    Row { line: b"add k execute allow 0 never - - \"", refusal: b"refused line 2 BadRequirement 2 OpenString at=0" },
    Row { line: b"add k execute allow 0 never - - always\n", refusal: b"refused line 1 BadLine column=39" },
    Row { line: b"add k execute allow 0 never - - ?\n\n", refusal: b"refused line 1 BadLine column=34" },
    Row { line: b"add k execute allow 0 never - - always\r", refusal: b"" },
    Row { line: b"add k execute allow 0 never - - host => always", refusal: b"refused line 2 BadRequirement 6 Syntax token=0" },
];

#[rattlefmt::skip]
const OTHERS: [Row; 48] = [
    Row { line: b"", refusal: b"refused line 1 BadLine column=1" },
    Row { line: b" ", refusal: b"refused line 1 BadLine column=1" },
    Row { line: b" add k", refusal: b"refused line 1 BadLine column=1" },
    Row { line: b"Add k", refusal: b"refused line 1 BadLine column=1" },
    Row { line: b"tick 7", refusal: b"refused line 1 BadLine column=1" },
    Row { line: b"removes k/ id 0", refusal: b"refused line 1 BadLine column=1" },
    Row { line: b"remove", refusal: b"refused line 1 BadLine column=7" },
    Row { line: b"remove  id 7 any", refusal: b"refused line 6 BadKey" },
    Row { line: b"remove k%61 id 7 any", refusal: b"refused line 6 BadKey" },
    Row { line: b"remove 01234567890123456789012345678901234567890123456789012345678901234 id 7 any", refusal: b"refused line 6 BadKey" },
    Row { line: b"remove k", refusal: b"refused line 1 BadLine column=9" },
    Row { line: b"remove k ", refusal: b"refused line 1 BadLine column=10" },
    Row { line: b"remove k ID 7 any", refusal: b"refused line 1 BadLine column=10" },
    Row { line: b"remove k id", refusal: b"refused line 1 BadLine column=12" },
    Row { line: b"remove k id  any", refusal: b"refused line 1 BadLine column=13" },
    Row { line: b"remove k id 0 any", refusal: b"refused line 1 BadLine column=13" },
    Row { line: b"remove k id 000000 any", refusal: b"refused line 1 BadLine column=13" },
    Row { line: b"remove k id 0000001 any", refusal: b"refused line 1 BadLine column=13" },
    Row { line: b"remove k id 100001 any", refusal: b"refused line 1 BadLine column=13" },
    Row { line: b"remove k id 1a any", refusal: b"refused line 1 BadLine column=13" },
    Row { line: b"remove k id 7", refusal: b"refused line 1 BadLine column=14" },
    Row { line: b"remove k id 7 all", refusal: b"refused line 1 BadLine column=15" },
    Row { line: b"remove k id 7 any ", refusal: b"refused line 1 BadLine column=19" },
    Row { line: b"remove k id 7 any x", refusal: b"refused line 1 BadLine column=19" },
    Row { line: b"enable k label", refusal: b"refused line 1 BadLine column=15" },
    Row { line: b"enable k label  any", refusal: b"refused line 5 BadLabel" },
    Row { line: b"enable k label - any", refusal: b"refused line 5 BadLabel" },
    Row { line: b"enable k label % any", refusal: b"refused line 5 BadLabel" },
    Row { line: b"enable k label a", refusal: b"refused line 1 BadLine column=17" },
    Row { line: b"enable k label a b any", refusal: b"refused line 1 BadLine column=18" },
    Row { line: b"enable k label a any any", refusal: b"refused line 1 BadLine column=22" },
    Row { line: b"disable k id 7 EXECUTE", refusal: b"refused line 1 BadLine column=16" },
    Row { line: b"disable k id 7 open never", refusal: b"refused line 1 BadLine column=21" },
    Row { line: b"disable k", refusal: b"refused line 1 BadLine column=10" },
    Row { line: b"expire k id 7 any", refusal: b"refused line 1 BadLine column=18" },
    Row { line: b"expire k id 7 any ", refusal: b"refused line 4 BadMoment" },
    Row { line: b"expire k id 7 any soon", refusal: b"refused line 4 BadMoment" },
    Row { line: b"expire k id 7 any 1.5", refusal: b"refused line 4 BadMoment" },
    Row { line: b"expire k id 7 never", refusal: b"refused line 1 BadLine column=15" },
    Row { line: b"expire k id 7 any never never", refusal: b"refused line 1 BadLine column=25" },
    Row { line: b"expire k! id 0 all soon", refusal: b"refused line 6 BadKey" },
    Row { line: b"switch", refusal: b"refused line 1 BadLine column=7" },
    Row { line: b"switch on", refusal: b"refused line 1 BadLine column=10" },
    Row { line: b"switch k", refusal: b"refused line 1 BadLine column=9" },
    Row { line: b"switch k ON", refusal: b"refused line 1 BadLine column=10" },
    Row { line: b"switch k onn", refusal: b"refused line 1 BadLine column=10" },
    Row { line: b"switch k on off", refusal: b"refused line 1 BadLine column=13" },
    Row { line: b"switch k off ", refusal: b"refused line 1 BadLine column=14" },
];

fn prints(fault: &LineFault, want: &[u8]) -> bool {
    let mut out = LineText::new();
    fault.line_into(&mut out);
    out.as_slice() == want
}

/// Whether a line is refused so; a line without a refusal is read.
pub fn is_refused(alloc: Global, line: &[u8], refusal: &[u8]) -> bool {
    match read_edit_line(alloc, line) {
        Ok(edit) => {
            drop(edit);
            refusal.is_empty()
        }
        Err(fault) => prints(&fault, refusal),
    }
}

fn all_refused(alloc: Global, rows: &[Row]) -> bool {
    let mut all = true;
    for row in rows {
        all = all && is_refused(alloc, row.line, row.refusal);
    }
    all
}

#[test]
fn words_of_an_added_rule_are_refused(rt: HostRuntime) {
    assert!(rt; all_refused(rt.alloc(), &ADDED));
}

#[test]
fn words_of_other_edits_are_refused(rt: HostRuntime) {
    assert!(rt; all_refused(rt.alloc(), &OTHERS));
}

/// The front, and so many spaces and the word `always`.
fn padded(alloc: Global, front: &[u8], spaces: usize) -> Result<Vec<u8>, AllocError> {
    let mut line = Vec::new(alloc);
    line.extend_from_slice(front)?;
    for _ in 0..spaces {
        line.push(b' ')?;
    }
    line.extend_from_slice(b"always")?;
    Ok(line)
}

struct Long {
    spaces: usize,
    refusal: &'static [u8],
}

// Behind 32 bytes: 4,096 bytes of requirement, 4,097, a line of 8,192 bytes, and of 8,193.
#[rattlefmt::skip]
const LONG: [Long; 4] = [
    Long { spaces: 4090, refusal: b"" },
    Long { spaces: 4091, refusal: b"refused line 7 RequirementTooLong" },
    Long { spaces: 8154, refusal: b"refused line 7 RequirementTooLong" },
    Long { spaces: 8155, refusal: b"refused line 1 BadLine column=8193" },
];

fn is_long(alloc: Global, row: &Long) -> bool {
    match padded(alloc, b"add k execute allow 0 never - - ", row.spaces) {
        Ok(line) => is_refused(alloc, line.as_slice(), row.refusal),
        Err(_) => false,
    }
}

fn all_long(alloc: Global) -> bool {
    let mut all = true;
    for row in &LONG {
        all = all && is_long(alloc, row);
    }
    all
}

#[test]
fn long_lines_are_refused(rt: HostRuntime) {
    assert!(rt; all_long(rt.alloc()));
}
