//! Where in a list of marks the ones that are searched for stand.

ghost use Rattle.std.specs.Prelude.{◌≡◌, ◌≢◌, ◌<◌, ◌≤◌, ℕ, false, length, get_or};
ghost use Rattle.list_marks.specs.Spans.{IsMarkSpan};

use crate::span::Span;

/// A span outside of which none of the marks is this one.
pub fn marked_span(marks: &[u32], mark: u32) -> Span
    ensures { IsMarkSpan marks.now mark result }
{
    let from = first_of(marks, mark);
    let to = end_of(marks, from, mark);
    Span { from, to }
}

/// How many marks are before the first of these.
fn first_of(marks: &[u32], mark: u32) -> usize
    ensures within { result ≤ length marks.now }
    ensures others { (k d : ℕ) → k < result → get_or marks.now k d ≢ mark }
{
    let start = first_near(marks, mark);
    for i in start..marks.len() {
        if marks[i] == mark {
            return i;
        }
    }
    marks.len()
}

/// A place before which there are none of these marks: whole blocks are passed over.
fn first_near(marks: &[u32], mark: u32) -> usize
    ensures within { result ≤ length marks.now }
    ensures others { (k d : ℕ) → k < result → get_or marks.now k d ≢ mark }
{
    let mut at = 0;
    while at + BLOCK <= marks.len() {
        if has(&marks[at..at + BLOCK], mark) {
            return at;
        }
        at += BLOCK;
    }
    at
}

/// The place behind the last of these marks, or `from` where none is behind that.
fn end_of(marks: &[u32], from: usize, mark: u32) -> usize
    requires { from ≤ length marks.now }
    ensures ordered { from ≤ result }
    ensures within { result ≤ length marks.now }
    ensures others { (k d : ℕ) → result ≤ k → k < length marks.now → get_or marks.now k d ≢ mark }
{
    let mut to = end_near(marks, from, mark);
    while from < to && marks[to - 1] != mark {
        to -= 1;
    }
    to
}

/// A place from which on there are none of these marks: whole blocks are passed over.
fn end_near(marks: &[u32], from: usize, mark: u32) -> usize
    requires { from ≤ length marks.now }
    ensures ordered { from ≤ result }
    ensures within { result ≤ length marks.now }
    ensures others { (k d : ℕ) → result ≤ k → k < length marks.now → get_or marks.now k d ≢ mark }
{
    let mut to = marks.len();
    while from + BLOCK <= to {
        if has(&marks[to - BLOCK..to], mark) {
            return to;
        }
        to -= BLOCK;
    }
    to
}

/// How many marks are looked at together.
const BLOCK: usize = 64;

/// Whether the mark is among these. Without a way out of the loop, several are compared in one step.
fn has(block: &[u32], mark: u32) -> bool
    ensures { result ≡ false → (k d : ℕ) → k < length block.now → get_or block.now k d ≢ mark }
{
    let mut found = false;
    for other in block {
        found = found | (*other == mark);
    }
    found
}
