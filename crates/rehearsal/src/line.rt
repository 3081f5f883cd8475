//! The parts of made-up lines, each appended to a draft.

ghost use Rattle.std.specs.Prelude.{◌≡◌, ◌<◌, ◌≤◌, ◌+◌, length, codes};
ghost use Rattle.line_text.specs.LineText.{line_bytes};
ghost use Rattle.rehearsal.specs.Draws.{fixed, drawn};
ghost use Rattle.rehearsal.specs.Laid.{Lays};
ghost use Rattle.rehearsal.specs.Made as model;
ghost use Rattle.rehearsal.specs.Made.{verdict_text, numbered};

use crate::draft::Draft;
use crate::hash::hash_text;

/// A line of a draw other than that of a tick. It has at most 400 bytes.
pub fn put_line(draft: &mut Draft, step: u64, now: u64, draw: u64)
    requires step { 0 < step }
    requires now { now ≤ 1_000_000_000_000 }
    requires empty { length (line_bytes draft.old.line) ≤ 0 }
    ensures { Lays (model.line_by step now draw) 400 draft.old draft.new }
{
    match draw {
        0 => put_add(draft, step, now),
        1 => put_choice(draft, b"disable k", step),
        2 => put_choice(draft, b"enable k", step),
        4 | 5 => put_begin(draft),
        6 | 7 => put_finish(draft),
        _ => put_assess(draft),
    }
}

fn put_add(draft: &mut Draft, step: u64, now: u64)
    requires now { now ≤ 1_000_000_000_000 }
    requires empty { length (line_bytes draft.old.line) ≤ 0 }
    ensures { Lays (model.add_line step now) 400 draft.old draft.new }
{
    draft.put_number(b"add k", step);
    put_kind(draft);
    put_verdict(draft);
    draft.put_drawn(100, b" ");
    put_expiry(draft, now);
    draft.put_drawn(8, b" L");
    draft.put(b" -");
    put_requirement(draft);
}

fn put_choice(draft: &mut Draft, front: &[u8], step: u64)
    requires step { 0 < step }
    requires front { length front.now ≤ 20 }
    requires empty { length (line_bytes draft.old.line) ≤ 0 }
    ensures { Lays (model.choice_line front.now step) 400 draft.old draft.new }
{
    draft.put_number(front, step);
    put_rule(draft, step);
    draft.put(b" any");
}

/// The number of a rule, of those that there may be at this step.
fn put_rule(draft: &mut Draft, step: u64)
    requires step { 0 < step }
    requires room { length (line_bytes draft.old.line) ≤ 400 }
    ensures { Lays (drawn step (λ d. numbered (codes " id ") (d + 1))) 30 draft.old draft.new }
{
    let number = draft.draw(step);
    draft.put_number(b" id ", number + 1);
}

fn put_begin(draft: &mut Draft)
    requires empty { length (line_bytes draft.old.line) ≤ 0 }
    ensures { Lays model.begin_line 400 draft.old draft.new }
{
    put_place(draft, b"begin ");
    put_kind(draft);
    put_subject(draft);
}

fn put_finish(draft: &mut Draft)
    requires empty { length (line_bytes draft.old.line) ≤ 0 }
    ensures { Lays model.finish_line 400 draft.old draft.new }
{
    put_place(draft, b"finish ");
}

/// The number of an open assessment.
fn put_place(draft: &mut Draft, front: &[u8])
    requires front { length front.now ≤ 20 }
    requires empty { length (line_bytes draft.old.line) ≤ 0 }
    ensures { Lays (drawn 50 (λ d. numbered front.now (d + 1))) 40 draft.old draft.new }
{
    let number = draft.draw(50);
    draft.put_number(front, number + 1);
}

fn put_assess(draft: &mut Draft)
    requires empty { length (line_bytes draft.old.line) ≤ 0 }
    ensures { Lays model.assess_line 400 draft.old draft.new }
{
    draft.put(b"assess");
    put_kind(draft);
    put_subject(draft);
}

fn put_kind(draft: &mut Draft)
    requires { length (line_bytes draft.old.line) ≤ 400 }
    ensures { Lays model.kind 10 draft.old draft.new }
{
    let draw = draft.draw(3);
    draft.put(kind_text(draw));
}

fn kind_text(draw: u64) -> &'static [u8]
    ensures text { result.now ≡ model.kind_text draw }
    ensures short { length result.now ≤ 10 }
{
    match draw {
        0 => b" execute",
        1 => b" install",
        _ => b" open",
    }
}

fn put_verdict(draft: &mut Draft)
    requires { length (line_bytes draft.old.line) ≤ 400 }
    ensures { Lays (drawn 2 verdict_text) 10 draft.old draft.new }
{
    let draw = draft.draw(2);
    draft.put(verdict(draw));
}

fn verdict(draw: u64) -> &'static [u8]
    ensures text { result.now ≡ verdict_text draw }
    ensures short { length result.now ≤ 10 }
{
    match draw {
        0 => b" allow",
        _ => b" deny",
    }
}

fn put_expiry(draft: &mut Draft, now: u64)
    requires now { now ≤ 1_000_000_000_000 }
    requires room { length (line_bytes draft.old.line) ≤ 400 }
    ensures { Lays (model.expiry now) 30 draft.old draft.new }
{
    let draw = draft.draw(4);
    put_expiry_by(draft, now, draw);
}

fn put_expiry_by(draft: &mut Draft, now: u64, draw: u64)
    requires now { now ≤ 1_000_000_000_000 }
    requires room { length (line_bytes draft.old.line) ≤ 400 }
    ensures { Lays (model.expiry_by now draw) 30 draft.old draft.new }
{
    if draw == 0 {
        put_moment(draft, now);
    } else {
        draft.put(b" never");
    }
}

/// A moment within a thousand seconds of now.
fn put_moment(draft: &mut Draft, now: u64)
    requires now { now ≤ 1_000_000_000_000 }
    requires room { length (line_bytes draft.old.line) ≤ 400 }
    ensures { Lays (drawn 1000 (λ more. numbered (codes " ") (now + more))) 30 draft.old draft.new }
{
    let more = draft.draw(1_000);
    draft.put_number(b" ", now + more);
}

fn put_requirement(draft: &mut Draft)
    requires { length (line_bytes draft.old.line) ≤ 400 }
    ensures { Lays model.requirement 40 draft.old draft.new }
{
    let draw = draft.draw(5);
    put_requirement_by(draft, draw);
}

fn put_requirement_by(draft: &mut Draft, draw: u64)
    requires { length (line_bytes draft.old.line) ≤ 400 }
    ensures { Lays (model.requirement_by draw) 40 draft.old draft.new }
{
    match draw {
        0 => draft.put(b" always"),
        1 => draft.put_drawn(4, b" platform = "),
        2 => draft.put_drawn(50, b" identifier a"),
        3 => draft.put(b" notarized"),
        _ => draft.put(b" never"),
    }
}

fn put_subject(draft: &mut Draft)
    requires { length (line_bytes draft.old.line) ≤ 400 }
    ensures { Lays model.subject 100 draft.old draft.new }
{
    let code = draft.draw(50);
    put_subject_by(draft, code);
}

fn put_subject_by(draft: &mut Draft, code: u64)
    requires code { code < 50 }
    requires room { length (line_bytes draft.old.line) ≤ 400 }
    ensures { Lays (model.subject_by code) 100 draft.old draft.new }
{
    draft.put(b" ");
    put_hash(draft, code as u8);
    draft.put_number(b" a", code);
    draft.put_drawn(4, b" ");
}

fn put_hash(draft: &mut Draft, code: u8)
    requires { length (line_bytes draft.old.line) ≤ 500 }
    ensures { Lays (fixed (model.hash_text code)) 40 draft.old draft.new }
{
    draft.put(&hash_text(code));
}
