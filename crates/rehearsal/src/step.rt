//! One step of a rehearsal.

ghost use Rattle.std.specs.Prelude.{◌≡◌, ◌<◌, ◌≤◌, ◌+◌, []};
ghost use Rattle.line_text.specs.LineText.{line_bytes};
ghost use Rattle.rehearsal.specs.Made.{step_by, ticked};

use crate::draft::Draft;
use crate::line::put_line;

/// The line of a step by its first draw, and the desk's moment behind it.
pub fn put_step(draft: &mut Draft, step: u64, now: u64, draw: u64) -> u64
    requires step { 0 < step }
    requires now { now ≤ 900_000_000_000 }
    requires empty { line_bytes draft.old.line ≡ [] }
    ensures line { line_bytes draft.new.line ≡ (step_by step now draw draft.old.state).0 }
    ensures course { record { state = draft.new.state; now = result } ≡ (step_by step now draw draft.old.state).1 }
    ensures slow { result ≤ now + 29 }
{
    if draw == 3 {
        put_tick(draft, now)
    } else {
        put_line(draft, step, now, draw);
        now
    }
}

/// A tick, and its moment.
fn put_tick(draft: &mut Draft, now: u64) -> u64
    requires now { now ≤ 900_000_000_000 }
    requires empty { line_bytes draft.old.line ≡ [] }
    ensures line { line_bytes draft.new.line ≡ (ticked now draft.old.state).0 }
    ensures course { record { state = draft.new.state; now = result } ≡ (ticked now draft.old.state).1 }
    ensures slow { result ≤ now + 29 }
{
    let later = now + draft.draw(30);
    draft.put_number(b"tick ", later);
    later
}
