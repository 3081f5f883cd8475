//! The lines of a rehearsal, one after the other.

ghost use Rattle.std.specs.Prelude.{◌≤◌, ◌+◌, ◌*◌};

use crate::draft::Draft;
use crate::step::put_step;

/// Lines that are made up as they are asked for. It takes no memory.
#[derive(Drop)]
pub struct Rehearsal {
    draft: Draft,
    moment: u64,
    next: u64,
    left: u64,

    ghost slow: { moment ≤ 30 * next },
    ghost few: { next + left ≤ 8_589_934_592 },
    ghost begun: { 1 ≤ next },
}

impl Rehearsal {
    ghost use Rattle.std.specs.Prelude.{◌≡◌, ◌+◌, [], ◌∷◌, true, false};
    ghost use Rattle.line_text.specs.LineText.{line_bytes};
    ghost use Rattle.rehearsal.specs.Left.{lines_left};
    ghost use Rattle.rehearsal.specs.Made.{made};

    /// A rehearsal of so many steps, at its first.
    pub fn of(steps: u32) -> Rehearsal
        ensures { lines_left result ≡ made steps }
    {
        let steps = u64::from(steps);
        Rehearsal {
            draft: Draft::new(steps),
            moment: 0,
            next: 1,
            left: steps,
        }
    }

    /// Makes the next line, where one is left.
    pub fn next_line(&mut self) -> bool
        ensures made { result ≡ true → lines_left self.old ≡ line_bytes self.new.draft.line ∷ lines_left self.new }
        ensures fewer { result ≡ true → self.old.left ≡ self.new.left + 1 }
        ensures all { result ≡ false → lines_left self.old ≡ [] }
        ensures ended { result ≡ false → lines_left self.new ≡ [] }
    {
        if self.left == 0 {
            return false;
        }
        self.draft.line.clear();
        let draw = self.draft.draw(10);
        self.moment = put_step(&mut self.draft, self.next, self.moment, draw);
        self.next += 1;
        self.left -= 1;
        true
    }

    /// The line that was made last, without an LF.
    pub fn line(&self) -> &[u8]
        ensures { result.now ≡ line_bytes self.now.draft.line }
    {
        self.draft.line.as_slice()
    }
}
