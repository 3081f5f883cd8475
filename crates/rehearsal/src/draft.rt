//! A line under construction, and the generator whose numbers it takes.

ghost use Rattle.std.specs.Prelude.{◌≡◌, ◌<◌, ◌≤◌, ◌+◌, [], length};
ghost use Rattle.line_text.specs.LineText.{line_bytes};
ghost use Rattle.line_text.specs.declared.limits.TheConstants.{LINE_ROOM};
ghost use Rattle.rehearsal.specs.Draws.{stirred, below, fixed, drawn};
ghost use Rattle.rehearsal.specs.Laid.{Lays};
ghost use Rattle.rehearsal.specs.Made.{numbered};

use line_text::LineText;

/// The generator's constants are those of Knuth's MMIX.
const MULTIPLIER: u64 = 6_364_136_223_846_793_005;

const INCREMENT: u64 = 1_442_695_040_888_963_407;

/// The low bits of the state repeat soon, so a draw passes over 33 of them.
const LOW_BITS: u64 = 8_589_934_592;

/// A line that begins empty. It takes no memory.
#[derive(Drop)]
pub struct Draft {
    pub state: u64,
    pub line: LineText,
}

impl Draft {
    pub fn new(state: u64) -> Draft
        ensures state { result.state ≡ state }
        ensures empty { line_bytes result.line ≡ [] }
    {
        Draft {
            state,
            line: LineText::new(),
        }
    }

    /// The next number below k.
    pub fn draw(&mut self, k: u64) -> u64
        requires { 0 < k }
        ensures state { self.new.state ≡ stirred self.old.state }
        ensures drawn { result ≡ below k (stirred self.old.state) }
        ensures below { result < k }
        ensures line { self.new.line ≡ self.old.line }
    {
        self.state = next_state(self.state);
        self.state / LOW_BITS % k
    }

    pub fn put(&mut self, text: &[u8])
        requires { length (line_bytes self.old.line) + length text.now ≤ LINE_ROOM }
        ensures { Lays (fixed text.now) (length text.now) self.old self.new }
    {
        self.line.push_all(text);
    }

    /// A number's decimal digits behind these bytes.
    pub fn put_number(&mut self, front: &[u8], number: u64)
        requires { length (line_bytes self.old.line) + (length front.now + 20) ≤ LINE_ROOM }
        ensures { Lays (fixed (numbered front.now number)) (length front.now + 20) self.old self.new }
    {
        self.line.push_field(front, number);
    }

    /// A number that is drawn, behind these bytes.
    pub fn put_drawn(&mut self, k: u64, front: &[u8])
        requires some { 0 < k }
        requires room { length (line_bytes self.old.line) + (length front.now + 20) ≤ LINE_ROOM }
        ensures { Lays (drawn k (numbered front.now)) (length front.now + 20) self.old self.new }
    {
        let number = self.draw(k);
        self.put_number(front, number);
    }
}

fn next_state(state: u64) -> u64
    ensures { result ≡ stirred state }
{
    state.wrapping_mul(MULTIPLIER).wrapping_add(INCREMENT)
}
