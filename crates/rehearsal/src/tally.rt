//! Counts over the replies of a session, and their summary.

ghost use Rattle.std.specs.Prelude.{◌≡◌, ◌≤◌, ◌+◌, ◌++◌, length};
ghost use Rattle.line_text.specs.LineText.{line_bytes};
ghost use Rattle.line_reader.specs.Lines.{lines_of};
ghost use Rattle.rehearsal.specs.Counts.{counts, summary_text};
ghost use Rattle.rehearsal.specs.Sayings.{counts_of};

use crate::saying::Saying;
use line_text::LineText;

/// How many replies say what.
#[derive(Clone, Copy, Debug, PartialEq, Eq)]
pub struct Tally {
    pub accepted: u64,
    pub rejected: u64,
    /// Answered by a kept outcome.
    pub cache: u64,
    /// Whose outcome was kept.
    pub kept: u64,
    /// Whose outcome an edit overtook.
    pub moved: u64,
    pub edits: u64,
    pub refused: u64,
}

impl Tally {
    /// Counts the replies, each of which is a line.
    pub fn of(replies: &[u8]) -> Tally
        ensures { counts_of result ≡ counts (lines_of replies.now) }
    {
        Tally {
            accepted: Saying::Front(b"accepted").count(replies),
            rejected: Saying::Front(b"rejected").count(replies),
            cache: Saying::Word(b"source=cache").count(replies),
            kept: Saying::Word(b"cache=kept").count(replies),
            moved: Saying::Word(b"cache=moved").count(replies),
            edits: Saying::Front(b"ok edit").count(replies),
            refused: Saying::Front(b"refused").count(replies),
        }
    }

    /// Appends the summary of a rehearsal of so many steps, without an LF.
    pub fn summary_into(&self, steps: u32, line: &mut LineText)
        requires { length (line_bytes line.old) ≤ 400 }
        ensures text { line_bytes line.new ≡ line_bytes line.old ++ summary_text steps (counts_of self.now) }
        ensures length { length (line_bytes line.new) ≤ length (line_bytes line.old) + 300 }
    {
        line.push_field(b"steps=", u64::from(steps));
        line.push_field(b" accepted=", self.accepted);
        line.push_field(b" rejected=", self.rejected);
        line.push_field(b" cache=", self.cache);
        line.push_field(b" kept=", self.kept);
        line.push_field(b" moved=", self.moved);
        line.push_field(b" edits=", self.edits);
        line.push_field(b" refused=", self.refused);
    }
}
