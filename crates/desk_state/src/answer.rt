//! The answer to an edit.

ghost use Rattle.std.specs.Prelude.{◌≡◌, ◌+◌, ◌≤◌, ◌++◌, length};
ghost use Rattle.line_text.specs.LineText.{line_bytes};
ghost use Rattle.line_text.specs.declared.limits.TheConstants.{FRONT_LIMIT, LINE_ROOM};
ghost use Rattle.policy_model.specs.ReplyTexts.{answer_text, numbers_text};

use req_tree::LineText;

/// The answer to an edit that wasn't refused.
#[derive(Clone, Copy, Drop)]
pub struct Answer {
    /// The key was kept already, with the same content: nothing was changed.
    pub repeated: bool,
    /// The edit's number, counted from 1.
    pub number: u32,
    /// How many rules it touched.
    pub rules: u32,
}

impl Answer {
    ghost use Rattle.desk_state.specs.Answer.{answer_of};

    /// Appends the reply's line, without its end.
    pub fn line_into(&self, out: &mut LineText)
        requires { length (line_bytes out.old) ≤ FRONT_LIMIT }
        ensures text { line_bytes out.new ≡ line_bytes out.old ++ answer_text (answer_of self.now) }
        ensures length { length (line_bytes out.new) ≤ length (line_bytes out.old) + 100 }
    {
        if self.repeated {
            out.push_all(b"repeated");
            numbers_into(self.number, self.rules, out);
        } else {
            out.push_all(b"ok");
            numbers_into(self.number, self.rules, out);
        }
    }
}

/// Appends an edit's number and how many rules it touched.
pub(crate) fn numbers_into(number: u32, rules: u32, out: &mut LineText)
    requires { length (line_bytes out.old) + 60 ≤ LINE_ROOM }
    ensures text { line_bytes out.new ≡ line_bytes out.old ++ numbers_text number rules }
    ensures length { length (line_bytes out.new) ≤ length (line_bytes out.old) + 60 }
{
    out.push_all(b" edit=");
    out.push_number(number as u64);
    out.push_all(b" rules=");
    out.push_number(rules as u64);
}
