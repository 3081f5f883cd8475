//! The reply to `status`.

ghost use Rattle.std.specs.Prelude.{◌≡◌, ◌≤◌, [], length};
ghost use Rattle.line_text.specs.LineText.{line_bytes};
ghost use Rattle.line_session.specs.declared.limits.TheConstants.{REPLY_LIMIT};
ghost use Rattle.session_model.specs.StatusText.{status_line, switch_text};

use desk_state::DeskStatus;
use line_text::LineText;

/// Writes the line of a desk's status, without its end.
pub fn status_into(status: &DeskStatus, out: &mut LineText)
    requires { line_bytes out.old ≡ [] }
    ensures text { line_bytes out.new
        ≡ status_line status.entry.now.enabled status.entry.now.rules status.entry.now.receipts
        status.entry.now.objects status.entry.now.now }
    ensures room { length (line_bytes out.new) ≤ REPLY_LIMIT }
{
    out.push_all(b"status assessments=");
    out.push_all(switch_text(status.enabled));
    out.push_field(b" rules=", u64::from(status.rules));
    out.push_field(b" receipts=", u64::from(status.receipts));
    out.push_field(b" objects=", u64::from(status.objects));
    out.push_field(b" now=", status.now.get());
}

/// Whether assessments are switched on.
fn switch_text(enabled: bool) -> &'static [u8]
    ensures text { result.now ≡ switch_text enabled }
    ensures short { length result.now ≤ 8 }
{
    if enabled { b"enabled" } else { b"disabled" }
}
