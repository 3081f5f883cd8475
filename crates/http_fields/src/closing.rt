//! Whether the client asks to close the connection.

ghost use Rattle.std.specs.Prelude.{◌≡◌, ◌==◌, length, All, position};
ghost use Rattle.httparse.specs.Spans.{IsHeaderWithin};
ghost use Rattle.http_fields.specs.Views.{pairs_at};
ghost use Rattle.http_model.specs.Fields as spec;

use crate::names::{find_field, is_same};
use crate::trimming::trimmed;
use httparse::spans::HeaderSpan;

/// Whether a Connection field has the member close. The fields lie in the window.
pub fn asks_to_close(window: &[u8], fields: &[HeaderSpan]) -> bool
    requires within { All (IsHeaderWithin (length window.now)) fields.now }
    ensures { result ≡ spec.asks_to_close (pairs_at window.now fields.now) }
{
    match find_field(window, fields, b"connection") {
        Some((value, rest)) => {
            if has_close(value) {
                true
            } else {
                asks_to_close(window, rest)
            }
        }
        None => false,
    }
}

// Whether close is among the members of a value.
fn has_close(value: &[u8]) -> bool
    ensures { result ≡ spec.has_close value.now }
{
    let mut rest = value;
    while let Some(comma) = find_comma(rest) {
        if is_close(rest.split_at(comma).0) {
            return true;
        }
        rest = rest.split_at(comma + 1).1;
    }
    is_close(rest)
}

// The place of the first comma.
fn find_comma(value: &[u8]) -> Option<usize>
    ensures { result ≡ position (λ byte. byte == 44) value.now }
{
    value.iter().position(|byte| *byte == b',')
}

fn is_close(member: &[u8]) -> bool
    ensures { result ≡ spec.is_close member.now }
{
    is_same(trimmed(member), b"close")
}
