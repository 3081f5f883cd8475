//! The lines at the front of some bytes.

ghost use Rattle.std.specs.Prelude.{◌≡◌, ◌<◌, length, Some, None, MatchOption};
ghost use Rattle.http_model.specs.Heads as spec;
ghost use Rattle.http_reader.specs.Lines.{HasNoLf, IsFirstLf};

use memchr::memchr;

/// What follows the first LF.
pub fn after_line(bytes: &[u8]) -> Option<&[u8]>
    ensures { MatchOption result (spec.after_line bytes.now ≡ None) (λ rest. spec.after_line bytes.now ≡ Some rest.now) }
{
    match find_lf(bytes) {
        Some(place) => Some(bytes.split_at(place + 1).1),
        None => None,
    }
}

// The place of the first LF.
fn find_lf(bytes: &[u8]) -> Option<usize>
    ensures { MatchOption result (HasNoLf bytes.now) (IsFirstLf bytes.now) }
{
    memchr(b'\n', bytes)
}

/// What follows the request line, which is the first that isn't empty.
pub fn after_request_line(bytes: &[u8]) -> Option<&[u8]>
    ensures { MatchOption result (spec.after_request_line bytes.now ≡ None) (λ rest. spec.after_request_line bytes.now ≡ Some rest.now) }
{
    let mut at = 0;
    while at < bytes.len() && is_end_byte(bytes[at]) {
        at += 1;
    }
    after_line(bytes.split_at(at).1)
}

/// Whether behind so many lines one has begun that isn't empty.
pub fn has_begun(lines: usize, bytes: &[u8]) -> bool
    ensures { result ≡ spec.has_begun lines (Some bytes.now) }
{
    if lines == 0 {
        return begins_field(bytes);
    }
    match after_line(bytes) {
        Some(rest) => has_begun(lines - 1, rest),
        None => false,
    }
}

fn begins_field(bytes: &[u8]) -> bool
    ensures { result ≡ spec.begins_field bytes.now }
{
    match bytes.first() {
        Some(byte) => !is_end_byte(*byte),
        None => false,
    }
}

fn is_end_byte(byte: u8) -> bool
    ensures { result ≡ spec.is_end_byte byte }
{
    byte == b'\r' || byte == b'\n'
}
