//! How long a body is.

ghost use Rattle.std.specs.Prelude.{◌≡◌, [], length, All, bytes_eq, codes};
ghost use Rattle.httparse.specs.Spans.{IsHeaderWithin};
ghost use Rattle.http_fields.specs.Views.{pairs_at, length_of};
ghost use Rattle.http_model.specs.Fields as spec;

use crate::digits::read_digits;
use crate::fault::HttpFault;
use crate::names::{find_field, has_field};
use http_model::limits::{BODY_LIMIT, LENGTH_DIGITS};
use httparse::spans::HeaderSpan;

/// The length of the body behind a head, whose fields lie in the window; or why it isn't known: `NoLength`, `BadLength`
/// or `TooLarge`.
pub fn measure(method: &[u8], window: &[u8], fields: &[HeaderSpan]) -> Result<usize, HttpFault>
    requires within { All (IsHeaderWithin (length window.now)) fields.now }
    ensures measured { length_of result ≡ spec.measured method.now (pairs_at window.now fields.now) }
{
    if has_field(window, fields, b"transfer-encoding") {
        return Err(HttpFault::NoLength);
    }
    let Some((value, rest)) = find_field(window, fields, b"content-length") else {
        return without_length(method);
    };
    if has_field(window, rest, b"content-length") {
        return Err(HttpFault::BadLength);
    }
    by_digits(value)
}

// A request that posts has to say how long its body is.
fn without_length(method: &[u8]) -> Result<usize, HttpFault>
    ensures { length_of result ≡ spec.by_lengths (bytes_eq method.now (codes "POST")) [] }
{
    if method == b"POST".as_slice() {
        Err(HttpFault::NoLength)
    } else {
        Ok(0)
    }
}

fn by_digits(value: &[u8]) -> Result<usize, HttpFault>
    ensures { length_of result ≡ spec.by_digits value.now }
{
    if value.is_empty() || LENGTH_DIGITS < value.len() {
        return Err(HttpFault::BadLength);
    }
    match read_digits(value) {
        None => Err(HttpFault::BadLength),
        Some(number) => {
            if number <= BODY_LIMIT as u64 {
                Ok(number as usize)
            } else {
                Err(HttpFault::TooLarge)
            }
        }
    }
}
