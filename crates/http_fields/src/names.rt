//! Fields by their names, of which case tells nothing.

ghost use Rattle.std.specs.Prelude.{◌≡◌, [], length, All, MatchOption};
ghost use Rattle.std.specs.List.{list_any};
ghost use Rattle.httparse.specs.Spans.{IsHeaderWithin};
ghost use Rattle.http_fields.specs.Views.{pairs_at, IsFirst};
ghost use Rattle.http_model.specs.Fields.{is_named, same_name, values};

use httparse::spans::HeaderSpan;

/// The value of the first field of this name, which is in lower case, and the fields behind it.
pub fn find_field<'w, 'f>(
    window: &'w [u8],
    fields: &'f [HeaderSpan],
    name: &[u8],
) -> Option<(&'w [u8], &'f [HeaderSpan])>
    requires within { All (IsHeaderWithin (length window.now)) fields.now }
    ensures found { MatchOption result (values name.now (pairs_at window.now fields.now) ≡ [])
        (λ found. IsFirst window.now fields.now name.now found.0.now found.1.now) }
{
    match fields.split_first() {
        Some((field, rest)) => {
            if is_same(field.name.of(window), name) {
                Some((field.value.of(window), rest))
            } else {
                find_field(window, rest, name)
            }
        }
        None => None,
    }
}

/// Whether a field has this name, which is in lower case.
pub fn has_field(window: &[u8], fields: &[HeaderSpan], name: &[u8]) -> bool
    requires within { All (IsHeaderWithin (length window.now)) fields.now }
    ensures { result ≡ list_any (is_named name.now) (pairs_at window.now fields.now) }
{
    match fields.split_first() {
        Some((field, rest)) => {
            if is_same(field.name.of(window), name) {
                true
            } else {
                has_field(window, rest, name)
            }
        }
        None => false,
    }
}

/// Whether the bytes are the same, but for the case of letters.
pub fn is_same(bytes: &[u8], name: &[u8]) -> bool
    ensures { result ≡ same_name bytes.now name.now }
{
    match (bytes.split_first(), name.split_first()) {
        (None, None) => true,
        (Some((a, rest)), Some((b, more))) => {
            if a.eq_ignore_ascii_case(b) {
                is_same(rest, more)
            } else {
                false
            }
        }
        _ => false,
    }
}
