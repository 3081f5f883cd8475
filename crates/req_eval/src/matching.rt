//! Whether the value of a key answers a test.

ghost use Rattle.std.specs.Prelude.{◌≡◌, Some};
ghost use Rattle.std.specs.Str.{bytes_eq};
ghost use Rattle.req_tree.specs.Meaning as spec;
ghost use Rattle.req_tree.specs.Meaning.{value_match, text_match};
ghost use Rattle.fact_values.specs.Keyed.{value_of, value_found, list_value};

use fact_values::{Value, numeric_cmp};
use req_tree::{Bytes, Match};

/// Whether a value, or that there is none, answers a test.
pub fn matches(value: Option<&Value>, test: &Match) -> bool
    ensures { result ≡ value_match (value_found value.entry) test.now }
{
    match value {
        None => is_absent(test),
        Some(value) => value_matches(value, test),
    }
}

fn value_matches(value: &Value, test: &Match) -> bool
    ensures { result ≡ value_match (Some (value_of value.now)) test.now }
{
    match value {
        Value::Text(text) => text_matches(text.as_slice(), test),
        Value::Flag(flag) => is_exists(test) && *flag,
        Value::Many(texts) => any_matches(texts.as_slice(), test),
    }
}

/// Whether one of several texts does.
fn any_matches(texts: &[Bytes], test: &Match) -> bool
    ensures { result ≡ value_match (Some (list_value texts.now)) test.now }
{
    for text in texts {
        if text_matches(text.as_slice(), test) {
            return true;
        }
    }
    false
}

fn text_matches(text: &[u8], test: &Match) -> bool
    ensures { result ≡ text_match text.now test.now }
{
    match test {
        Match::Exists => true,
        Match::Absent => false,
        Match::Equal(datum) => text == datum.as_slice(),
        Match::Contains(datum) => has_part(text, datum.as_slice()),
        Match::Begins(datum) => text.starts_with(datum.as_slice()),
        Match::Ends(datum) => text.ends_with(datum.as_slice()),
        Match::Less(datum) => numeric_cmp(text, datum.as_slice()).is_lt(),
        Match::Greater(datum) => numeric_cmp(text, datum.as_slice()).is_gt(),
        Match::LessEqual(datum) => numeric_cmp(text, datum.as_slice()).is_le(),
        Match::GreaterEqual(datum) => numeric_cmp(text, datum.as_slice()).is_ge(),
    }
}

/// Whether a part stands somewhere in a text.
fn has_part(text: &[u8], part: &[u8]) -> bool
    ensures { result ≡ spec.has_part text.now part.now }
{
    for at in 0..text.len() {
        let (_, rest) = text.split_at(at);
        if rest.starts_with(part) {
            return true;
        }
    }
    part.is_empty()
}

/// Whether a value is these bytes, or a list with these among its members.
pub(crate) fn equals(value: Option<&Value>, datum: &Bytes) -> bool
    ensures { result ≡ value_match (value_found value.entry) (Match.Equal datum.now) }
{
    match value {
        Some(Value::Text(text)) => text == datum,
        Some(Value::Many(texts)) => is_member(datum, texts.as_slice()),
        _ => false,
    }
}

fn is_member(datum: &Bytes, texts: &[Bytes]) -> bool
    ensures { result ≡ value_match (Some (list_value texts.now)) (Match.Equal datum.now) }
{
    for text in texts {
        if text == datum {
            return true;
        }
    }
    false
}

/// Whether the test asks that a value be there.
fn is_exists(test: &Match) -> bool
    ensures { result ≡ spec.is_exists test.now }
{
    matches!(test, Match::Exists)
}

/// Whether the test asks that no value be there.
fn is_absent(test: &Match) -> bool
    ensures { result ≡ spec.is_absent test.now }
{
    matches!(test, Match::Absent)
}
