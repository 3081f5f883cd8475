//! Parts of a text.

ghost use Rattle.std.specs.Prelude.{◌≡◌, take, drop};

/// The first bytes, so many or all.
pub(crate) fn first(text: &[u8], count: usize) -> &[u8]
    ensures { result.now ≡ take count text.now }
{
    if count < text.len() {
        text.split_at(count).0
    } else {
        text
    }
}

/// What follows the first bytes.
pub(crate) fn behind(text: &[u8], count: usize) -> &[u8]
    ensures { result.now ≡ drop count text.now }
{
    if count < text.len() {
        text.split_at(count).1
    } else {
        &[]
    }
}

/// The first bytes, so many or all, and what follows them.
pub(crate) fn split(text: &[u8], count: usize) -> (&[u8], &[u8])
    ensures front { result.0.now ≡ take count text.now }
    ensures rest { result.1.now ≡ drop count text.now }
{
    (first(text, count), behind(text, count))
}
