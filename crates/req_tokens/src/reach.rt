//! How far the front of a text goes.

ghost use Rattle.std.specs.Prelude.{◌≡◌, ◌≤◌, [], ◌∷◌, nat_eq, length, take, drop};
ghost use Rattle.std.specs.List.{starts_with};
ghost use Rattle.req_grammar.specs.Tokens as grammar;
ghost use Rattle.req_grammar.specs.TokenFaults.{is_quote};
ghost use Rattle.req_tokens.specs.Reach as spec;

/// Where the front of a text ends: before the first byte that ..
#[derive(Clone, Copy, Drop)]
pub(crate) enum End {
    /// .. is no digit.
    Digits,
    /// .. is neither a letter nor a digit.
    Run,
    /// .. is neither a letter nor a digit, nor a dot with one of them behind it.
    Word,
    /// .. is a quote.
    Hash,
    /// .. is no backslash and has a quote behind it.
    Quoted,
    /// .. is a backslash and has no quote behind it.
    Escapes,
    /// .. is the first of `*/`.
    Block,
    /// .. is a LF.
    Line,
}

/// The front of a text, and what follows it.
pub(crate) fn cut(end: End, text: &[u8]) -> (&[u8], &[u8])
    ensures front { result.0.now ≡ take (spec.reach end text.now) text.now }
    ensures rest { result.1.now ≡ drop (spec.reach end text.now) text.now }
{
    text.split_at(reach(end, text))
}

/// How many bytes the front has.
pub(crate) fn reach(end: End, text: &[u8]) -> usize
    ensures reaches { result ≡ spec.reach end text.now }
    ensures within { result ≤ length text.now }
{
    let mut rest = text;
    let mut length = 0;
    while let Some((byte, after)) = rest.split_first() {
        if ends(end, *byte, after) {
            return length;
        }
        length += 1;
        rest = after;
    }
    length
}

/// Whether a byte is beyond the front, given what follows it.
fn ends(end: End, byte: u8, after: &[u8]) -> bool
    ensures { result ≡ spec.ends end byte after.now }
{
    match end {
        End::Digits => !byte.is_ascii_digit(),
        End::Run => !is_letter_or_digit(byte),
        End::Word => ends_word(byte, after),
        End::Hash => byte == b'"',
        End::Quoted => {
            let quote = begins_with_quote(after);
            quote & (byte != b'\\')
        }
        End::Escapes => {
            let quote = begins_with_quote(after);
            (byte == b'\\') & !quote
        }
        End::Block => begins(byte, after, b'*', b'/'),
        End::Line => byte == b'\n',
    }
}

fn is_letter_or_digit(byte: u8) -> bool
    ensures { result ≡ grammar.is_letter_or_digit byte }
{
    byte.is_ascii_alphabetic() || byte.is_ascii_digit()
}

/// Neither a letter nor a digit, nor a dot with one of them behind it.
fn ends_word(byte: u8, after: &[u8]) -> bool
    ensures { result ≡ spec.ends End.Word byte after.now }
{
    let own = is_letter_or_digit(byte);
    let dot = byte == b'.' && goes_on(after);
    !own & !dot
}

/// Whether a text goes on with a letter or a digit.
fn goes_on(text: &[u8]) -> bool
    ensures { result ≡ grammar.goes_on grammar.is_letter_or_digit text.now }
{
    match text.split_first() {
        Some((byte, _)) => is_letter_or_digit(*byte),
        None => false,
    }
}

fn begins_with_quote(text: &[u8]) -> bool
    ensures { result ≡ grammar.goes_on is_quote text.now }
{
    match text.split_first() {
        Some((byte, _)) => *byte == b'"',
        None => false,
    }
}

/// Whether a text of a first byte and others begins with these two.
pub(crate) fn begins(byte: u8, after: &[u8], first: u8, second: u8) -> bool
    ensures { result ≡ starts_with nat_eq (byte ∷ after.now) (first ∷ second ∷ []) }
{
    match after.split_first() {
        Some((next, _)) => first == byte && second == *next,
        None => false,
    }
}
