//! Bytes that were written as one word of a line.

ghost use Rattle.std.specs.Prelude.{◌≡◌, ◌≤◌, ◌<◌, ◌∷◌, [], ℕ, length, IfSome};
ghost use Rattle.std.specs.Option.{option_map};
ghost use Rattle.req_tree.specs.declared.limits.TheConstants.{MOST_IDENTIFIER_BYTES};
ghost use Rattle.line_model.specs.WordTexts.{is_itself, pair_byte, bytes_of_word, bytes_in, pair_in, at_most};
ghost use Rattle.line_words.specs.WordTexts.{front_and};

use arrayvec::ArrayVec;
use req_tree::MOST_IDENTIFIER_BYTES;

/// The bytes of a word, held in place.
type WordBytes = ArrayVec<u8, MOST_IDENTIFIER_BYTES>;

/// The bytes of a word, where there are at most so many.
pub fn read_bytes(word: &[u8], most: usize) -> Option<WordBytes>
    requires { most ≤ MOST_IDENTIFIER_BYTES }
    ensures bytes { option_map (λ held. held.items) result ≡ at_most most (bytes_of_word word.now) }
    ensures within { IfSome result (λ held. length held.items ≤ most) }
{
    match word {
        [] => None,
        [b'-'] => Some(ArrayVec::new()),
        _ => read_text(word, most),
    }
}

fn read_text(word: &[u8], most: usize) -> Option<WordBytes>
    requires { most ≤ MOST_IDENTIFIER_BYTES }
    ensures bytes { option_map (λ held. held.items) result ≡ at_most most (bytes_in word.now) }
    ensures within { IfSome result (λ held. length held.items ≤ most) }
{
    let mut bytes = ArrayVec::new();
    let mut left = word;
    while !left.is_empty() {
        let (byte, rest) = read_byte(left)?;
        if bytes.len() == most {
            return None;
        }
        bytes.push(byte);
        left = rest;
    }
    Some(bytes)
}

/// The first byte of a text that isn't empty, and what follows it.
fn read_byte(text: &[u8]) -> Option<(u8, &[u8])>
    requires { 1 ≤ length text.now }
    ensures bytes { bytes_in text.now ≡ front_and result }
    ensures shorter { IfSome result (λ read. length read.1.now < length text.now) }
{
    match text {
        [] => None,
        [b'%', pair @ ..] => read_pair(pair),
        [byte, rest @ ..] => {
            if is_itself(*byte) {
                Some((*byte, rest))
            } else {
                None
            }
        }
    }
}

fn is_itself(byte: u8) -> bool
    ensures { result ≡ is_itself byte }
{
    0x21 <= byte && byte != b'%' && byte != 0x7f
}

/// The byte of two hexadecimal digits, and what follows them.
fn read_pair(text: &[u8]) -> Option<(u8, &[u8])>
    ensures bytes { pair_in text.now ≡ front_and result }
    ensures shorter { IfSome result (λ read. length read.1.now < length text.now) }
{
    match text {
        [high, low, rest @ ..] => {
            let byte = pair_byte(*high, *low)?;
            Some((byte, rest))
        }
        _ => None,
    }
}

fn pair_byte(high: u8, low: u8) -> Option<u8>
    ensures { option_map (λ (byte : ℕ). byte ∷ []) result ≡ pair_byte high low }
{
    let mut byte = [0];
    match hex::decode_to_slice(&[high, low], &mut byte) {
        Ok(()) => Some(byte[0]),
        Err(_) => None,
    }
}
