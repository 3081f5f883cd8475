//! A line of text under construction, held in place.

ghost use Rattle.std.specs.Prelude.{◌≡◌, ◌+◌, ◌*◌, ◌<◌, ◌≤◌, [], ◌∷◌, ◌++◌, length, decimal};
ghost use Rattle.std.specs.List.{flat_map};
ghost use Rattle.line_text.specs.LineText.{line_bytes};
ghost use Rattle.line_text.specs.WordText.{word_text, byte_text};
ghost use Rattle.line_text.specs.WordText as spec;
ghost use Rattle.line_text.specs.declared.limits.TheConstants.{LINE_ROOM};

use crate::limits::LINE_ROOM;
use arrayvec::ArrayVec;
use itoa::Buffer;

/// A reply or a canonical text of up to `LINE_ROOM` bytes. It takes no memory.
#[derive(Debug, Drop)]
pub struct LineText {
    bytes: ArrayVec<u8, LINE_ROOM>,
}

impl LineText {
    /// The empty line.
    pub fn new() -> LineText
        ensures { line_bytes result ≡ [] }
    {
        LineText {
            bytes: ArrayVec::new(),
        }
    }

    pub fn as_slice(&self) -> &[u8]
        ensures bytes { result.now ≡ line_bytes self.now }
        ensures fits { length result.now ≤ LINE_ROOM }
    {
        self.bytes.as_slice()
    }

    pub fn clear(&mut self)
        ensures { line_bytes self.new ≡ [] }
    {
        self.bytes.clear();
    }

    pub fn push(&mut self, byte: u8)
        requires { length (line_bytes self.old) + 1 ≤ LINE_ROOM }
        ensures text { line_bytes self.new ≡ line_bytes self.old ++ byte ∷ [] }
        ensures length { length (line_bytes self.new) ≡ length (line_bytes self.old) + 1 }
    {
        self.bytes.push(byte);
    }

    pub fn push_all(&mut self, more: &[u8])
        requires { length (line_bytes self.old) + length more.now ≤ LINE_ROOM }
        ensures text { line_bytes self.new ≡ line_bytes self.old ++ more.now }
        ensures length { length (line_bytes self.new) ≡ length (line_bytes self.old) + length more.now }
    {
        let _ = self.bytes.try_extend_from_slice(more);
    }

    /// Appends a number's decimal digits, of which there are at most 20.
    pub fn push_number(&mut self, number: u64)
        requires { length (line_bytes self.old) + 20 ≤ LINE_ROOM }
        ensures text { line_bytes self.new ≡ line_bytes self.old ++ decimal number }
        ensures length { length (line_bytes self.new) ≤ length (line_bytes self.old) + 20 }
    {
        let mut buffer = Buffer::new();
        self.push_all(buffer.format(number).as_bytes());
    }

    /// Appends a field of an answer or a refusal: its name, with the spaces and the `=` that belong to it,
    /// and a number's decimal digits.
    pub fn push_field(&mut self, name: &[u8], number: u64)
        requires { length (line_bytes self.old) + (length name.now + 20) ≤ LINE_ROOM }
        ensures text { line_bytes self.new ≡ line_bytes self.old ++ (name.now ++ decimal number) }
        ensures length { length (line_bytes self.new) ≤ length (line_bytes self.old) + (length name.now + 20) }
    {
        self.push_all(name);
        self.push_number(number);
    }

    /// Appends bytes as one word without spaces: `-` for none, `%2D` for the one byte `-`, and else
    /// each byte that isn't printable or is `%` as `%` and two hexadecimal digits.
    pub fn push_word(&mut self, word: &[u8])
        requires { length (line_bytes self.old) + (3 * length word.now + 3) ≤ LINE_ROOM }
        ensures text { line_bytes self.new ≡ line_bytes self.old ++ word_text word.now }
        ensures length { length (line_bytes self.new) ≤ length (line_bytes self.old) + (3 * length word.now + 3) }
    {
        match word {
            [] => self.push(b'-'),
            b"-" => self.push_all(b"%2D"),
            _ => self.push_each(word),
        }
    }

    fn push_each(&mut self, word: &[u8])
        requires { length (line_bytes self.old) + 3 * length word.now ≤ LINE_ROOM }
        ensures text { line_bytes self.new ≡ line_bytes self.old ++ flat_map byte_text word.now }
        ensures length { length (line_bytes self.new) ≤ length (line_bytes self.old) + 3 * length word.now }
    {
        for byte in word {
            self.push_byte_text(*byte);
        }
    }

    fn push_byte_text(&mut self, byte: u8)
        requires { length (line_bytes self.old) + 3 ≤ LINE_ROOM }
        ensures text { line_bytes self.new ≡ line_bytes self.old ++ byte_text byte }
        ensures length { length (line_bytes self.new) ≤ length (line_bytes self.old) + 3 }
    {
        if 0x21 <= byte && byte <= 0x7e && byte != b'%' {
            self.push(byte);
        } else {
            self.push_all(&[b'%', hex_digit(byte / 16), hex_digit(byte % 16)]);
        }
    }
}

/// The upper-case hexadecimal digit of a number below 16.
fn hex_digit(number: u8) -> u8
    requires { number < 16 }
    ensures { result ≡ spec.hex_digit number }
{
    if number < 10 {
        b'0' + number
    } else {
        b'A' + (number - 10)
    }
}
