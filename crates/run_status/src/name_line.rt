//! A last line that names a file.

ghost use Rattle.std.specs.Prelude.{◌≡◌, ◌<◌, ◌++◌, ◌∷◌, [], OnOk, IfOk};
ghost use Rattle.std.specs.List.{flat_map};
ghost use Rattle.line_reader.specs.Lines.{with_lf};
ghost use Rattle.line_text.specs.WordText.{word_text, byte_text};
ghost use Rattle.line_text.specs.WordText as spec;

use line_text::Bytes;
use std::alloc::{AllocError, Global};

/// The words, a name behind them as one word, and LF.
pub fn name_line(alloc: Global, words: &[u8], name: &[u8]) -> Result<Bytes, AllocError>
    ensures { IfOk result (λ line. line ≡ with_lf (words.now ++ word_text name.now)) }
{
    let mut line = Vec::from_slice(alloc, words)?;
    push_word(&mut line, name)?;
    line.push(b'\n')?;
    Ok(Bytes::from_vec(line))
}

/// Appends a word of any length.
fn push_word(line: &mut Vec<u8>, word: &[u8]) -> Result<(), AllocError>
    ensures { OnOk result (line.new.items ≡ line.old.items ++ word_text word.now) }
{
    match word {
        [] => line.extend_from_slice(b"-"),
        b"-" => line.extend_from_slice(b"%2D"),
        _ => push_each(line, word),
    }
}

fn push_each(line: &mut Vec<u8>, word: &[u8]) -> Result<(), AllocError>
    ensures { OnOk result (line.new.items ≡ line.old.items ++ flat_map byte_text word.now) }
{
    for byte in word {
        push_byte(line, *byte)?;
    }
    Ok(())
}

fn push_byte(line: &mut Vec<u8>, byte: u8) -> Result<(), AllocError>
    ensures { OnOk result (line.new.items ≡ line.old.items ++ byte_text byte) }
{
    if 0x21 <= byte && byte <= 0x7e && byte != b'%' {
        line.extend_from_slice(&[byte])
    } else {
        line.extend_from_slice(&[b'%', hex_digit(byte / 16), hex_digit(byte % 16)])
    }
}

/// The upper-case hexadecimal digit of a number below 16.
fn hex_digit(number: u8) -> u8
    requires { number < 16 }
    ensures { result ≡ spec.hex_digit number }
{
    if number < 10 {
        b'0' + number
    } else {
        b'A' + (number - 10)
    }
}
