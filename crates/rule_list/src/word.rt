//! Bytes of any number as one word without spaces.

ghost use Rattle.std.specs.Prelude.{◌≡◌, ◌<◌, ◌++◌, OnOk};
ghost use Rattle.std.specs.List.{flat_map};
ghost use Rattle.line_text.specs.WordText.{word_text, byte_text};
ghost use Rattle.line_text.specs.WordText as spec;

use std::alloc::AllocError;

/// Appends bytes as one word: `-` for none, `%2D` for the one byte `-`, and else each byte that isn't printable or is
/// `%` as `%` and two hexadecimal digits.
pub(crate) fn word_onto(word: &[u8], out: &mut Vec<u8>) -> Result<(), AllocError>
    ensures { OnOk result (out.new.items ≡ out.old.items ++ word_text word.now) }
{
    match word {
        [] => out.extend_from_slice(b"-"),
        b"-" => out.extend_from_slice(b"%2D"),
        _ => each_onto(word, out),
    }
}

fn each_onto(word: &[u8], out: &mut Vec<u8>) -> Result<(), AllocError>
    ensures { OnOk result (out.new.items ≡ out.old.items ++ flat_map byte_text word.now) }
{
    for byte in word {
        byte_onto(*byte, out)?;
    }
    Ok(())
}

fn byte_onto(byte: u8, out: &mut Vec<u8>) -> Result<(), AllocError>
    ensures { OnOk result (out.new.items ≡ out.old.items ++ byte_text byte) }
{
    if 0x21 <= byte && byte <= 0x7e && byte != b'%' {
        out.extend_from_slice(&[byte])
    } else {
        out.extend_from_slice(&[b'%', hex_digit(byte / 16), hex_digit(byte % 16)])
    }
}

/// The upper-case hexadecimal digit of a number below 16.
fn hex_digit(number: u8) -> u8
    requires { number < 16 }
    ensures { result ≡ spec.hex_digit number }
{
    if number < 10 {
        b'0' + number
    } else {
        b'A' + (number - 10)
    }
}
