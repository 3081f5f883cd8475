//! The first piece of bytes that are cut at a byte.

ghost use Rattle.std.specs.Prelude.{◌≡◌, ◌<◌, ◌==◌, ◌∷◌, length, position, IfSome};
ghost use Rattle.std.specs.Option.{option_copied};
ghost use Rattle.rehearsal.specs.Pieces.{pieces, pieces_left};

/// Cuts at the first byte of that value. Without one the bytes are the one piece, and nothing follows it.
pub fn split_at_byte(bytes: &[u8], byte: u8) -> (&[u8], Option<&[u8]>)
    ensures pieces { pieces byte bytes.now ≡ result.0.now ∷ pieces_left byte (option_copied result.1) }
    ensures shorter { IfSome (option_copied result.1) (λ rest. length rest < length bytes.now) }
{
    match find_byte(bytes, byte) {
        Some(place) => (&bytes[..place], Some(&bytes[place + 1..])),
        None => (bytes, None),
    }
}

fn find_byte(bytes: &[u8], byte: u8) -> Option<usize>
    ensures { result ≡ position (λ b. b == byte) bytes.now }
{
    bytes.iter().position(|b| *b == byte)
}
