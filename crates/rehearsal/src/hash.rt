//! The hashes of made-up code.

ghost use Rattle.std.specs.Prelude.{◌≡◌};
ghost use Rattle.rehearsal.specs.Made as model;

use hex::encode_to_slice;

/// The hash of twenty equal bytes, in hexadecimal.
pub fn hash_text(byte: u8) -> [u8; 40]
    ensures { result ≡ model.hash_text byte }
{
    let hash = [byte; 20];
    let mut text = [0; 40];
    let _ = encode_to_slice(hash, &mut text);
    text
}
