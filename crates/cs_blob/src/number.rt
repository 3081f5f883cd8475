//! Numbers in blobs: four bytes, the highest first.

ghost use Rattle.std.specs.Prelude.{◌≡◌, ◌+◌, ◌≤◌, length};
ghost use Rattle.cs_blob.specs.Numbers.{number_at};

use byteorder::{BigEndian, ByteOrder};

/// The number of the four bytes from a place on.
#[tactic(auto, unfolding(crate::specs::Numbers::number_at))]
pub(crate) fn number(bytes: &[u8], place: usize) -> u32
    requires { place + 4 ≤ length bytes.now }
    ensures { result ≡ number_at place bytes.now }
{
    BigEndian::read_u32(bytes.split_at(place).1)
}
