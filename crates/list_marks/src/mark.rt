//! The mark of bytes.

ghost use Rattle.std.specs.Prelude.{◌≡◌};
ghost use Rattle.list_marks.specs.Marks as marks;

/// The mark of bytes. Those of different bytes are nearly always different.
pub fn mark_of(bytes: &[u8]) -> u32
    ensures { result ≡ marks.mark_of bytes.now }
{
    let mut mark = 0;
    for byte in bytes {
        mark = mixed(mark, *byte);
    }
    mark
}

/// The mark with one more byte.
fn mixed(mark: u32, byte: u8) -> u32
    ensures { result ≡ marks.mixed mark byte }
{
    ((mark as u64 * 16_777_619 + byte as u64) % 4_294_967_296) as u32
}
