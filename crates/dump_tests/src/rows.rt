//! Rows of a table: bytes in hexadecimal, a space, and words.

use std::alloc::Global;

/// What stands before the first space, and what stands behind it.
pub fn parts(row: &[u8]) -> (&[u8], &[u8]) {
    for (at, byte) in row.iter().enumerate() {
        if *byte == b' ' {
            return (row.split_at(at).0, row.split_at(at + 1).1);
        }
    }
    (row, b"")
}

/// The bytes that a text has in hexadecimal; `-` has none.
pub fn bytes_of(alloc: Global, text: &[u8]) -> Option<Vec<u8>> {
    if text == b"-".as_slice() {
        return Some(Vec::new(alloc));
    }
    hex::decode(alloc, text).ok()
}
