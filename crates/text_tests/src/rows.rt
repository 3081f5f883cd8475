//! Rows of a table: what is wanted, a mark, and a text.

use std::alloc::Global;

/// What stands before the first byte of this kind, and what stands behind it.
pub fn parts(row: &[u8], mark: u8) -> (&[u8], &[u8]) {
    for (at, byte) in row.iter().enumerate() {
        if *byte == mark {
            return (row.split_at(at).0, row.split_at(at + 1).1);
        }
    }
    (row, b"")
}

/// The bytes that a text has in hexadecimal; `-` has none.
pub fn bytes_of(alloc: Global, text: &[u8]) -> Option<Vec<u8>> {
    if text == b"-".as_slice() {
        return Some(Vec::new(alloc));
    }
    hex::decode(alloc, text).ok()
}
