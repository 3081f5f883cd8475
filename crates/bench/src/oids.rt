//! The identifier of a certificate extension, from its text to its bytes and back.

use req_tree::{oid_from_text, oid_to_text};
use std::alloc::Global;

/// How many bytes of text were printed, and `None` where there was no memory.
pub fn read_and_print(alloc: Global, times: u64) -> Option<u64> {
    let mut bytes = 0u64;
    for _ in 0..times {
        let oid = oid_from_text(alloc, b"1.2.840.113635.100.6.2.6").ok()?;
        let text = oid_to_text(alloc, &oid).ok()?;
        bytes = bytes.saturating_add(text.as_slice().len() as u64);
    }
    Some(bytes)
}
