//! One requirement blob, read and written as often as asked.

use req_ops::{decode, encode, is_encodable};
use req_tree::Req;
use std::alloc::Global;

/// How often the bytes were read as a requirement.
pub fn read_often(alloc: Global, bytes: &[u8], times: u64) -> u64 {
    let mut count = 0u64;
    for _ in 0..times {
        if is_read(alloc, bytes) {
            count = count.saturating_add(1);
        }
    }
    count
}

fn is_read(alloc: Global, bytes: &[u8]) -> bool {
    match decode(alloc, bytes) {
        Ok(_) => true,
        Err(_) => false,
    }
}

/// How often the requirement was written in as many bytes as it was read from; never where it can't be read
/// or written.
pub fn write_often(alloc: Global, bytes: &[u8], times: u64) -> u64 {
    match decode(alloc, bytes) {
        Ok(req) => written_often(alloc, &req, bytes.len(), times),
        Err(_) => 0,
    }
}

fn written_often(alloc: Global, req: &Req, length: usize, times: u64) -> u64 {
    if !is_encodable(req) {
        return 0;
    }
    let mut count = 0u64;
    for _ in 0..times {
        if let Ok(bytes) = encode(alloc, req) {
            if bytes.as_slice().len() == length {
                count = count.saturating_add(1);
            }
        }
    }
    count
}
