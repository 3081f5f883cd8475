//! A super-blob with as many parts as it may have.

use cs_blob::{Blob, SuperBlob, SuperWriter};
use req_tree::Bytes;
use std::alloc::Global;

const MAGIC: u32 = 0xfade0cc0;

const ENTITLEMENTS: u32 = 0xfade7171;

const PART: &[u8] = b"\xfa\xde\x71\x71\0\0\0\x0c\0\0\0\0";

/// How many parts were found, and `None` where there was no memory.
pub fn read_whole(alloc: Global, times: u64) -> Option<u64> {
    let whole = written(alloc)?;
    let mut parts = 0u64;
    for _ in 0..times {
        let blob = SuperBlob::read(whole.as_slice(), MAGIC).ok()?;
        parts = parts.saturating_add(u64::from(blob.count()));
    }
    Some(parts)
}

fn written(alloc: Global) -> Option<Bytes> {
    let part = Blob::read(PART, ENTITLEMENTS).ok()?;
    let mut writer = SuperWriter::new(alloc, MAGIC);
    for kind in 0..64 {
        writer.add(alloc, kind, part.whole()).ok()?;
    }
    writer.finish().ok()
}
