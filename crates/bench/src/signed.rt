//! Code of whole pages, and a signature of it.

ghost use Rattle.std.specs.Prelude.{◌≤◌};

use code_directory::Signature;
use cs_blob::{Blob, SuperWriter};
use req_tree::Bytes;
use sha2::{Digest, Sha256};
use std::alloc::{AllocError, Global};

const SIGNATURE: u32 = 0xfade_0cc0;

const DIRECTORY: u32 = 0xfade_0c02;

/// The fields from the version on, up to the count of code slots, and those behind the limit, with the identifier `a`.
const FRONT: &[u8] = b"\0\x02\0\x01\0\0\0\0\0\0\0\x2e\0\0\0\x2c\0\0\0\0";

const BACK: &[u8] = b"\x20\x02\0\x0c\0\0\0\0a\0";

/// Code of so many pages of 4,096 bytes.
pub fn code(alloc: Global, pages: u32) -> Result<Vec<u8>, AllocError> {
    let mut code = Vec::new(alloc);
    for page in 0..pages {
        for _ in 0..1024 {
            code.extend_from_slice(&page.to_be_bytes())?;
        }
    }
    Ok(code)
}

/// A signature of this code.
pub fn signature(alloc: Global, code: &[u8], pages: u32) -> Option<Bytes>
    requires { pages ≤ 16384 }
{
    let directory = directory(alloc, code, pages).ok()?;
    let part = Blob::read(directory.as_slice(), DIRECTORY).ok()?;
    let mut writer = SuperWriter::new(alloc, SIGNATURE);
    writer.add(alloc, 0, part.whole()).ok()?;
    writer.finish().ok()
}

fn directory(alloc: Global, code: &[u8], pages: u32) -> Result<Vec<u8>, AllocError>
    requires { pages ≤ 16384 }
{
    let mut directory = Vec::new(alloc);
    directory.extend_from_slice(&DIRECTORY.to_be_bytes())?;
    directory.extend_from_slice(&(46 + 32 * pages).to_be_bytes())?;
    directory.extend_from_slice(FRONT)?;
    directory.extend_from_slice(&pages.to_be_bytes())?;
    directory.extend_from_slice(&(4096 * pages).to_be_bytes())?;
    directory.extend_from_slice(BACK)?;
    for page in code.chunks(4096) {
        let digest = Sha256::digest(page);
        directory.extend_from_slice(&digest)?;
    }
    Ok(directory)
}

/// Whether the code has the pages of the signature.
pub fn agrees(signature: &Option<Bytes>, code: &[u8]) -> bool {
    match signature {
        Some(bytes) => match Signature::read(bytes.as_slice()) {
            Ok(signature) => signature.check_pages(code).is_ok(),
            Err(_) => false,
        },
        None => false,
    }
}
