//! Digests by their types, of bytes where they lie, and pieces of bytes.

ghost use Rattle.std.specs.Prelude.{◌≡◌, ◌≢◌, ◌≤◌, true, length, take, drop};
ghost use Rattle.std.specs.Bool.{MatchBool};
ghost use Rattle.code_directory.specs.Digests.{digest, is_hash_type};
ghost use Rattle.code_directory.specs.Slots as slots;

use req_tree::Hash20;
use sha1::Sha1;
use sha2::{Digest, Sha256, Sha384};

/// Whether a slot has the digest of the bytes.
pub(crate) fn is_digest(kind: u8, bytes: &[u8], slot: &[u8]) -> bool
    requires { is_hash_type kind ≡ true }
    ensures { MatchBool result (slot.now ≡ digest kind bytes.now) (slot.now ≢ digest kind bytes.now) }
{
    if kind == 1 {
        let hash = Sha1::digest(bytes);
        return slot == hash.as_slice();
    }
    if kind == 2 {
        let hash = Sha256::digest(bytes);
        return slot == hash.as_slice();
    }
    if kind == 3 {
        let hash = Sha256::digest(bytes);
        return slot == front(hash.as_slice(), 20);
    }
    let hash = Sha384::digest(bytes);
    slot == hash.as_slice()
}

/// The first 20 bytes of the digest.
pub(crate) fn cut_digest(kind: u8, bytes: &[u8]) -> Hash20
    requires { is_hash_type kind ≡ true }
    ensures { result.bytes ≡ take 20 (digest kind bytes.now) }
{
    if kind == 1 {
        return Hash20 {
            bytes: Sha1::digest(bytes),
        };
    }
    if kind == 4 {
        let hash = Sha384::digest(bytes);
        return cut(hash.as_slice());
    }
    let hash = Sha256::digest(bytes);
    cut(hash.as_slice())
}

fn cut(digest: &[u8]) -> Hash20
    requires { 20 ≤ length digest.now }
    ensures { result.bytes ≡ take 20 digest.now }
{
    let mut bytes = [0; 20];
    bytes.copy_from_slice(digest.split_at(20).0);
    Hash20 { bytes }
}

/// Zeros alone: no digest.
pub(crate) fn is_blank(slot: &[u8]) -> bool
    ensures { result ≡ slots.is_blank slot.now }
{
    slot.iter().all(|byte| *byte == 0)
}

/// At most so many bytes from the front.
pub(crate) fn front(bytes: &[u8], count: usize) -> &[u8]
    ensures { result.now ≡ take count bytes.now }
{
    bytes.split_at(count.min(bytes.len())).0
}

/// What follows at most so many bytes.
pub(crate) fn behind(bytes: &[u8], count: usize) -> &[u8]
    ensures { result.now ≡ drop count bytes.now }
{
    bytes.split_at(count.min(bytes.len())).1
}
