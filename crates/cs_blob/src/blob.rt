//! A blob at the front of bytes.

ghost use Rattle.std.specs.Prelude.{◌≡◌, ◌++◌, ℕ, List, None, Some, drop, IfOk, IsOkAnd, MatchResult};
ghost use Rattle.cs_blob.specs.Blobs.{IsBlob, blob_fault};

use crate::fault::BlobFault;
use crate::number::number;
use std::marker::Model;

/// A blob, and the bytes that follow it.
#[derive(Drop)]
pub struct Blob<'a> {
    whole: &'a [u8],
    rest: &'a [u8],
}

impl<'a> Model for Blob<'a> {
    ghost use Rattle.std.specs.Prelude.{◌≤◌, length};
    ghost use Rattle.cs_blob.specs.Blobs.{Front};

    ghost Value = { Front };

    ghost view = { λ blob. record { whole = blob.whole.now; rest = blob.rest.now } };

    ghost invariant = { λ blob. 8 ≤ length blob.whole.now };
}

impl<'a> Blob<'a> {
    /// The blob of this magic at the front of the bytes. Nothing is copied.
    pub fn read(bytes: &'a [u8], magic: u32) -> Result<Blob<'a>, BlobFault>
        ensures found { IfOk result (λ blob. IsBlob magic blob.whole × (bytes.now ≡ blob.whole ++ blob.rest)) }
        ensures only { (whole rest : List ℕ) → IsBlob magic whole → bytes.now ≡ whole ++ rest → IsOkAnd result (λ blob. (blob.whole ≡ whole) × (blob.rest ≡ rest)) }
        ensures first { MatchResult result (λ _. blob_fault magic bytes.now ≡ None) (λ fault. blob_fault magic bytes.now ≡ Some fault) }
    {
        if bytes.len() < 8 {
            return Err(BlobFault::Short);
        }
        if number(bytes, 0) != magic {
            return Err(BlobFault::BadMagic);
        }
        let length = number(bytes, 4) as usize;
        if length < 8 || bytes.len() < length {
            return Err(BlobFault::BadLength);
        }
        let (whole, rest) = bytes.split_at(length);
        Ok(Blob { whole, rest })
    }

    /// The blob with its magic and its length.
    pub fn whole(&self) -> &'a [u8]
        ensures { result.now ≡ self.now.whole }
    {
        self.whole
    }

    /// The blob without its magic and its length.
    pub fn body(&self) -> &'a [u8]
        ensures { result.now ≡ drop 8 self.now.whole }
    {
        self.whole.split_at(8).1
    }

    /// The bytes behind the blob.
    pub fn rest(&self) -> &'a [u8]
        ensures { result.now ≡ self.now.rest }
    {
        self.rest
    }
}
