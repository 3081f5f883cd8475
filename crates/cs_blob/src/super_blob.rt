//! A super-blob at the front of bytes, and its parts.

ghost use Rattle.std.specs.Prelude.{◌≡◌, ◌≢◌, ◌+◌, ◌*◌, ◌<◌, ◌≤◌, ◌↔◌, ◌++◌, ℕ, List, length, IfOk, IfErr, IsTrue, IsOkAnd, MatchOption, MatchResult};
ghost use Rattle.std.specs.Prelude.{◌^◌};
ghost use Rattle.std.specs.Bool.{MatchBool};
ghost use Rattle.cs_blob.specs.declared.limits.TheConstants.{MOST_PARTS};
ghost use Rattle.cs_blob.specs.SuperBlobs as spec;
ghost use Rattle.cs_blob.specs.SuperBlobs.{HasIndex, IsInside, Overlap, IsFine, AreFineTo, IsSuperBlob, IndexFails, SuperFails, IsPartOf, count_of, offset_at, length_at, part_at};

use crate::blob::Blob;
use crate::fault::BlobFault;
use crate::limits::MOST_PARTS;
use crate::number::number;
use std::marker::Model;

/// A super-blob, and the bytes that follow it.
#[derive(Drop)]
pub struct SuperBlob<'a> {
    whole: &'a [u8],
    rest: &'a [u8],
}

impl<'a> Model for SuperBlob<'a> {
    ghost use Rattle.std.specs.Prelude.{ℕ, ◌<◌};
    ghost use Rattle.cs_blob.specs.Blobs.{Front};
    ghost use Rattle.cs_blob.specs.SuperBlobs.{HasIndex, IsInside, count_of};

    ghost Value = { Front };

    ghost view = { λ blob. record { whole = blob.whole.now; rest = blob.rest.now } };

    ghost invariant = { λ blob. HasIndex blob.whole.now × ((index : ℕ) → index < count_of blob.whole.now → IsInside blob.whole.now index) };
}

impl<'a> SuperBlob<'a> {
    /// The super-blob of this magic at the front of the bytes. Nothing is copied, and each part is
    /// looked at once beside those before it.
    pub fn read(bytes: &'a [u8], magic: u32) -> Result<SuperBlob<'a>, BlobFault>
        ensures found { IfOk result (λ blob. IsSuperBlob magic blob.whole × (bytes.now ≡ blob.whole ++ blob.rest)) }
        ensures only { (whole rest : List ℕ) → IsSuperBlob magic whole → bytes.now ≡ whole ++ rest → IsOkAnd result (λ blob. (blob.whole ≡ whole) × (blob.rest ≡ rest)) }
        ensures first { IfErr result (λ fault. SuperFails magic bytes.now fault) }
    {
        let blob = Blob::read(bytes, magic)?;
        let whole = blob.whole();
        match check_index(whole) {
            Ok(()) => Ok(SuperBlob {
                whole,
                rest: blob.rest(),
            }),
            Err(fault) => Err(fault),
        }
    }

    /// How many parts there are.
    pub fn count(&self) -> u32
        ensures value { result ≡ count_of self.now.whole }
        ensures few { result ≤ MOST_PARTS }
    {
        number(self.whole, 8)
    }

    /// The type of the part of an entry, by its place in the index from 0 on.
    pub fn kind_at(&self, index: u32) -> u32
        requires { index < count_of self.now.whole }
        ensures { result ≡ spec.kind_at self.now.whole index }
    {
        kind_of(self.whole, index)
    }

    /// The part of a type, with its magic and its length.
    pub fn part(&self, kind: u32) -> Option<&'a [u8]>
        ensures { MatchOption result ((part : List ℕ) → IsPartOf self.now.whole kind part → ⊥) (λ part. IsPartOf self.now.whole kind part.now) }
    {
        for index in 0..self.count() {
            if self.kind_at(index) == kind {
                return Some(part_of(self.whole, index));
            }
        }
        None
    }

    /// The bytes of the super-blob itself: header, index, parts and the gaps between them.
    pub fn whole(&self) -> &'a [u8]
        ensures { result.now ≡ self.now.whole }
    {
        self.whole
    }

    /// The bytes behind the super-blob.
    pub fn rest(&self) -> &'a [u8]
        ensures { result.now ≡ self.now.rest }
    {
        self.rest
    }
}

/// Looks at the count, the index and each entry in turn.
fn check_index(whole: &[u8]) -> Result<(), BlobFault>
    requires { 8 ≤ length whole.now }
    ensures { MatchResult result (λ _. HasIndex whole.now × ((index : ℕ) → index < count_of whole.now → IsFine whole.now index)) (λ fault. IndexFails whole.now fault) }
{
    if whole.len() < 12 {
        return Err(BlobFault::Short);
    }
    let count = number(whole, 8);
    if count as usize > MOST_PARTS {
        return Err(BlobFault::TooManyParts);
    }
    if whole.len() < 12 + 8 * count as usize {
        return Err(BlobFault::Short);
    }
    for index in 0..count {
        check_entry(whole, index)?;
    }
    Ok(())
}

fn check_entry(whole: &[u8], index: u32) -> Result<(), BlobFault>
    requires { AreFineTo whole.now index }
    ensures { MatchResult result (λ _. IsFine whole.now index) (λ fault. IndexFails whole.now fault) }
{
    if !is_inside(whole, index) {
        return Err(BlobFault::PartOutside { index });
    }
    if has_earlier_kind(whole, index) {
        return Err(BlobFault::PartTwice { index });
    }
    if overlaps_earlier(whole, index) {
        return Err(BlobFault::PartOverlap { index });
    }
    Ok(())
}

fn is_inside(whole: &[u8], index: u32) -> bool
    requires indexed { HasIndex whole.now }
    requires among { index < count_of whole.now }
    ensures { IsTrue result ↔ IsInside whole.now index }
{
    let offset = offset_of(whole, index);
    if offset < 12 + 8 * number(whole, 8) as usize || whole.len() < offset + 8 {
        return false;
    }
    let length = number(whole, offset + 4) as usize;
    8 <= length && offset + length <= whole.len()
}

fn has_earlier_kind(whole: &[u8], index: u32) -> bool
    requires indexed { HasIndex whole.now }
    requires among { index < count_of whole.now }
    ensures { MatchBool result ((earlier : ℕ) × (earlier < index) × (spec.kind_at whole.now earlier ≡ spec.kind_at whole.now index)) ((earlier : ℕ) → earlier < index → spec.kind_at whole.now earlier ≢ spec.kind_at whole.now index) }
{
    let kind = kind_of(whole, index);
    for earlier in 0..index {
        if kind_of(whole, earlier) == kind {
            return true;
        }
    }
    false
}

fn overlaps_earlier(whole: &[u8], index: u32) -> bool
    requires fine { AreFineTo whole.now index }
    requires inside { IsInside whole.now index }
    ensures { MatchBool result ((earlier : ℕ) × (earlier < index) × Overlap whole.now earlier index) ((earlier : ℕ) → earlier < index → Overlap whole.now earlier index → ⊥) }
{
    for earlier in 0..index {
        if overlap(whole, earlier, index) {
            return true;
        }
    }
    false
}

fn overlap(whole: &[u8], first: u32, second: u32) -> bool
    requires indexed { HasIndex whole.now }
    requires first { IsInside whole.now first }
    requires second { IsInside whole.now second }
    requires first_among { first < count_of whole.now }
    requires second_among { second < count_of whole.now }
    ensures { IsTrue result ↔ Overlap whole.now first second }
{
    let (first_start, first_end) = range_of(whole, first);
    let (second_start, second_end) = range_of(whole, second);
    first_start < second_end && second_start < first_end
}

/// Where the part of an entry begins and ends.
fn range_of(whole: &[u8], index: u32) -> (usize, usize)
    requires indexed { HasIndex whole.now }
    requires among { index < count_of whole.now }
    requires inside { IsInside whole.now index }
    ensures start { result.0 ≡ offset_at whole.now index }
    ensures end { result.1 ≡ offset_at whole.now index + length_at whole.now index }
    ensures fits { result.1 ≤ length whole.now }
{
    let start = offset_of(whole, index);
    let length = number(whole, start + 4) as usize;
    (start, start + length)
}

fn kind_of(whole: &[u8], index: u32) -> u32
    requires indexed { HasIndex whole.now }
    requires among { index < count_of whole.now }
    ensures { result ≡ spec.kind_at whole.now index }
{
    number(whole, 12 + 8 * index as usize)
}

fn offset_of(whole: &[u8], index: u32) -> usize
    requires indexed { HasIndex whole.now }
    requires among { index < count_of whole.now }
    ensures value { result ≡ offset_at whole.now index }
    ensures fits { result < 2 ^ 32 }
{
    number(whole, 16 + 8 * index as usize) as usize
}

fn part_of<'a>(whole: &'a [u8], index: u32) -> &'a [u8]
    requires indexed { HasIndex whole.now }
    requires among { index < count_of whole.now }
    requires inside { IsInside whole.now index }
    ensures { result.now ≡ part_at whole.now index }
{
    let (start, end) = range_of(whole, index);
    whole.split_at(start).1.split_at(end - start).0
}
