//! A code directory that passed its checks: its fields, its slots, and the digests in them.

use crate::checks::{limit, number, to_zero};
use crate::digest::{behind, cut_digest, front, is_blank, is_digest};
use req_tree::{Hash20, Identifier, Subject};
use std::marker::Model;

/// The code directory in a part of this type.
#[derive(Drop)]
pub(crate) struct Directory<'a> {
    kind: u32,
    bytes: &'a [u8],
}

impl<'a> Model for Directory<'a> {
    ghost use Rattle.code_directory.specs.Signatures.{Placed, placed};
    ghost use Rattle.code_directory.specs.Checks.{IsSound};

    ghost Value = { Placed };

    ghost view = { λ directory. placed directory.kind directory.bytes.now };

    ghost invariant = { λ directory. IsSound directory.bytes.now };
}

impl<'a> Directory<'a> {
    ghost use Rattle.std.specs.Prelude.{◌≡◌, ◌≢◌, ◌<◌, ◌≤◌, length, take, true, None, Some, MatchOption};
    ghost use Rattle.std.specs.Bool.{MatchBool};
    ghost use Rattle.req_tree.specs.Subject.{subject_of, identifier_bytes, IsIdentifier};
    ghost use Rattle.code_directory.specs.Signatures.{placed};
    ghost use Rattle.code_directory.specs.Checks.{directory_fault};
    ghost use Rattle.code_directory.specs.Digests.{digest, is_hash_type};
    ghost use Rattle.code_directory.specs.Directories as fields;
    ghost use Rattle.code_directory.specs.Slots as slots;
    ghost use Rattle.code_directory.specs.Pages as pages;
    ghost use Rattle.code_directory.specs.Agreement.{PageAgrees};

    /// The directory in a part that passed its checks.
    pub(crate) fn passed(kind: u32, bytes: &'a [u8]) -> Directory<'a>
        requires { directory_fault kind bytes.now ≡ None }
        ensures { result ≡ placed kind bytes.now }
    {
        Directory { kind, bytes }
    }

    /// The type of the digests.
    pub(crate) fn hash_type(&self) -> u8
        ensures value { result ≡ fields.hash_type self.now.bytes }
        ensures known { is_hash_type result ≡ true }
    {
        self.bytes[37]
    }

    /// How many bytes of the code are covered.
    pub(crate) fn limit(&self) -> u64
        ensures { result ≡ fields.limit self.now.bytes }
    {
        limit(self.bytes)
    }

    /// How many pages have slots.
    pub(crate) fn code_slots(&self) -> u32
        ensures { result ≡ fields.code_slots self.now.bytes }
    {
        number(self.bytes, 28)
    }

    /// The name of the code and what it is called.
    pub(crate) fn subject(&self) -> Subject
        ensures cdhash { (subject_of result).cdhash ≡ take 20 (digest (fields.hash_type self.now.bytes) self.now.bytes) }
        ensures identifier { (subject_of result).identifier ≡ fields.identifier self.now.bytes }
        ensures platform { (subject_of result).platform ≡ fields.platform self.now.bytes }
    {
        Subject {
            cdhash: self.cdhash(),
            identifier: self.identifier(),
            platform: self.bytes[38],
        }
    }

    /// The digest of the whole directory, cut to 20 bytes.
    pub(crate) fn cdhash(&self) -> Hash20
        ensures { result.bytes ≡ take 20 (digest (fields.hash_type self.now.bytes) self.now.bytes) }
    {
        cut_digest(self.hash_type(), self.bytes)
    }

    fn identifier(&self) -> Identifier
        ensures { identifier_bytes result ≡ fields.identifier self.now.bytes }
    {
        match Identifier::of(self.identifier_bytes()) {
            Some(identifier) => identifier,
            None => unreachable!(),
        }
    }

    fn identifier_bytes(&self) -> &'a [u8]
        ensures value { result.now ≡ fields.identifier self.now.bytes }
        ensures fits { IsIdentifier result.now }
    {
        let start = number(self.bytes, 20) as usize;
        let from_start = behind(self.bytes, start);
        front(from_start, to_zero(from_start))
    }

    /// Whether a page of the code has the digest in its slot.
    pub(crate) fn has_page(&self, code: &[u8], slot: u32) -> bool
        requires among { slot < fields.code_slots self.now.bytes }
        requires long { fields.limit self.now.bytes ≤ length code.now }
        ensures { MatchBool result (PageAgrees self.now.bytes code.now slot) (PageAgrees self.now.bytes code.now slot → ⊥) }
    {
        is_digest(
            self.hash_type(),
            self.page(code, slot),
            self.code_slot(slot),
        )
    }

    /// A page of the code, and nothing that isn't covered.
    fn page<'b>(&self, code: &'b [u8], slot: u32) -> &'b [u8]
        requires { fields.limit self.now.bytes ≤ length code.now }
        ensures { result.now ≡ pages.page self.now.bytes code.now slot }
    {
        let covered = code.split_at(self.limit() as usize).0;
        let exponent = self.bytes[39];
        if exponent == 0 {
            return covered;
        }
        let size = 2usize.pow(u32::from(exponent));
        front(behind(covered, slot as usize * size), size)
    }

    /// The digest in the slot of a page.
    fn code_slot(&self, slot: u32) -> &'a [u8]
        ensures { result.now ≡ slots.code_slot self.now.bytes slot }
    {
        let size = self.bytes[36] as usize;
        let start = number(self.bytes, 16) as usize + slot as usize * size;
        front(behind(self.bytes, start), size)
    }

    /// Whether a part of this type has the digest in its slot.
    pub(crate) fn has_part(&self, kind: u32, part: &[u8]) -> bool
        ensures { MatchBool result (slots.special_slot self.now.bytes kind ≡ Some (digest (fields.hash_type self.now.bytes) part.now))
            (slots.special_slot self.now.bytes kind ≢ Some (digest (fields.hash_type self.now.bytes) part.now)) }
    {
        match self.special_slot(kind) {
            Some(slot) => is_digest(self.hash_type(), part, slot),
            None => false,
        }
    }

    /// The digest in the slot of a part.
    fn special_slot(&self, kind: u32) -> Option<&'a [u8]>
        ensures { MatchOption result (slots.special_slot self.now.bytes kind ≡ None) (λ slot. slots.special_slot self.now.bytes kind ≡ Some slot.now) }
    {
        if kind < 1 || number(self.bytes, 24) < kind {
            return None;
        }
        let slot = self.slot_before(kind);
        if is_blank(slot) { None } else { Some(slot) }
    }

    /// The bytes of a slot, counted backwards from the first slot of a page.
    fn slot_before(&self, kind: u32) -> &'a [u8]
        requires { kind ≤ fields.special_slots self.now.bytes }
        ensures { result.now ≡ slots.bytes_before self.now.bytes kind }
    {
        let size = self.bytes[36] as usize;
        let start = number(self.bytes, 16) as usize - kind as usize * size;
        front(behind(self.bytes, start), size)
    }
}
