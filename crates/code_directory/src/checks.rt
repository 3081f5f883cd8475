//! One code directory, checked in the order of its faults.

ghost use Rattle.std.specs.Prelude.{◌≡◌, ◌+◌, ◌≤◌, length, None, Some, MatchResult};
ghost use Rattle.cs_blob.specs.Numbers.{number_at};
ghost use Rattle.code_directory.specs.declared.layout.TheConstants.{LEAST_HEADER, SCATTER_VERSION, LONG_LIMIT_VERSION, MOST_PAGE_EXPONENT};
ghost use Rattle.code_directory.specs.Checks as spec;
ghost use Rattle.code_directory.specs.Directories as fields;
ghost use Rattle.code_directory.specs.Digests as digests;
ghost use Rattle.code_directory.specs.Slots as slots;
ghost use Rattle.code_directory.specs.Pages as pages;

use crate::fault::CodeFault;
use crate::layout::{
    DIRECTORY_MAGIC, FIRST_VERSION, LAST_VERSION, LEAST_HEADER, LONG_LIMIT_VERSION,
    MOST_PAGE_EXPONENT, RUNTIME_VERSION, SCATTER_VERSION, SEGMENT_VERSION, TEAM_VERSION,
};
use byteorder::{BigEndian, ByteOrder};
use cs_blob::Blob;
use req_tree::MOST_IDENTIFIER_BYTES;

/// Looks at a part as a code directory, and answers the first check that fails.
pub(crate) fn check_directory(part: u32, bytes: &[u8]) -> Result<(), CodeFault>
    ensures { MatchResult result (λ _. spec.directory_fault part bytes.now ≡ None) (λ fault. spec.directory_fault part bytes.now ≡ Some fault) }
{
    match Blob::read(bytes, DIRECTORY_MAGIC) {
        Err(fault) => Err(CodeFault::Directory { part, fault }),
        Ok(_) => check_fields(part, bytes),
    }
}

fn check_fields(part: u32, bytes: &[u8]) -> Result<(), CodeFault>
    ensures { MatchResult result (λ _. spec.first_failing (spec.checks part bytes.now) ≡ None) (λ fault. spec.first_failing (spec.checks part bytes.now) ≡ Some fault) }
{
    if bytes.len() < LEAST_HEADER {
        return Err(CodeFault::HeaderCut { part });
    }
    let version = number(bytes, 8);
    if version < FIRST_VERSION || version > LAST_VERSION {
        return Err(CodeFault::BadVersion { part });
    }
    if bytes.len() < header_size(version) {
        return Err(CodeFault::HeaderCut { part });
    }
    if !is_hash_type(bytes[37]) {
        return Err(CodeFault::BadHashKind { part });
    }
    if !is_hash_size(bytes[37], bytes[36]) {
        return Err(CodeFault::BadHashSize { part });
    }
    if version >= SCATTER_VERSION && number(bytes, 44) != 0 {
        return Err(CodeFault::Scatter { part });
    }
    if bytes[39] > MOST_PAGE_EXPONENT {
        return Err(CodeFault::BadPageSize { part });
    }
    if !is_slot_count(bytes[39], limit(bytes), number(bytes, 28)) {
        return Err(CodeFault::SlotCount { part });
    }
    if are_slots_outside(bytes) {
        return Err(CodeFault::SlotsOutside { part });
    }
    if !has_identifier(bytes) {
        return Err(CodeFault::BadIdentifier { part });
    }
    Ok(())
}

/// The number of the four bytes from a place on.
#[tactic(auto, unfolding(cs_blob::specs::Numbers::number_at))]
pub(crate) fn number(bytes: &[u8], place: usize) -> u32
    requires { place + 4 ≤ length bytes.now }
    ensures { result ≡ number_at place bytes.now }
{
    BigEndian::read_u32(bytes.split_at(place).1)
}

/// How many bytes the header of a version has.
fn header_size(version: u32) -> usize
    ensures size { result ≡ fields.header_size version }
    ensures bounds { (LEAST_HEADER ≤ result) × (result ≤ 96) }
    ensures scatter { SCATTER_VERSION ≤ version → 48 ≤ result }
    ensures limit { LONG_LIMIT_VERSION ≤ version → 64 ≤ result }
{
    if version >= RUNTIME_VERSION {
        96
    } else if version >= SEGMENT_VERSION {
        88
    } else if version >= LONG_LIMIT_VERSION {
        64
    } else if version >= TEAM_VERSION {
        52
    } else if version >= SCATTER_VERSION {
        48
    } else {
        LEAST_HEADER
    }
}

fn is_hash_type(kind: u8) -> bool
    ensures { result ≡ digests.is_hash_type kind }
{
    kind == 1 || kind == 2 || kind == 3 || kind == 4
}

fn is_hash_size(kind: u8, size: u8) -> bool
    ensures { result ≡ digests.is_hash_size kind size }
{
    (kind == 1 && size == 20)
        || (kind == 2 && size == 32)
        || (kind == 3 && size == 20)
        || (kind == 4 && size == 48)
}

/// How many bytes of the code are covered.
pub(crate) fn limit(bytes: &[u8]) -> u64
    requires header { LEAST_HEADER ≤ length bytes.now }
    requires whole { fields.header_size (fields.version bytes.now) ≤ length bytes.now }
    ensures { result ≡ fields.limit bytes.now }
{
    let short = u64::from(number(bytes, 32));
    let version = number(bytes, 8);
    let _size = header_size(version);
    if version >= LONG_LIMIT_VERSION {
        let long = BigEndian::read_u64(bytes.split_at(56).1);
        if long != 0 {
            return long;
        }
    }
    short
}

fn is_slot_count(exponent: u8, bound: u64, slots: u32) -> bool
    requires { exponent ≤ MOST_PAGE_EXPONENT }
    ensures { result ≡ pages.is_slot_count exponent bound slots }
{
    if exponent == 0 {
        return slots == 1 || (bound == 0 && slots == 0);
    }
    let size = 2u64.pow(u32::from(exponent));
    let whole = bound / size;
    if bound % size == 0 {
        u64::from(slots) == whole
    } else {
        u64::from(slots) == whole + 1
    }
}

fn are_slots_outside(bytes: &[u8]) -> bool
    requires { LEAST_HEADER ≤ length bytes.now }
    ensures { result ≡ slots.are_slots_outside bytes.now }
{
    let hashes = u64::from(number(bytes, 16));
    let special = u64::from(number(bytes, 24));
    let slots = u64::from(number(bytes, 28));
    let size = u64::from(bytes[36]);
    let header = header_size(number(bytes, 8)) as u64;
    if special + slots == 0 {
        return false;
    }
    hashes < header + special * size || (bytes.len() as u64) < hashes + slots * size
}

fn has_identifier(bytes: &[u8]) -> bool
    requires { LEAST_HEADER ≤ length bytes.now }
    ensures { result ≡ fields.has_identifier bytes.now }
{
    let header = header_size(number(bytes, 8));
    let start = number(bytes, 20) as usize;
    if start < header || bytes.len() <= start {
        return false;
    }
    let size = to_zero(bytes.split_at(start).1);
    start + size < bytes.len() && 1 <= size && size <= MOST_IDENTIFIER_BYTES
}

/// How many bytes stand before the first zero.
pub(crate) fn to_zero(bytes: &[u8]) -> usize
    ensures size { result ≡ length (fields.to_zero bytes.now) }
    ensures bound { result ≤ length bytes.now }
{
    for (at, byte) in bytes.iter().enumerate() {
        if *byte == 0 {
            return at;
        }
    }
    bytes.len()
}
