//! Sets of requirements written as their plain bytes.

ghost use Rattle.std.specs.Prelude.{◌≡◌, ◌+◌, ◌<◌, ◌≤◌, ◌⊎◌, ◌++◌, ◌∷◌, [], ℕ, None, length, IfOk, IfErr, MatchResult};
ghost use Rattle.cs_blob.specs.Blobs.{IsSized};
ghost use Rattle.cs_blob.specs.SuperBlobs.{IsSuperBlob};
ghost use Rattle.cs_blob.specs.Writing.{Holds, add_fault, written};
ghost use Rattle.req_ops.specs.Sets.{set_magic};
ghost use Rattle.req_ops.specs.SetEncoding.{IsPlainSet, plain_set};
ghost use Rattle.req_ops.specs.Steps.{IsDraftTo, HasLongPart};
ghost use Rattle.req_tree.specs.TreeSet.{IsEncodableSet};
ghost use Rattle.req_blob.specs.declared.limits.TheConstants.{MOST_BYTES};

use crate::decoding::SET_MAGIC;
use cs_blob::SuperWriter;
use cs_blob::laws::{a_part_fits_where_there_is_room, a_super_blob_has_its_total};
use req_blob::laws::{a_requirement_is_a_blob, what_is_refused_is_too_long};
use req_blob::{MOST_BYTES, OpsFault, encode};
use req_tree::{Bytes, ReqSet};
use std::alloc::Global;

/// The plain bytes of a set whose requirements can each be written: the parts under rising types,
/// without gaps.
pub fn encode_set(alloc: Global, set: &ReqSet) -> Result<Bytes, OpsFault>
    requires { IsEncodableSet set.now }
    ensures plain { IfOk result (λ bytes. IsPlainSet set.now bytes) }
    ensures fault { IfErr result (λ fault. (fault ≡ OpsFault.OutOfMemory) ⊎ ((fault ≡ OpsFault.TooLong) × (MOST_BYTES < length (plain_set set.now)))) }
{
    a_super_blob_has_its_total();
    let mut writer = SuperWriter::new(alloc, SET_MAGIC);
    match add_kinds(alloc, &mut writer, set) {
        Ok(()) => finish(writer),
        Err(fault) => Err(fault),
    }
}

fn finish(writer: SuperWriter) -> Result<Bytes, OpsFault>
    ensures { MatchResult result (λ bytes. (bytes ≡ written writer) × (length bytes ≤ MOST_BYTES) × IsSuperBlob writer.magic bytes × Holds writer.parts bytes) (λ fault. (fault ≡ OpsFault.OutOfMemory) ⊎ ((fault ≡ OpsFault.TooLong) × (MOST_BYTES < length (written writer)))) }
{
    match writer.finish() {
        Ok(bytes) => within(bytes),
        Err(_) => Err(OpsFault::OutOfMemory),
    }
}

fn within(bytes: Bytes) -> Result<Bytes, OpsFault>
    ensures { MatchResult result (λ same. (same ≡ bytes) × (length bytes ≤ MOST_BYTES)) (λ fault. (fault ≡ OpsFault.TooLong) × (MOST_BYTES < length bytes)) }
{
    if bytes.as_slice().len() > MOST_BYTES {
        return Err(OpsFault::TooLong);
    }
    Ok(bytes)
}

/// Adds the parts of all types to a writer that has none.
fn add_kinds(alloc: Global, writer: &mut SuperWriter, set: &ReqSet) -> Result<(), OpsFault>
    requires set { IsEncodableSet set.now }
    requires empty { writer.old ≡ record { magic = set_magic; parts = [] } }
    ensures { MatchResult result (λ _. IsDraftTo set.now 6 writer.new) (λ fault. (fault ≡ OpsFault.OutOfMemory) ⊎ ((fault ≡ OpsFault.TooLong) × ((kind : ℕ) × (kind < 6) × HasLongPart set.now kind))) }
{
    for kind in 0..6 {
        match add_kind(alloc, writer, set, kind) {
            Ok(()) => {}
            Err(fault) => return Err(fault),
        }
    }
    Ok(())
}

fn add_kind(
    alloc: Global,
    writer: &mut SuperWriter,
    set: &ReqSet,
    kind: u32,
) -> Result<(), OpsFault>
    requires set { IsEncodableSet set.now }
    requires low { kind < 6 }
    requires before { IsDraftTo set.now kind writer.old }
    ensures { MatchResult result (λ _. IsDraftTo set.now (kind + 1) writer.new) (λ fault. (fault ≡ OpsFault.OutOfMemory) ⊎ ((fault ≡ OpsFault.TooLong) × HasLongPart set.now kind)) }
{
    a_requirement_is_a_blob();
    a_part_fits_where_there_is_room();
    what_is_refused_is_too_long();
    match set.part(kind) {
        None => Ok(()),
        Some(req) => match encode(alloc, req) {
            Ok(bytes) => add_bytes(alloc, writer, kind, bytes.as_slice()),
            Err(fault) => Err(fault),
        },
    }
}

fn add_bytes(
    alloc: Global,
    writer: &mut SuperWriter,
    kind: u32,
    part: &[u8],
) -> Result<(), OpsFault>
    requires sized { IsSized part.now }
    requires fits { add_fault writer.old.parts kind part.now ≡ None }
    ensures { MatchResult result (λ _. writer.new ≡ record writer.old { parts = writer.old.parts ++ (kind, part.now) ∷ [] }) (λ fault. fault ≡ OpsFault.OutOfMemory) }
{
    match writer.add(alloc, kind, part) {
        Ok(()) => Ok(()),
        Err(_) => Err(OpsFault::OutOfMemory),
    }
}
