//! Sets of requirements read whole.

ghost use Rattle.std.specs.Prelude.{◌≡◌, ◌+◌, ◌<◌, ◌≤◌, ◌++◌, [], length, IfOk, IfErr, Ok, MatchResult};
ghost use Rattle.req_tree.specs.Tree.{tree_of};
ghost use Rattle.req_tree.specs.TreeSet.{TreeSet, IsEncodableSet, IsSetKind, no_parts};
ghost use Rattle.cs_blob.specs.SuperBlobs.{IsSuperBlob, count_of};
ghost use Rattle.cs_blob.specs.SuperBlobs as blobs;
ghost use Rattle.req_blob.specs.declared.limits.TheConstants.{MOST_BYTES};
ghost use Rattle.req_blob.specs.Decoding.{decoded};
ghost use Rattle.req_ops.specs.Sets as spec;
ghost use Rattle.req_ops.specs.Sets.{IsSetSpelling, SetFails, PartFails, StopsAt, set_magic};
ghost use Rattle.req_ops.specs.Steps.{HasRead};

use crate::fault::SetFault;
use cs_blob::SuperBlob;
use cs_blob::laws::{bytes_begin_with_one_blob, super_blobs_have_no_fault};
use req_blob::laws::{bytes_are_read_where_they_spell, what_is_spelt_can_be_written};
use req_blob::{MOST_BYTES, OpsFault, decode};
use req_tree::{Req, ReqSet};
use std::alloc::Global;

/// The magic of a set of requirements.
pub(crate) const SET_MAGIC: u32 = 0xfade_0c01;

/// The set that the bytes spell, all of the bytes. The checks go from the front: the super-blob with its
/// index, its size, that nothing is left, and then each part in the order of the index.
pub fn decode_set(alloc: Global, bytes: &[u8]) -> Result<ReqSet, SetFault>
    ensures found { IfOk result (λ set. IsSetSpelling set bytes.now) }
    ensures only { (set : TreeSet) → IsSetSpelling set bytes.now → MatchResult result (λ read. read ≡ set) (λ fault. fault ≡ SetFault.OutOfMemory) }
    // What is read can be written again.
    ensures encodable { IfOk result (λ set. IsEncodableSet set) }
    ensures exact { IfErr result (λ fault. SetFails bytes.now fault) }
{
    bytes_begin_with_one_blob();
    super_blobs_have_no_fault();
    bytes_are_read_where_they_spell();
    what_is_spelt_can_be_written();
    match SuperBlob::read(bytes, SET_MAGIC) {
        Ok(blob) => decode_whole(alloc, &blob),
        Err(fault) => Err(SetFault::Blob(fault)),
    }
}

fn decode_whole(alloc: Global, blob: &SuperBlob<'_>) -> Result<ReqSet, SetFault>
    requires { IsSuperBlob set_magic blob.now.whole }
    ensures { MatchResult result (λ set. (blob.now.rest ≡ []) × (length blob.now.whole ≤ MOST_BYTES) × HasRead blob.now.whole (count_of blob.now.whole) set) (λ fault. SetFails (blob.now.whole ++ blob.now.rest) fault) }
{
    let size = blob.whole().len();
    if size > MOST_BYTES {
        return Err(SetFault::TooLong);
    }
    if !blob.rest().is_empty() {
        return Err(SetFault::Trailing { at: size as u32 });
    }
    decode_parts(alloc, blob)
}

fn decode_parts(alloc: Global, blob: &SuperBlob<'_>) -> Result<ReqSet, SetFault>
    requires { IsSuperBlob set_magic blob.now.whole }
    ensures { MatchResult result (λ set. HasRead blob.now.whole (count_of blob.now.whole) set) (λ fault. StopsAt blob.now.whole fault) }
{
    let mut set = ReqSet::new();
    let added = add_parts(alloc, blob, &mut set);
    added.and(Ok(set))
}

/// Adds the parts to a set that has none.
fn add_parts(alloc: Global, blob: &SuperBlob<'_>, set: &mut ReqSet) -> Result<(), SetFault>
    requires whole { IsSuperBlob set_magic blob.now.whole }
    requires empty { set.old ≡ no_parts }
    ensures { MatchResult result (λ _. HasRead blob.now.whole (count_of blob.now.whole) set.new) (λ fault. StopsAt blob.now.whole fault) }
{
    for index in 0..blob.count() {
        match add_part(alloc, blob, index, set) {
            Ok(()) => {}
            Err(fault) => return Err(fault),
        }
    }
    Ok(())
}

fn add_part(
    alloc: Global,
    blob: &SuperBlob<'_>,
    index: u32,
    set: &mut ReqSet,
) -> Result<(), SetFault>
    requires whole { IsSuperBlob set_magic blob.now.whole }
    requires among { index < count_of blob.now.whole }
    requires before { HasRead blob.now.whole index set.old }
    ensures { MatchResult result (λ _. HasRead blob.now.whole (index + 1) set.new) (λ fault. PartFails blob.now.whole index fault) }
{
    match part_at(alloc, blob, index) {
        Ok((kind, req)) => {
            set.put(kind, req);
            Ok(())
        }
        Err(fault) => Err(fault),
    }
}

/// The type of an entry, and the requirement that is its part.
fn part_at(alloc: Global, blob: &SuperBlob<'_>, index: u32) -> Result<(u32, Req), SetFault>
    requires whole { IsSuperBlob set_magic blob.now.whole }
    requires among { index < count_of blob.now.whole }
    ensures { MatchResult result (λ x. (x.0 ≡ blobs.kind_at blob.now.whole index) × IsSetKind x.0 × (decoded (blobs.part_at blob.now.whole index) ≡ Ok (tree_of x.1))) (λ fault. PartFails blob.now.whole index fault) }
{
    let kind = blob.kind_at(index);
    if kind < 1 || 5 < kind {
        return Err(SetFault::BadSetKind { index });
    }
    match blob.part(kind) {
        Some(part) => match decode(alloc, part) {
            Ok(req) => Ok((kind, req)),
            Err(fault) => Err(part_fault(index, fault)),
        },
        None => unreachable!(),
    }
}

/// What a part that isn't read makes of the whole.
fn part_fault(index: u32, fault: OpsFault) -> SetFault
    ensures { result ≡ spec.part_fault index fault }
{
    match fault {
        OpsFault::OutOfMemory => SetFault::OutOfMemory,
        fault => SetFault::Part { index, fault },
    }
}
