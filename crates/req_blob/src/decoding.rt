//! Requirement blobs read whole.

ghost use Rattle.std.specs.Prelude.{◌≡◌, ◌≤◌, length, IfOk, Ok};
ghost use Rattle.req_tree.specs.Tree.{Tree, tree_of};
ghost use Rattle.req_blob.specs.Spelling.{IsSpelling};
ghost use Rattle.req_tree.specs.Spellable.{IsEncodable};
ghost use Rattle.req_blob.specs.Reading.{Gives};
ghost use Rattle.req_blob.specs.Decoding as spec;

use crate::fault::OpsFault;
use crate::field::{place, word_at};
use crate::laws::bytes_are_read_where_they_spell;
use crate::limits::MOST_BYTES;
use crate::tree::req_at;
use cs_blob::Blob;
use cs_blob::laws::a_blob_is_read_where_it_is;
use req_tree::{MOST_DEPTH, Req};
use std::alloc::Global;

/// The magic of a requirement blob.
pub(crate) const MAGIC: u32 = 0xfade_0c00;

/// The requirement that the bytes spell, all of the bytes. The checks go from the front: the blob's
/// header and size, its kind and its expression, and last that nothing is left.
pub fn decode(alloc: Global, bytes: &[u8]) -> Result<Req, OpsFault>
    // What is read is spelled so.
    ensures found { IfOk result (λ req. IsSpelling (tree_of req) bytes.now) }
    // What is spelled so is read, unless there is no memory.
    ensures only { (tree : Tree) → IsSpelling tree bytes.now → Gives tree_of result (Ok tree) }
    // What is read can be written again.
    ensures encodable { IfOk result (λ req. IsEncodable (tree_of req)) }
    // Which fault it is, and where.
    ensures exact { Gives tree_of result (spec.decoded bytes.now) }
{
    bytes_are_read_where_they_spell();
    decode_first(alloc, bytes)
}

#[tactic(auto, unfolding(crate::specs::Decoding::decoded))]
fn decode_first(alloc: Global, bytes: &[u8]) -> Result<Req, OpsFault>
    ensures { Gives tree_of result (spec.decoded bytes.now) }
{
    let (whole, rest) = blob_at(bytes)?;
    decode_whole(alloc, whole, rest)
}

#[tactic(auto, unfolding(crate::specs::Decoding::blob_at))]
fn blob_at(bytes: &[u8]) -> Result<(&[u8], &[u8]), OpsFault>
    ensures reads { Gives (λ x. (x.0.now, x.1.now)) result (spec.blob_at bytes.now) }
    ensures long { IfOk result (λ x. 8 ≤ length x.0.now) }
{
    a_blob_is_read_where_it_is();
    match Blob::read(bytes, MAGIC) {
        Ok(blob) => Ok((blob.whole(), blob.rest())),
        Err(fault) => Err(OpsFault::Blob(fault)),
    }
}

#[tactic(auto, unfolding(crate::specs::Decoding::whole_of))]
fn decode_whole(alloc: Global, whole: &[u8], rest: &[u8]) -> Result<Req, OpsFault>
    requires { 8 ≤ length whole.now }
    ensures { Gives tree_of result (spec.whole_of whole.now rest.now) }
{
    if whole.len() > MOST_BYTES {
        return Err(OpsFault::TooLong);
    }
    let size = whole.len() as u32;
    let (req, left) = body_at(alloc, size, whole.split_at(8).1)?;
    ended(size, req, left, rest)
}

#[tactic(auto, unfolding(crate::specs::Decoding::body_at))]
fn body_at(alloc: Global, size: u32, body: &[u8]) -> Result<(Req, &[u8]), OpsFault>
    ensures { Gives (λ x. (tree_of x.0, x.1.now)) result (spec.body_at size body.now) }
{
    let (kind, rest) = word_at(size, body)?;
    if kind != 1 {
        return Err(OpsFault::BadKind);
    }
    req_at(alloc, size, MOST_DEPTH, rest)
}

/// The requirement, where no bytes are left behind its expression nor behind its blob.
fn ended(size: u32, req: Req, left: &[u8], rest: &[u8]) -> Result<Req, OpsFault>
    ensures { Gives tree_of result (spec.ended size (tree_of req, left.now) rest.now) }
{
    match check_end(size, left, rest) {
        Ok(()) => Ok(req),
        Err(fault) => {
            drop(req);
            Err(fault)
        }
    }
}

/// Whether no bytes are left behind an expression nor behind its blob, whatever it says.
#[tactic(auto, unfolding(crate::specs::Decoding::ended))]
fn check_end(size: u32, left: &[u8], rest: &[u8]) -> Result<(), OpsFault>
    ensures { (tree : Tree) → Gives (λ _. tree) result (spec.ended size (tree, left.now) rest.now) }
{
    if !left.is_empty() {
        return Err(OpsFault::Trailing {
            at: place(size, left),
        });
    }
    if !rest.is_empty() {
        return Err(OpsFault::Trailing { at: size });
    }
    Ok(())
}
