//! Expressions with subexpressions.

ghost use Rattle.std.specs.Prelude.{◌≡◌};
ghost use Rattle.req_tree.specs.Tree.{tree_of};
ghost use Rattle.req_blob.specs.Reading.{Gives};
ghost use Rattle.req_blob.specs.Reading as spec;

use crate::fault::OpsFault;
use crate::field::{place, unpadded_at, word_at};
use crate::leaf::{leaf_at, skip_false_at};
use crate::opcode::{Opcode, opcode_of};
use req_tree::Req;
use std::alloc::Global;

/// An expression of at most this depth, at the front of the rest of a blob of this size.
#[cycle(req)]
#[tactic(auto, unfolding(crate::specs::Reading::req_at))]
pub(crate) fn req_at(
    alloc: Global,
    size: u32,
    depth: u32,
    bytes: &[u8],
) -> Result<(Req, &[u8]), OpsFault>
    ensures { Gives (λ x. (tree_of x.0, x.1.now)) result (spec.req_at size depth bytes.now) }
{
    let at = place(size, bytes);
    if depth == 0 {
        return Err(OpsFault::TooDeep { at });
    }
    let (op, rest) = word_at(size, bytes)?;
    match opcode_of(op) {
        Opcode::Leaf(leaf) => leaf_at(alloc, size, leaf, rest),
        Opcode::Both => both_at(alloc, size, depth - 1, rest),
        Opcode::Either => either_at(alloc, size, depth - 1, rest),
        Opcode::Negate => negate_at(alloc, size, depth - 1, rest),
        Opcode::OutOfScope => Err(OpsFault::OutOfScopeOp { at }),
        Opcode::SkipFalse => skip_false_at(alloc, size, op, rest),
        Opcode::SkipNext => skip_next_at(alloc, size, depth - 1, op, rest),
        Opcode::Unknown => Err(OpsFault::UnknownOp { at, op }),
    }
}

#[cycle(req)]
#[tactic(auto, unfolding(crate::specs::Reading::both_at))]
fn both_at(alloc: Global, size: u32, depth: u32, bytes: &[u8]) -> Result<(Req, &[u8]), OpsFault>
    ensures { Gives (λ x. (tree_of x.0, x.1.now)) result (spec.both_at (spec.req_at size depth) bytes.now) }
{
    let (left, rest) = boxed_at(alloc, size, depth, bytes)?;
    let (right, rest) = boxed_at(alloc, size, depth, rest)?;
    Ok((Req::Both { left, right }, rest))
}

#[cycle(req)]
#[tactic(auto, unfolding(crate::specs::Reading::either_at))]
fn either_at(alloc: Global, size: u32, depth: u32, bytes: &[u8]) -> Result<(Req, &[u8]), OpsFault>
    ensures { Gives (λ x. (tree_of x.0, x.1.now)) result (spec.either_at (spec.req_at size depth) bytes.now) }
{
    let (left, rest) = boxed_at(alloc, size, depth, bytes)?;
    let (right, rest) = boxed_at(alloc, size, depth, rest)?;
    Ok((Req::Either { left, right }, rest))
}

#[cycle(req)]
#[tactic(auto, unfolding(crate::specs::Reading::negate_at))]
fn negate_at(alloc: Global, size: u32, depth: u32, bytes: &[u8]) -> Result<(Req, &[u8]), OpsFault>
    ensures { Gives (λ x. (tree_of x.0, x.1.now)) result (spec.negate_at (spec.req_at size depth) bytes.now) }
{
    let (inner, rest) = boxed_at(alloc, size, depth, bytes)?;
    Ok((Req::Negate { inner }, rest))
}

/// An unknown opcode that is passed over, and the expression behind it.
#[cycle(req)]
#[tactic(auto, unfolding(crate::specs::Reading::skip_next_at))]
fn skip_next_at(
    alloc: Global,
    size: u32,
    depth: u32,
    op: u32,
    bytes: &[u8],
) -> Result<(Req, &[u8]), OpsFault>
    ensures { Gives (λ x. (tree_of x.0, x.1.now)) result (spec.skip_next_at (spec.req_at size depth) size op bytes.now) }
{
    let (skipped, rest) = unpadded_at(alloc, size, bytes)?;
    let (inner, rest) = boxed_at(alloc, size, depth, rest)?;
    Ok((Req::SkipNext { op, skipped, inner }, rest))
}

/// The same in a box.
#[cycle(req)]
fn boxed_at(
    alloc: Global,
    size: u32,
    depth: u32,
    bytes: &[u8],
) -> Result<(Box<Req>, &[u8]), OpsFault>
    ensures { Gives (λ x. (tree_of x.0.value, x.1.now)) result (spec.req_at size depth bytes.now) }
{
    let (req, rest) = req_at(alloc, size, depth, bytes)?;
    let req = Box::new(alloc, req)?;
    Ok((req, rest))
}
