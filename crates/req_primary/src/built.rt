//! What has been built of a requirement: never a tree deeper than a requirement may be.

ghost use Rattle.std.specs.Prelude.{◌≡◌, IfOk};
ghost use Rattle.req_tree.specs.Tree.{tree_of};
ghost use Rattle.req_tree.specs.Tree as t;
ghost use Rattle.req_primary.specs.Keys.{outcome_of, joined};
ghost use Rattle.req_primary.specs.Keys as spec;

use req_tree::{MOST_DEPTH, Req};
use std::alloc::{AllocError, Global};

/// A requirement with its depth. Where it would be too deep, or a key in it is bad, the terminals are read on
/// and nothing is kept.
#[derive(Drop)]
pub enum Built {
    Fine { tree: Box<Req>, depth: u32 },
    /// It is deeper than a requirement may be, and no key in it is bad.
    Deep,
    /// A key of a certificate's test stands for no test.
    BadKey,
}

/// Two requirements that become one.
enum Pair {
    Fine {
        left: Box<Req>,
        right: Box<Req>,
        depth: u32,
    },
    Deep,
    BadKey,
}

/// A requirement without subtrees.
pub fn leaf(alloc: Global, req: Req) -> Result<Built, AllocError>
    ensures { IfOk result (λ built. outcome_of built ≡ spec.fine (tree_of req) 1) }
{
    let tree = Box::new(alloc, req)?;
    Ok(Built::Fine { tree, depth: 1 })
}

/// Both hold.
pub fn both_of(alloc: Global, left: Built, right: Built) -> Result<Built, AllocError>
    ensures { IfOk result (λ built. outcome_of built ≡ joined t.both (outcome_of left) (outcome_of right)) }
{
    match pair_of(left, right) {
        Pair::Fine { left, right, depth } => {
            let tree = Box::new(alloc, Req::Both { left, right })?;
            Ok(Built::Fine { tree, depth })
        }
        Pair::Deep => Ok(Built::Deep),
        Pair::BadKey => Ok(Built::BadKey),
    }
}

/// One of them holds.
pub fn either_of(alloc: Global, left: Built, right: Built) -> Result<Built, AllocError>
    ensures { IfOk result (λ built. outcome_of built ≡ joined t.either (outcome_of left) (outcome_of right)) }
{
    match pair_of(left, right) {
        Pair::Fine { left, right, depth } => {
            let tree = Box::new(alloc, Req::Either { left, right })?;
            Ok(Built::Fine { tree, depth })
        }
        Pair::Deep => Ok(Built::Deep),
        Pair::BadKey => Ok(Built::BadKey),
    }
}

fn pair_of(left: Built, right: Built) -> Pair
    ensures { (make : t.Tree → t.Tree → t.Tree) → spec.pair_outcome make result ≡ joined make (outcome_of left) (outcome_of right) }
{
    match left {
        Built::Fine { tree, depth } => pair_with(tree, depth, right),
        Built::Deep => pair_deep(right),
        Built::BadKey => {
            drop(right);
            Pair::BadKey
        }
    }
}

fn pair_with(left: Box<Req>, depth: u32, right: Built) -> Pair
    ensures { (make : t.Tree → t.Tree → t.Tree) → spec.pair_outcome make result ≡ joined make (spec.fine (tree_of left.value) depth) (outcome_of right) }
{
    match right {
        Built::Fine { tree, depth: other } => pair_within(
            left,
            tree,
            depth.max(other).saturating_add(1),
        ),
        Built::Deep => {
            drop(left);
            Pair::Deep
        }
        Built::BadKey => {
            drop(left);
            Pair::BadKey
        }
    }
}

fn pair_within(left: Box<Req>, right: Box<Req>, depth: u32) -> Pair
    ensures { (make : t.Tree → t.Tree → t.Tree) → spec.pair_outcome make result ≡ spec.limited (make (tree_of left.value) (tree_of right.value)) depth }
{
    if depth > MOST_DEPTH {
        drop(left);
        drop(right);
        Pair::Deep
    } else {
        Pair::Fine { left, right, depth }
    }
}

fn pair_deep(right: Built) -> Pair
    ensures { (make : t.Tree → t.Tree → t.Tree) → spec.pair_outcome make result ≡ joined make spec.deep (outcome_of right) }
{
    match right {
        Built::Fine { tree, depth: _ } => {
            drop(tree);
            Pair::Deep
        }
        Built::Deep => Pair::Deep,
        Built::BadKey => Pair::BadKey,
    }
}

/// It doesn't hold.
fn negated(alloc: Global, inner: Built) -> Result<Built, AllocError>
    ensures { IfOk result (λ built. outcome_of built ≡ spec.negated (outcome_of inner)) }
{
    match inner {
        Built::Fine { tree, depth } => negated_tree(alloc, tree, depth.saturating_add(1)),
        Built::Deep => Ok(Built::Deep),
        Built::BadKey => Ok(Built::BadKey),
    }
}

fn negated_tree(alloc: Global, inner: Box<Req>, depth: u32) -> Result<Built, AllocError>
    ensures { IfOk result (λ built. outcome_of built ≡ spec.limited (t.negate (tree_of inner.value)) depth) }
{
    if depth > MOST_DEPTH {
        drop(inner);
        return Ok(Built::Deep);
    }
    let tree = Box::new(alloc, Req::Negate { inner })?;
    Ok(Built::Fine { tree, depth })
}

/// So often negated.
pub fn negated_times(alloc: Global, count: usize, inner: Built) -> Result<Built, AllocError>
    ensures { IfOk result (λ built. outcome_of built ≡ spec.negated_times count (outcome_of inner)) }
{
    let mut built = inner;
    for _ in 0..count {
        built = negated(alloc, built)?;
    }
    Ok(built)
}
