//! The shape of a requirement: how deep it nests, and whether a text can say it.

ghost use Rattle.std.specs.Prelude.{◌≡◌, ◌↔◌, ◌-◌, ◌^◌, min, IsTrue};
ghost use Rattle.req_tree.specs.Tree.{tree_of};
ghost use Rattle.req_tree.specs.Depth.{depth_of};
ghost use Rattle.req_tree.specs.Normal.{IsSpoken};
ghost use Rattle.req_tree.specs.Normal as spec;

use crate::req::Req;

/// A requirement without subtrees has depth 1; one deeper than `usize` counts has its greatest value.
/// The call goes as deep as the tree. What this library reads is at most `MOST_DEPTH` deep.
pub fn depth(req: &Req) -> usize
    ensures { result ≡ min (depth_of (tree_of req.now)) (2 ^ 64 - 1) }
{
    match req {
        Req::Both { left, right } => depth(left).max(depth(right)).saturating_add(1),
        Req::Either { left, right } => depth(left).max(depth(right)).saturating_add(1),
        Req::Negate { inner } => depth(inner).saturating_add(1),
        Req::SkipNext {
            op: _,
            skipped: _,
            inner,
        } => depth(inner).saturating_add(1),
        _ => 1,
    }
}

/// Whether chains nest to the left alone, and no `LegacyInfo` and nothing skipped stands in the tree.
/// The call goes as deep as the tree.
pub fn is_spoken(req: &Req) -> bool
    ensures { IsTrue result ↔ IsSpoken (tree_of req.now) }
{
    match req {
        Req::Both { left, right } => is_spoken(left) && is_spoken(right) && !is_both(right),
        Req::Either { left, right } => is_spoken(left) && is_spoken(right) && !is_either(right),
        Req::Negate { inner } => is_spoken(inner),
        Req::LegacyInfo { key: _, value: _ } => false,
        Req::SkipFalse { op: _, skipped: _ } => false,
        Req::SkipNext {
            op: _,
            skipped: _,
            inner: _,
        } => false,
        _ => true,
    }
}

fn is_both(req: &Req) -> bool
    ensures { result ≡ spec.is_both (tree_of req.now) }
{
    matches!(req, Req::Both { left: _, right: _ })
}

fn is_either(req: &Req) -> bool
    ensures { result ≡ spec.is_either (tree_of req.now) }
{
    matches!(req, Req::Either { left: _, right: _ })
}
