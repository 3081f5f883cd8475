//! Which requirements can be written.

ghost use Rattle.std.specs.Prelude.{◌≡◌, ◌≤◌, ◌↔◌, ◌-◌, ◌*◌, ◌%◌, ◌^◌, IfSome, IsTrue};
ghost use Rattle.req_tree.specs.Tree.{tree_of};
ghost use Rattle.req_tree.specs.TreeSet.{part_of, IsEncodableSet};
ghost use Rattle.req_tree.specs.Depth.{depth_of};
ghost use Rattle.req_tree.specs.Spellable.{IsSkipFalse, IsSkipNext, CanSpell, IsShallow, IsEncodable};
ghost use Rattle.req_tree.specs.Spellable as spec;

use crate::limits::MOST_DEPTH;
use crate::req::Req;
use crate::set::ReqSet;

/// Whether a requirement can be written: it is at most `MOST_DEPTH` deep, no key of a certificate's field
/// begins as that of another opcode, and what it skips is an unknown opcode with the flag that says so.
/// No deeper part of a requirement is looked at.
pub fn is_encodable(req: &Req) -> bool
    ensures { IsTrue result ↔ IsEncodable (tree_of req.now) }
{
    is_within(req, MOST_DEPTH) && can_spell(req)
}

/// Whether each requirement of a set can be written.
pub fn is_encodable_set(set: &ReqSet) -> bool
    ensures { IsTrue result ↔ IsEncodableSet set.now }
{
    for kind in 0..6 {
        if !is_encodable_part(set, kind) {
            return false;
        }
    }
    true
}

fn is_encodable_part(set: &ReqSet, kind: u32) -> bool
    ensures { IsTrue result ↔ IfSome (part_of kind set.now) IsEncodable }
{
    match set.part(kind) {
        None => true,
        Some(req) => is_encodable(req),
    }
}

/// Whether a requirement is at most so deep. Nothing deeper is looked at.
fn is_within(req: &Req, depth: u32) -> bool
    ensures { IsTrue result ↔ (depth_of (tree_of req.now) ≤ depth) }
{
    if depth == 0 {
        return false;
    }
    match req {
        Req::Both { left, right } => is_within(left, depth - 1) && is_within(right, depth - 1),
        Req::Either { left, right } => is_within(left, depth - 1) && is_within(right, depth - 1),
        Req::Negate { inner } => is_within(inner, depth - 1),
        Req::SkipNext {
            op: _,
            skipped: _,
            inner,
        } => is_within(inner, depth - 1),
        _ => true,
    }
}

fn can_spell(req: &Req) -> bool
    requires { IsShallow (tree_of req.now) }
    ensures { IsTrue result ↔ CanSpell (tree_of req.now) }
{
    match req {
        Req::Both { left, right } => can_spell(left) && can_spell(right),
        Req::Either { left, right } => can_spell(left) && can_spell(right),
        Req::Negate { inner } => can_spell(inner),
        Req::CertField {
            slot: _,
            key,
            test: _,
        } => !is_reserved(key.as_slice()),
        Req::SkipFalse { op, skipped: _ } => is_skip_false(*op),
        Req::SkipNext {
            op,
            skipped: _,
            inner,
        } => is_skip_next(*op) && can_spell(inner),
        _ => true,
    }
}

/// Whether a key begins as those that text gives to other opcodes.
pub fn is_reserved(key: &[u8]) -> bool
    ensures { result ≡ spec.is_reserved key.now }
{
    key.starts_with(b"field.") || key.starts_with(b"policy.") || key.starts_with(b"timestamp.")
}

fn is_skip_false(op: u32) -> bool
    ensures { IsTrue result ↔ IsSkipFalse op }
{
    24 <= op % 0x100_0000 && 0x8000_0000 <= op
}

fn is_skip_next(op: u32) -> bool
    ensures { IsTrue result ↔ IsSkipNext op }
{
    24 <= op % 0x100_0000 && 0x4000_0000 <= op && op < 0x8000_0000
}
