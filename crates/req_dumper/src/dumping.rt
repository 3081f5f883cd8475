//! A requirement as one text, and a set as one.

ghost use Rattle.std.specs.Prelude.{◌≡◌, ◌++◌, codes, option_map, OnOk, IfOk};
ghost use Rattle.std.specs.Option.{option_copied};
ghost use Rattle.req_tree.specs.Tree.{tree_of};
ghost use Rattle.dumped_text.specs.Dumped.{alone, dumped, dumped_set, part_text};
ghost use Rattle.dumped_text.specs.Sayable.{IsKept};
ghost use Rattle.dumped_text.specs.Sets.{IsKeptPart, IsKeptSet};

use crate::place::Place;
use crate::tree::put_req;
use crate::writing::put;
use line_text::Bytes;
use req_tree::{Req, ReqSet};
use std::alloc::{AllocError, Global};

/// How many bytes of a text find room at first.
const USUAL_BYTES: usize = 512;

/// The text of a requirement, which `parse` of `req_parser` reads as its normal form.
pub fn dump(alloc: Global, req: &Req) -> Result<Bytes, AllocError>
    ensures text { IfOk result (λ text. text ≡ dumped (tree_of req.now)) }
    ensures kept { OnOk result (IsKept (tree_of req.now)) }
{
    let mut out = Vec::with_capacity(alloc, USUAL_BYTES)?;
    put_req(&mut out, Place::Alone, req)?;
    Ok(Bytes::from_vec(out))
}

/// The text of a set: a line for each of its parts, by rising type.
pub fn dump_set(alloc: Global, set: &ReqSet) -> Result<Bytes, AllocError>
    ensures text { IfOk result (λ text. text ≡ dumped_set set.now) }
    ensures kept { OnOk result (IsKeptSet set.now) }
{
    let mut out = Vec::with_capacity(alloc, USUAL_BYTES)?;
    put_part(&mut out, b"host", set.part(1))?;
    put_part(&mut out, b"guest", set.part(2))?;
    put_part(&mut out, b"designated", set.part(3))?;
    put_part(&mut out, b"library", set.part(4))?;
    put_part(&mut out, b"plugin", set.part(5))?;
    Ok(Bytes::from_vec(out))
}

/// The line of a part, where it is there.
fn put_part(out: &mut Vec<u8>, kind: &[u8], part: Option<&Req>) -> Result<(), AllocError>
    ensures text { OnOk result (out.new.items ≡ out.old.items ++ part_text kind.now (option_map tree_of (option_copied part.entry))) }
    ensures kept { OnOk result (IsKeptPart (option_map tree_of (option_copied part.entry))) }
{
    match part {
        None => Ok(()),
        Some(req) => {
            put(out, kind)?;
            put(out, b" => ")?;
            put_req(out, Place::Alone, req)?;
            put(out, b"\n")
        }
    }
}
