//! Bytes that are read and printed.

ghost use Rattle.std.specs.Prelude.{◌≡◌, ◌≢◌, IfOk, IfErr, Err};
ghost use Rattle.req_tree.specs.Tree.{Tree};
ghost use Rattle.req_tree.specs.TreeSet.{TreeSet};
ghost use Rattle.req_blob.specs.Decoding.{decoded};
ghost use Rattle.req_blob.specs.Spelling.{IsSpelling};
ghost use Rattle.req_blob.specs.declared.fault.OpsFault.TheVariants as ops;
ghost use Rattle.req_ops.specs.Sets.{IsSetSpelling, SetFails};
ghost use Rattle.req_language.specs.Steps.{IsTextOf, IsSetTextOf};

use req_blob::{OpsFault, decode};
use req_dumper::{dump, dump_set};
use req_ops::{SetFault, decode_set};
use req_tree::Bytes;
use std::alloc::Global;

/// The text of the requirement that bytes are.
pub fn text_of(alloc: Global, bytes: &[u8]) -> Result<Bytes, OpsFault>
    ensures text { IfOk result (IsTextOf bytes.now) }
    // The bytes are no requirement, and this is their first fault, unless memory ran out.
    ensures fault { IfErr result (λ fault. fault ≢ ops.OutOfMemory → decoded bytes.now ≡ Err fault) }
    // A requirement's bytes have their text, unless memory ran out.
    ensures only { (tree : Tree) → IsSpelling tree bytes.now → IfErr result (λ fault. fault ≡ ops.OutOfMemory) }
{
    match decode(alloc, bytes) {
        Ok(req) => {
            let text = dump(alloc, &req);
            drop(req);
            match text {
                Ok(text) => Ok(text),
                Err(_) => Err(OpsFault::OutOfMemory),
            }
        }
        Err(fault) => Err(fault),
    }
}

/// The text of the set that bytes are.
pub fn text_of_set(alloc: Global, bytes: &[u8]) -> Result<Bytes, SetFault>
    ensures text { IfOk result (IsSetTextOf bytes.now) }
    // The bytes are no set, and this is their first fault, unless memory ran out.
    ensures fault { IfErr result (SetFails bytes.now) }
    // A set's bytes have their text, unless memory ran out.
    ensures only { (set : TreeSet) → IsSetSpelling set bytes.now → IfErr result (λ fault. fault ≡ SetFault.OutOfMemory) }
{
    match decode_set(alloc, bytes) {
        Ok(set) => {
            let text = dump_set(alloc, &set);
            drop(set);
            match text {
                Ok(text) => Ok(text),
                Err(_) => Err(SetFault::OutOfMemory),
            }
        }
        Err(fault) => Err(fault),
    }
}
