//! Bytes that are read and written again, and the other way round.

ghost use Rattle.std.specs.Prelude.{◌≡◌, ◌≢◌, ◌<◌, ◌↔◌, ◌⊎◌, length, IfOk, IfErr, Err};
ghost use Rattle.req_tree.specs.Tree.{Tree, tree_of};
ghost use Rattle.req_blob.specs.Spelling.{IsSpelling, IsPlain, plain_blob};
ghost use Rattle.req_blob.specs.Decoding.{decoded};
ghost use Rattle.req_tree.specs.Spellable.{IsEncodable};
ghost use Rattle.req_blob.specs.declared.limits.TheConstants.{MOST_BYTES};

use crate::decoding::decode;
use crate::encoding::encode;
use crate::fault::OpsFault;
use crate::laws::a_blob_spells_one_tree;
use req_tree::{Bytes, Req};
use std::alloc::Global;

/// A requirement that is written and read again is the same one.
pub fn reread(alloc: Global, req: &Req) -> Result<Req, OpsFault>
    requires { IsEncodable (tree_of req.now) }
    ensures same { IfOk result (λ again. tree_of again ≡ tree_of req.now) }
    ensures fault { IfErr result (λ fault. (fault ≡ OpsFault.OutOfMemory) ⊎ ((fault ≡ OpsFault.TooLong) × (MOST_BYTES < length (plain_blob (tree_of req.now))))) }
{
    match encode(alloc, req) {
        Ok(bytes) => decode(alloc, bytes.as_slice()),
        Err(fault) => Err(fault),
    }
}

/// Bytes that are read and written again are the same exactly where they are plain.
pub fn respell(alloc: Global, bytes: &[u8]) -> Result<Bytes, OpsFault>
    ensures spells { IfOk result (λ again. (tree : Tree) × IsSpelling tree bytes.now × IsPlain tree again) }
    ensures same { IfOk result (λ again. (again ≡ bytes.now) ↔ ((tree : Tree) × IsPlain tree bytes.now)) }
    // What is read isn't too long to be written.
    ensures fault { IfErr result (λ fault. fault ≢ OpsFault.OutOfMemory → decoded bytes.now ≡ Err fault) }
{
    a_blob_spells_one_tree();
    match decode(alloc, bytes) {
        Ok(req) => {
            let again = encode(alloc, &req);
            drop(req);
            again
        }
        Err(fault) => Err(fault),
    }
}
