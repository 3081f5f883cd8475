//! Sets that are written and read again, and the other way round.

ghost use Rattle.std.specs.Prelude.{◌≡◌, ◌<◌, ◌↔◌, ◌⊎◌, length, IfOk, IfErr};
ghost use Rattle.req_tree.specs.TreeSet.{TreeSet, IsEncodableSet};
ghost use Rattle.req_blob.specs.declared.limits.TheConstants.{MOST_BYTES};
ghost use Rattle.req_ops.specs.Sets.{IsSetSpelling, SetFails};
ghost use Rattle.req_ops.specs.SetEncoding.{IsPlainSet, plain_set};

use crate::decoding::decode_set;
use crate::encoding::encode_set;
use crate::fault::SetFault;
use crate::laws::bytes_spell_one_set;
use cs_blob::laws::a_super_blob_has_its_total;
use req_blob::OpsFault;
use req_blob::laws::spellings_are_as_long_as_the_plain_one;
use req_tree::{Bytes, ReqSet};
use std::alloc::Global;

/// A set that is written and read again is the same one.
pub fn reread_set(alloc: Global, set: &ReqSet) -> Result<ReqSet, SetFault>
    requires { IsEncodableSet set.now }
    ensures same { IfOk result (λ again. again ≡ set.now) }
    ensures fault { IfErr result (λ fault. (fault ≡ SetFault.OutOfMemory) ⊎ ((fault ≡ SetFault.TooLong) × (MOST_BYTES < length (plain_set set.now)))) }
{
    match encode_set(alloc, set) {
        Ok(bytes) => decode_set(alloc, bytes.as_slice()),
        Err(fault) => Err(unwritten(fault)),
    }
}

/// Bytes that are read as a set and written again are the same exactly where they are plain.
pub fn respell_set(alloc: Global, bytes: &[u8]) -> Result<Bytes, SetFault>
    ensures spells { IfOk result (λ again. (set : TreeSet) × IsSetSpelling set bytes.now × IsPlainSet set again) }
    ensures same { IfOk result (λ again. (again ≡ bytes.now) ↔ ((set : TreeSet) × IsPlainSet set bytes.now)) }
    // What is read isn't too long to be written.
    ensures fault { IfErr result (λ fault. SetFails bytes.now fault) }
{
    bytes_spell_one_set();
    spellings_are_as_long_as_the_plain_one();
    a_super_blob_has_its_total();
    match decode_set(alloc, bytes) {
        Ok(set) => write_again(alloc, set),
        Err(fault) => Err(fault),
    }
}

fn write_again(alloc: Global, set: ReqSet) -> Result<Bytes, SetFault>
    requires { IsEncodableSet set }
    ensures plain { IfOk result (λ bytes. IsPlainSet set bytes) }
    ensures fault { IfErr result (λ fault. (fault ≡ SetFault.OutOfMemory) ⊎ ((fault ≡ SetFault.TooLong) × (MOST_BYTES < length (plain_set set)))) }
{
    let written = encode_set(alloc, &set);
    drop(set);
    match written {
        Ok(bytes) => Ok(bytes),
        Err(fault) => Err(unwritten(fault)),
    }
}

/// Why a set isn't written, as a fault of sets.
fn unwritten(fault: OpsFault) -> SetFault
    requires { (fault ≡ OpsFault.OutOfMemory) ⊎ (fault ≡ OpsFault.TooLong) }
    ensures memory { (fault ≡ OpsFault.OutOfMemory) ↔ (result ≡ SetFault.OutOfMemory) }
    ensures long { (fault ≡ OpsFault.TooLong) ↔ (result ≡ SetFault.TooLong) }
{
    match fault {
        OpsFault::TooLong => SetFault::TooLong,
        _ => SetFault::OutOfMemory,
    }
}
