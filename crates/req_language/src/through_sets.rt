//! A set's bytes that are read, printed, read as a text and written again.

ghost use Rattle.std.specs.Prelude.{◌≤◌, length, IfOk, IfErr};
ghost use Rattle.req_tree.specs.TreeSet.{TreeSet};
ghost use Rattle.req_grammar.specs.declared.limits.TheConstants.{MOST_TEXT_BYTES};
ghost use Rattle.req_grammar.specs.Readings.{IsSetText};
ghost use Rattle.req_ops.specs.Sets.{IsSetSpelling};
ghost use Rattle.dumped_text.specs.Dumped.{dumped_set};
ghost use Rattle.dumped_text.specs.Sets.{normal_set};
ghost use Rattle.req_language.specs.Promise.{SetComesBack};
ghost use Rattle.req_language.specs.ThroughSets.{IsSetBlobOf, IsShallowSet, IsSetMemory, IsSetTextFault, IsThroughSetFault};

use crate::laws::{
    a_printed_set_says_one_normal_form, normal_sets_come_back, texts_have_short_blobs,
};
use crate::printing::text_of_set;
use dumped_text::laws::texts_are_normal_forms;
use req_ops::laws::bytes_spell_one_set;
use req_ops::{OpsFault, SetFault, encode_set};
use req_parser::{TextFault, parse_set};
use req_tree::Bytes;
use std::alloc::Global;

/// Why a set's bytes don't come back.
#[derive(Clone, Copy, Drop)]
pub enum SetLanguageFault {
    /// The bytes are no set.
    Bytes(SetFault),
    /// The text is too long, or a tree of the normal form too deep.
    Text(TextFault),
    /// There was no memory for the bytes of the normal form.
    Blob(OpsFault),
}

/// The plain bytes of the normal form of the set that bytes are: what compiling its printed text gives.
pub fn through_text_set(alloc: Global, bytes: &[u8]) -> Result<Bytes, SetLanguageFault>
    ensures back { IfOk result (SetComesBack bytes.now) }
    // Nothing else is in the way than memory.
    ensures only { (set : TreeSet) → IsSetSpelling set bytes.now → length (dumped_set set) ≤ MOST_TEXT_BYTES → IsShallowSet (normal_set set) → IfErr result IsSetMemory }
    // Which fault it is, unless memory ran out.
    ensures fault { IfErr result (IsThroughSetFault bytes.now) }
{
    normal_sets_come_back();
    a_printed_set_says_one_normal_form();
    texts_are_normal_forms();
    bytes_spell_one_set();
    match text_of_set(alloc, bytes) {
        Ok(text) => blob_of_set(alloc, text.as_slice()),
        Err(fault) => Err(SetLanguageFault::Bytes(fault)),
    }
}

/// The plain bytes of the set that a text is.
pub fn blob_of_set(alloc: Global, text: &[u8]) -> Result<Bytes, SetLanguageFault>
    ensures blob { IfOk result (IsSetBlobOf text.now) }
    ensures only { (set : TreeSet) → IsSetText text.now set → IfErr result IsSetMemory }
    // Which fault it is, unless memory ran out.
    ensures exact { IfErr result (IsSetTextFault text.now) }
{
    texts_have_short_blobs();
    match parse_set(alloc, text) {
        Ok(set) => {
            let blob = encode_set(alloc, &set);
            drop(set);
            match blob {
                Ok(blob) => Ok(blob),
                Err(fault) => Err(SetLanguageFault::Blob(fault)),
            }
        }
        Err(fault) => Err(SetLanguageFault::Text(fault)),
    }
}
