//! Bytes that are read, printed, read as a text and written again: the promise of the language in one call.

ghost use Rattle.std.specs.Prelude.{◌≡◌, ◌≤◌, length, IfOk, IfErr};
ghost use Rattle.req_tree.specs.Tree.{Tree};
ghost use Rattle.req_tree.specs.Normal.{normal};
ghost use Rattle.req_tree.specs.Spellable.{IsShallow};
ghost use Rattle.req_grammar.specs.declared.limits.TheConstants.{MOST_TEXT_BYTES};
ghost use Rattle.req_grammar.specs.Readings.{IsRequirementText};
ghost use Rattle.req_blob.specs.Spelling.{IsSpelling};
ghost use Rattle.dumped_text.specs.Dumped.{dumped};
ghost use Rattle.req_language.specs.Promise.{ComesBack};
ghost use Rattle.req_language.specs.Through.{IsBlobOf, IsMemory, IsTextFault, IsThroughFault};

use crate::laws::{
    a_printed_text_says_one_normal_form, normal_forms_come_back, texts_have_short_blobs,
};
use crate::printing::text_of;
use dumped_text::laws::texts_are_normal_forms;
use req_blob::laws::{a_blob_spells_one_tree, what_is_refused_is_too_long};
use req_blob::{OpsFault, encode};
use req_parser::{TextFault, parse};
use req_tree::Bytes;
use std::alloc::Global;

/// Why bytes don't come back.
#[derive(Clone, Copy, Drop)]
pub enum LanguageFault {
    /// The bytes are no requirement, or there was no memory for those of the normal form.
    Bytes(OpsFault),
    /// The text is too long, or the normal form too deep.
    Text(TextFault),
}

/// The plain bytes of the normal form of the requirement that bytes are: what compiling its printed text gives.
pub fn through_text(alloc: Global, bytes: &[u8]) -> Result<Bytes, LanguageFault>
    ensures back { IfOk result (ComesBack bytes.now) }
    // Nothing else is in the way than memory.
    ensures only { (tree : Tree) → IsSpelling tree bytes.now → length (dumped tree) ≤ MOST_TEXT_BYTES → IsShallow (normal tree) → IfErr result IsMemory }
    // Which fault it is, unless memory ran out.
    ensures fault { IfErr result (IsThroughFault bytes.now) }
{
    normal_forms_come_back();
    a_printed_text_says_one_normal_form();
    texts_are_normal_forms();
    a_blob_spells_one_tree();
    match text_of(alloc, bytes) {
        Ok(text) => blob_of(alloc, text.as_slice()),
        Err(fault) => Err(LanguageFault::Bytes(fault)),
    }
}

/// The plain bytes of the requirement that a text is.
pub fn blob_of(alloc: Global, text: &[u8]) -> Result<Bytes, LanguageFault>
    ensures blob { IfOk result (IsBlobOf text.now) }
    ensures only { (tree : Tree) → IsRequirementText text.now tree → IfErr result IsMemory }
    // Which fault it is, unless memory ran out.
    ensures exact { IfErr result (IsTextFault text.now) }
{
    texts_have_short_blobs();
    what_is_refused_is_too_long();
    match parse(alloc, text) {
        Ok(req) => {
            let blob = encode(alloc, &req);
            drop(req);
            match blob {
                Ok(blob) => Ok(blob),
                Err(fault) => Err(LanguageFault::Bytes(fault)),
            }
        }
        Err(fault) => Err(LanguageFault::Text(fault)),
    }
}
