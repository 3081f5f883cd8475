//! The texts of receipts.

ghost use Rattle.std.specs.Prelude.{◌↔◌, IsTrue, IfOk};
ghost use Rattle.store_model.specs.Contents.{IsContentText, IsAddText};

use line_laws::laws::{texts_ask_for_one_content, what_is_asked_has_no_fault};
use rule_edits::{LineFault, content_is, read_content};
use std::alloc::{AllocError, Global};

/// Whether this is the canonical text of a content.
pub(crate) fn is_content(alloc: Global, text: &[u8]) -> Result<bool, AllocError>
    ensures { IfOk result (λ is. IsTrue is ↔ IsContentText text.now) }
{
    texts_ask_for_one_content();
    what_is_asked_has_no_fault();
    match read_content(alloc, text) {
        Ok(content) => {
            let is = content_is(&content, text);
            drop(content);
            Ok(is)
        }
        Err(LineFault::OutOfMemory) => Err(AllocError),
        Err(_) => Ok(false),
    }
}

/// Whether the content of a canonical text adds a rule.
pub(crate) fn adds(text: &[u8]) -> bool
    requires { IsContentText text.now }
    ensures { IsTrue result ↔ IsAddText text.now }
{
    text.starts_with(b"add ")
}
