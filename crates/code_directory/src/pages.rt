//! Whether code has the pages of a directory.

ghost use Rattle.std.specs.Prelude.{◌≡◌, MatchResult};
ghost use Rattle.code_directory.specs.Agreement.{PagesAgree, CodeFails};

use crate::directory::Directory;
use crate::fault::CodeFault;

/// Holds each page of the code against its slot. Longer code is fine.
pub(crate) fn check_pages(directory: &Directory<'_>, code: &[u8]) -> Result<(), CodeFault>
    ensures { MatchResult result (λ _. PagesAgree directory.now.bytes code.now) (λ fault. CodeFails directory.now.bytes code.now fault) }
{
    if (code.len() as u64) < directory.limit() {
        return Err(CodeFault::CodeShort);
    }
    for slot in 0..directory.code_slots() {
        if !directory.has_page(code, slot) {
            return Err(CodeFault::PageDiffers { slot });
        }
    }
    Ok(())
}
