//! A signature file and its code, checked.

ghost use Rattle.std.specs.Prelude.{◌≡◌, ◌⊎◌, Some, MatchResult, option_map};
ghost use Rattle.req_tree.specs.Subject.{subject_of};
ghost use Rattle.code_directory.specs.Signatures as spec;
ghost use Rattle.assess_command.specs.Files.{code_of, checked_parts, PartsAgree, PartsFail, CodeAgrees, CodeDiffers, IsSubject, FilesFail};

use code_directory::{CodeFault, DER_ENTITLEMENTS, ENTITLEMENTS, REQUIREMENTS, Signature};
use req_tree::Subject;

/// The parts that are checked, in this order.
const PARTS: [u32; 3] = [REQUIREMENTS, ENTITLEMENTS, DER_ENTITLEMENTS];

/// What the files say the code is: nothing where the signature file is empty. Or the first check that fails:
/// those of the signature, then the parts, then the pages of the code, where there is a file of it.
pub(crate) fn subject_in(
    signature: &[u8],
    code: Option<&[u8]>,
) -> Result<Option<Subject>, CodeFault>
    ensures { MatchResult result (λ subject. IsSubject signature.now (code_of code.entry) (option_map subject_of subject)) (λ fault. FilesFail signature.now (code_of code.entry) fault) }
{
    if signature.is_empty() {
        return Ok(None);
    }
    match Signature::read(signature) {
        Ok(signature) => checked(&signature, code),
        Err(fault) => Err(fault),
    }
}

fn checked(signature: &Signature<'_>, code: Option<&[u8]>) -> Result<Option<Subject>, CodeFault>
    ensures { MatchResult result (λ subject. PartsAgree signature.now checked_parts × CodeAgrees signature.now (code_of code.entry) × (option_map subject_of subject ≡ Some (spec.subject signature.now)))
        (λ fault. PartsFail signature.now checked_parts fault ⊎ (PartsAgree signature.now checked_parts × CodeDiffers signature.now (code_of code.entry) fault)) }
{
    match check_parts(signature, &PARTS) {
        Ok(()) => {}
        Err(fault) => return Err(fault),
    }
    match check_code(signature, code) {
        Ok(()) => Ok(Some(signature.subject())),
        Err(fault) => Err(fault),
    }
}

fn check_parts(signature: &Signature<'_>, kinds: &[u32]) -> Result<(), CodeFault>
    ensures { MatchResult result (λ _. PartsAgree signature.now kinds.now) (λ fault. PartsFail signature.now kinds.now fault) }
{
    for kind in kinds {
        match signature.check_part(*kind) {
            Ok(()) => {}
            Err(fault) => return Err(fault),
        }
    }
    Ok(())
}

fn check_code(signature: &Signature<'_>, code: Option<&[u8]>) -> Result<(), CodeFault>
    ensures { MatchResult result (λ _. CodeAgrees signature.now (code_of code.entry)) (λ fault. CodeDiffers signature.now (code_of code.entry) fault) }
{
    match code {
        Some(code) => signature.check_pages(code),
        None => Ok(()),
    }
}
