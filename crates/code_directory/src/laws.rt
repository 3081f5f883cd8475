//! Laws over the definitions alone.

ghost use Rattle.std.specs.Prelude.{◌≡◌, ◌↔◌, ℕ, List, false};
ghost use Rattle.code_directory.specs.declared.fault.CodeFault.{CodeFault};
ghost use Rattle.code_directory.specs.Slots.{are_slots_outside, SlotsInside};
ghost use Rattle.code_directory.specs.Signatures.{View, Views, SignatureFails};
ghost use Rattle.code_directory.specs.Agreement.{PagesAgree, CodeFails};

use cs_blob::laws::{
    bytes_begin_with_one_blob, super_blobs_have_no_fault, there_is_one_first_fault,
};

/// The sums that are checked say of each slot that it lies behind the header and inside the directory.
pub fn slots_are_inside()
    ensures { (whole : List ℕ) → (are_slots_outside whole ≡ false) ↔ SlotsInside whole }
{}

/// Bytes have one view at most, or one first fault, and not both.
pub fn bytes_have_one_view()
    ensures one { (bytes : List ℕ) (view other : View) → Views bytes view → Views bytes other → view ≡ other }
    ensures fault { (bytes : List ℕ) (first second : CodeFault) → SignatureFails bytes first → SignatureFails bytes second → first ≡ second }
    ensures apart { (bytes : List ℕ) (view : View) (fault : CodeFault) → Views bytes view → SignatureFails bytes fault → ⊥ }
{
    bytes_begin_with_one_blob();
    super_blobs_have_no_fault();
    there_is_one_first_fault();
}

/// Code has one first fault at most, and none where its pages agree.
pub fn code_has_one_first_fault()
    ensures one { (directory code : List ℕ) (first second : CodeFault) → CodeFails directory code first → CodeFails directory code second → first ≡ second }
    ensures apart { (directory code : List ℕ) (fault : CodeFault) → PagesAgree directory code → CodeFails directory code fault → ⊥ }
{}
