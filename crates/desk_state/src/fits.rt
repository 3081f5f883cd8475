//! What an edit's types keep is what stored rows need.

ghost use Rattle.store_model.specs.Kept.{IsEdit};
ghost use Rattle.rule_edits.specs.Edit.{edit_of};

use edit_laws::laws::a_content_fits_a_line;
use rule_edits::Edit;

/// Each edit that the program holds is one that a line can ask for. It only reads.
pub(crate) fn edit_fits(edit: &Edit)
    ensures { ∥ IsEdit (edit_of edit.now) ∥₁ }
{
    let _key = edit.key.as_slice();
    a_content_fits_a_line(&edit.content);
}
