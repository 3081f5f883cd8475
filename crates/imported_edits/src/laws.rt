//! Laws over the definitions: functions that do nothing and whose contracts are the laws.

ghost use Rattle.imported_edits.specs.Laws.{ImportedEditsFit, ImportIsReadAgain};

use asked_edits::laws::words_that_are_read_fit;
use store_model::laws::stores_are_read_again;

/// The edits of an import are such as a line can ask for, so the store that they leave is read again.
pub fn imports_are_read_again()
    ensures edits { ImportedEditsFit }
    ensures store { ImportIsReadAgain }
{
    words_that_are_read_fit();
    stores_are_read_again();
}
