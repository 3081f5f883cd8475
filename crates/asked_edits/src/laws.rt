//! Laws over the definitions: functions that do nothing and whose contracts are the laws.

ghost use Rattle.asked_edits.specs.Laws.{PriorityWordFits, ExpiryWordFits, AskedContentFits, AskedEditFits, ReadContentReadsAgain, AskedHistoriesStayKept, AskedHistoriesAreReadAgain};

use line_laws::laws::contents_read_back;
use store_model::laws::{stored_tables, stores_are_read_again};

/// What words are read as is within its limits.
pub fn words_that_are_read_fit()
    ensures priority { PriorityWordFits }
    ensures expiry { ExpiryWordFits }
{}

/// What a text or a line asks for fits a line.
pub fn what_is_asked_fits()
    ensures content { AskedContentFits }
    ensures edit { AskedEditFits }
{}

/// What was read of a text is read again of its canonical text.
pub fn what_was_read_is_read_again()
    ensures { ReadContentReadsAgain }
{
    what_is_asked_fits();
    contents_read_back();
}

/// Whatever edits lines have asked for, tables stay stored in accepted rows.
pub fn asked_histories_stay_kept()
    ensures { AskedHistoriesStayKept }
{
    what_is_asked_fits();
    stored_tables();
}

/// Whatever edits lines have asked for, the store that they left is read again.
pub fn asked_stores_are_read_again()
    ensures { AskedHistoriesAreReadAgain }
{
    what_is_asked_fits();
    stores_are_read_again();
}
