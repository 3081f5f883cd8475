//! Laws over the definitions: functions that do nothing and whose contracts are the laws.

ghost use Rattle.policy_model.specs.History.{empty_tables};
ghost use Rattle.store_model.specs.Kept.{IsKept};
ghost use Rattle.store_model.specs.Again.{KeptIsReadAgain, HistoriesAreReadAgain};
ghost use Rattle.store_model.specs.Laws.{EditsStayKept, HistoriesStayKept, KeptIdsAreOwn, KeptKeysAreOwn, UpgradedStays, StoredStays, UpgradedMeansTheSame, UpgradedIsAccepted, UpgradedIsRefused, RowsMeanOne, AcceptedRowsMeanSome, AcceptedRowsMeanKept, ChangeIsEdit, ChangeMeansEdit, AcceptedIsNotRefused, RefusedOnce, AcceptedOrRefused};

use line_laws::laws::contents_read_back;
use policy_model::laws::{ids_stay_own, keys_stay_own};
use req_grammar::laws::texts_say_one_tree;

/// Tables that begin empty are stored in accepted rows, whatever edits they have had.
pub fn stored_tables()
    ensures empty { IsKept empty_tables }
    ensures edit { EditsStayKept }
    ensures history { HistoriesStayKept }
{
    ids_stay_own();
    keys_stay_own();
    contents_read_back();
}

/// Tables that are stored in accepted rows have ids and keys of their own.
pub fn kept_tables()
    ensures ids { KeptIdsAreOwn }
    ensures keys { KeptKeysAreOwn }
{}

/// Rows are upgraded once, and mean the same before and after: they are accepted, or refused at the same place.
pub fn upgraded_rows_mean_the_same()
    ensures stays { UpgradedStays }
    ensures stored { StoredStays }
    ensures meaning { UpgradedMeansTheSame }
    ensures accepted { UpgradedIsAccepted }
    ensures refused { UpgradedIsRefused }
{}

/// Stored rows mean one set of tables at most, and accepted ones mean some.
pub fn stored_rows_mean_tables()
    ensures once { RowsMeanOne }
    ensures some { AcceptedRowsMeanSome }
    ensures kept { AcceptedRowsMeanKept }
{
    texts_say_one_tree();
}

/// A change of the stored rows is the edit of the tables that they mean.
pub fn change_is_edit()
    ensures rows { ChangeIsEdit }
    ensures meaning { ChangeMeansEdit }
{}

/// A store that is accepted is refused nowhere, and another at one place: at most one, and none is neither.
pub fn refused_rows()
    ensures accepted { AcceptedIsNotRefused }
    ensures once { RefusedOnce }
    ensures one { AcceptedOrRefused }
{}

/// A store is read again: whatever edits have led to its tables, none of its rows is refused, and they mean those tables.
pub fn stores_are_read_again()
    ensures kept { KeptIsReadAgain }
    ensures history { HistoriesAreReadAgain }
{
    stored_tables();
    stored_rows_mean_tables();
    refused_rows();
}
