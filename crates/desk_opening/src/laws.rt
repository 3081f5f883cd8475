//! Laws over the definitions: functions that do nothing and whose contracts are the laws.

ghost use Rattle.desk_opening.specs.Laws.{OneOpening, OpenedIsNotUnopened, UnopenedHasOneStatus, UnopenedIsDeskless, UnopenedIsSpoken, ReadIsNotRefused, RefusedHasOneStatus, EmptyStoreOpensFresh};

use code_facts::laws::a_file_is_right_or_has_a_first_fault;
use store_model::laws::{refused_rows, stored_rows_mean_tables};

/// Over files and rows that are told a run begins at one place, or something is said with one status.
pub fn a_run_begins_or_not()
    ensures one { OneOpening }
    ensures apart { OpenedIsNotUnopened }
    ensures status { UnopenedHasOneStatus }
    ensures deskless { UnopenedIsDeskless }
    ensures spoken { UnopenedIsSpoken }
    ensures facts_apart { ReadIsNotRefused }
    ensures facts_status { RefusedHasOneStatus }
{
    a_file_is_right_or_has_a_first_fault();
    stored_rows_mean_tables();
    refused_rows();
}

/// A run without facts over an empty store begins as a fresh desk.
pub fn an_empty_store_opens_fresh()
    ensures { EmptyStoreOpensFresh }
{
    stored_rows_mean_tables();
}
