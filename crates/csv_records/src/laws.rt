//! Laws over the definitions: functions that do nothing and whose contracts are the laws.

ghost use Rattle.csv_records.specs.Laws.{TextsHaveRecords, OneListOfRecords, TakenAreFirst};

/// Each text has one list of records, and what was taken from its front is the front of that list.
pub fn a_text_has_one_list_of_records()
    ensures some { TextsHaveRecords }
    ensures one { OneListOfRecords }
    ensures front { TakenAreFirst }
{}
