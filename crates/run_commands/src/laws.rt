//! Laws over the definitions: functions that do nothing and whose contracts are the laws.

ghost use Rattle.run_commands.specs.Laws.{FilesHaveOneStatus, TimelessStatusIsOne, TablesHaveOneStatus, BadStoreIsOne};

use desk_opening::laws::a_run_begins_or_not;
use file_assessment::laws::an_assessment_has_one_status;
use import_csv::laws::an_import_asks_for_one_list;
use language_commands::laws::each_work_has_one_status;
use line_laws::laws::{texts_ask_for_one_content, what_is_asked_has_no_fault};

/// What a command says has one status, over files and rows that are told.
pub fn each_command_has_one_status()
    ensures told { FilesHaveOneStatus }
    ensures timeless { TimelessStatusIsOne }
    ensures store { BadStoreIsOne }
{
    a_run_begins_or_not();
    an_assessment_has_one_status();
    each_work_has_one_status();
}

/// What a command on the rules says has one status, where no edit could fail.
pub fn each_table_command_has_one_status()
    ensures { TablesHaveOneStatus }
{
    a_run_begins_or_not();
    texts_ask_for_one_content();
    what_is_asked_has_no_fault();
    an_import_asks_for_one_list();
}
