//! Laws over the definitions: functions that do nothing and whose contracts are the laws.

ghost use Rattle.import_csv.specs.Twice.{ImportTwice, KeyActsOnce};
ghost use Rattle.import_csv.specs.Laws.{ImportIsOne, ImportHasNoFault, FirstFaultIsOne, NoBytesAreNeither};

use csv_records::laws::a_text_has_one_list_of_records;
use req_grammar::laws::texts_say_one_tree;
use req_parser::laws::{a_failing_text_is_no_requirement, no_text_is_neither};

/// An import that comes again right after it was answered changes nothing, and no key is ever accepted twice.
pub fn an_import_that_comes_twice_acts_as_once()
    ensures import { ImportTwice }
    ensures key { KeyActsOnce }
{}

/// Bytes ask for one list of edits, or have one first fault, and not both.
pub fn an_import_asks_for_one_list()
    ensures edits { ImportIsOne }
    ensures apart { ImportHasNoFault }
    ensures fault { FirstFaultIsOne }
{
    a_text_has_one_list_of_records();
    texts_say_one_tree();
    a_failing_text_is_no_requirement();
}

/// No bytes are neither an import nor at fault.
pub fn no_bytes_are_neither()
    ensures { NoBytesAreNeither }
{
    a_text_has_one_list_of_records();
    no_text_is_neither();
}
