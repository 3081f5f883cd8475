//! Laws over the definitions: functions that do nothing and whose contracts are the laws.

ghost use Rattle.std.specs.Prelude.{◌≢◌, ℕ, List};
ghost use Rattle.req_tree.specs.Tree.{Tree};
ghost use Rattle.req_tree.specs.TreeSet.{TreeSet};
ghost use Rattle.req_grammar.specs.Readings.{IsRequirementText, IsSetText};
ghost use Rattle.req_tokens.specs.declared.fault.TextFault.{TextFault};
ghost use Rattle.req_tokens.specs.declared.fault.TextFault.TheVariants.{OutOfMemory};
ghost use Rattle.req_parser.specs.Failures.{FailsText};
ghost use Rattle.req_parser.specs.SetFailures.{FailsSetText};
ghost use Rattle.req_parser.specs.Laws.{NoSetTextIsNeither, NoTextIsNeither, OneFault, OneSetFault, SetSyntaxStopsThere, SyntaxStopsThere};

use req_grammar::laws::{
    good_shapes_are_read, readings_have_no_bad_key, readings_have_shapes, sets_repeat_no_kind,
    shapes_are_read, terminals_have_one_reading, texts_have_one_first_fault,
    texts_have_one_token_list,
};
use req_machine::laws::{longest_fronts_are_taken, one_number_is_taken, the_machine_stops};
use req_tokens::laws::a_text_has_tokens_or_a_first_fault;

/// A text that has a fault is no requirement.
pub fn a_failing_text_is_no_requirement()
    ensures { (text : List ℕ) (fault : TextFault) (tree : Tree) → fault ≢ OutOfMemory → FailsText text fault → IsRequirementText text tree → ⊥ }
{
    terminals_have_one_reading();
    readings_have_shapes();
    readings_have_no_bad_key();
    texts_have_one_first_fault();
    texts_have_one_token_list();
}

/// A text that has a fault as a set's is no set.
pub fn a_failing_text_is_no_set()
    ensures { (text : List ℕ) (fault : TextFault) (set : TreeSet) → fault ≢ OutOfMemory → FailsSetText text fault → IsSetText text set → ⊥ }
{
    terminals_have_one_reading();
    readings_have_shapes();
    readings_have_no_bad_key();
    sets_repeat_no_kind();
    texts_have_one_first_fault();
    texts_have_one_token_list();
}

/// A text has one fault at most, and as a set's one: its kind, and its place or its number.
pub fn a_text_has_one_fault()
    ensures tree { OneFault }
    ensures set { OneSetFault }
{
    one_number_is_taken();
    readings_have_no_bad_key();
    readings_have_shapes();
    sets_repeat_no_kind();
    texts_have_one_first_fault();
    texts_have_one_token_list();
}

/// No text is neither a requirement nor at fault, and none is neither a set nor at fault as one.
pub fn no_text_is_neither()
    ensures tree { NoTextIsNeither }
    ensures set { NoSetTextIsNeither }
{
    a_text_has_tokens_or_a_first_fault();
    good_shapes_are_read();
    shapes_are_read();
    the_machine_stops();
}

/// The tokens before a Syntax fault are the longest front that can go on.
pub fn syntax_stops_at_the_longest_front()
    ensures tree { SyntaxStopsThere }
    ensures set { SetSyntaxStopsThere }
{
    longest_fronts_are_taken();
}
