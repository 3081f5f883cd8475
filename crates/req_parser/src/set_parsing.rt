//! A text as a set of requirements.

ghost use Rattle.std.specs.Prelude.{◌≡◌, ◌≤◌, length, None, MatchResult, IfOk, IfErr};
ghost use Rattle.req_tree.specs.TreeSet.{TreeSet, IsEncodableSet};
ghost use Rattle.req_grammar.specs.declared.limits.TheConstants.{MOST_TEXT_BYTES};
ghost use Rattle.req_grammar.specs.Readings.{HasFewOpen, IsSetText};
ghost use Rattle.req_grammar.specs.Laws.{HasGoodKeys};
ghost use Rattle.req_tokens.specs.Terminals.{plains};
ghost use Rattle.req_parser.specs.GivenParts.{AreParts};
ghost use Rattle.req_parser.specs.SetReading as spec;
ghost use Rattle.req_parser.specs.Kinds as kinds;
ghost use Rattle.req_parser.specs.SetFailures.{FailsSetText, FailsSetTerminals, IsSetList};

use crate::bad_key::first_bad_key;
use crate::gathering::gathered;
use crate::kinds::first_repeated;
use crate::laws::a_failing_text_is_no_set;
use crate::open::has_few_open;
use crate::parsing::fault_of;
use crate::parts::{Part, parts_at};
use req_grammar::laws::{
    good_shapes_are_read, parentheses_balance, terminals_have_one_reading, texts_are_encodable,
    texts_say_one_tree,
};
use req_machine::laws::ways_are_balanced;
use req_primary::Rest;
use req_primary::laws::{
    operands_are_read, operands_stop_where_the_machine_does, plain_readings_stand_for_readings,
    what_is_read_is_an_operand,
};
use req_tokens::{TextFault, terminals};
use req_tree::ReqSet;
use std::alloc::Global;

/// The set of requirements that a text says. The checks come in this order, and the first that fails decides: the length of
/// the text; its tokens, from the front; the parentheses that are open at once; the grammar; the keys of certificates'
/// tests; words for kinds that stand twice; the depths of the trees.
pub fn parse_set(alloc: Global, text: &[u8]) -> Result<ReqSet, TextFault>
    // What is read is what the text says.
    ensures found { IfOk result (λ set. IsSetText text.now set) }
    // What the text says is read, unless there is no memory.
    ensures only { (wanted : TreeSet) → IsSetText text.now wanted
        → MatchResult result (λ set. set ≡ wanted) (λ fault. fault ≡ TextFault.OutOfMemory) }
    // Which fault it is, and where.
    ensures exact { IfErr result (FailsSetText text.now) }
    // What is read can be written as a blob.
    ensures encodable { IfOk result (λ set. IsEncodableSet set) }
{
    a_failing_text_is_no_set();
    texts_are_encodable();
    texts_say_one_tree();
    parsed(alloc, text)
}

fn parsed(alloc: Global, text: &[u8]) -> Result<ReqSet, TextFault>
    ensures { MatchResult result (λ set. IsSetText text.now set) (FailsSetText text.now) }
{
    match terminals(alloc, text) {
        Ok(list) => set_of(alloc, list.as_slice()),
        Err(fault) => Err(fault),
    }
}

/// The set that terminals say.
fn set_of<'a>(alloc: Global, list: Rest<'a>) -> Result<ReqSet, TextFault>
    requires { length list.now ≤ MOST_TEXT_BYTES }
    ensures { MatchResult result (λ set. IsSetList (plains list.now) set) (FailsSetTerminals (plains list.now)) }
{
    if !has_few_open(list) {
        return Err(TextFault::TooDeep);
    }
    operands_are_read();
    operands_stop_where_the_machine_does();
    parentheses_balance();
    ways_are_balanced();
    match parts_at(alloc, list) {
        Ok(parts) => with_good_keys(alloc, list, parts),
        Err(fault) => Err(fault_of(fault)),
    }
}

/// The set of parts, if no key in it is bad, no kind stands twice and no requirement is too deep.
fn with_good_keys<'a>(alloc: Global, list: Rest<'a>, parts: Vec<Part>) -> Result<ReqSet, TextFault>
    requires length { length list.now ≤ MOST_TEXT_BYTES }
    requires few { HasFewOpen (plains list.now) }
    requires parts { AreParts (spec.parts_at (plains list.now)) parts.items }
    ensures { MatchResult result (λ set. IsSetList (plains list.now) set) (FailsSetTerminals (plains list.now)) }
{
    what_is_read_is_an_operand();
    match first_bad_key(alloc, list) {
        Ok(None) => with_kinds_once(list, parts),
        Ok(Some(token)) => {
            drop(parts);
            Err(TextFault::BadKey { token })
        }
        Err(_) => {
            drop(parts);
            Err(TextFault::OutOfMemory)
        }
    }
}

/// The set of parts with good keys, if no kind stands twice and no requirement is too deep.
fn with_kinds_once<'a>(list: Rest<'a>, parts: Vec<Part>) -> Result<ReqSet, TextFault>
    requires length { length list.now ≤ MOST_TEXT_BYTES }
    requires few { HasFewOpen (plains list.now) }
    requires keys { HasGoodKeys (plains list.now) }
    requires parts { AreParts (spec.parts_at (plains list.now)) parts.items }
    ensures { MatchResult result (λ set. IsSetList (plains list.now) set) (FailsSetTerminals (plains list.now)) }
{
    what_is_read_is_an_operand();
    match first_repeated(list) {
        None => shallow(list, parts),
        Some(token) => {
            drop(parts);
            Err(TextFault::KindTwice { token })
        }
    }
}

/// The set of parts with good keys, each of another kind, if no requirement is too deep.
fn shallow<'a>(list: Rest<'a>, parts: Vec<Part>) -> Result<ReqSet, TextFault>
    requires few { HasFewOpen (plains list.now) }
    requires keys { HasGoodKeys (plains list.now) }
    requires once { kinds.first_repeated (plains list.now) ≡ None }
    requires parts { AreParts (spec.parts_at (plains list.now)) parts.items }
    ensures { MatchResult result (λ set. IsSetList (plains list.now) set) (FailsSetTerminals (plains list.now)) }
{
    operands_are_read();
    parentheses_balance();
    plain_readings_stand_for_readings();
    what_is_read_is_an_operand();
    good_shapes_are_read();
    terminals_have_one_reading();
    match gathered(parts) {
        Some(set) => Ok(set),
        None => Err(TextFault::TooDeep),
    }
}
