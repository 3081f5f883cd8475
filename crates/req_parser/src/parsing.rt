//! A text as a requirement.

ghost use Rattle.std.specs.Prelude.{◌≡◌, ◌≤◌, length, MatchResult, IfOk, IfErr, Ok};
ghost use Rattle.req_tree.specs.Tree.{Tree, tree_of};
ghost use Rattle.req_tree.specs.Spellable.{IsEncodable};
ghost use Rattle.req_grammar.specs.declared.limits.TheConstants.{MOST_TEXT_BYTES};
ghost use Rattle.req_grammar.specs.Readings.{IsRequirementText};
ghost use Rattle.req_tokens.specs.Terminals.{plains};
ghost use Rattle.req_primary.specs.Keys.{outcome_of};
ghost use Rattle.req_grammar.specs.Readings.{HasFewOpen};
ghost use Rattle.req_grammar.specs.Laws.{HasGoodKeys};
ghost use Rattle.req_parser.specs.Given.{IsWholeOutcome};
ghost use Rattle.req_parser.specs.Reading as spec;
ghost use Rattle.req_parser.specs.Failures.{FailsText, FailsTerminals, IsBadKeyFault, IsRequirementList, text_fault_of};

use crate::bad_key::first_bad_key;
use crate::laws::a_failing_text_is_no_requirement;
use crate::open::has_few_open;
use crate::tree::whole_at;
use req_grammar::laws::{
    good_shapes_are_read, parentheses_balance, texts_are_encodable, texts_say_one_tree,
};
use req_machine::laws::ways_are_balanced;
use req_primary::laws::{
    operands_are_read, operands_stop_where_the_machine_does, plain_readings_stand_for_readings,
    what_is_read_is_an_operand,
};
use req_primary::{Built, ReadingFault, Rest};
use req_tokens::{TextFault, terminals};
use req_tree::Req;
use std::alloc::Global;

/// The requirement that a text says. The checks come in this order, and the first that fails decides: the length of
/// the text; its tokens, from the front; the parentheses that are open at once; the grammar; the keys of certificates'
/// tests; the depth of the tree.
pub fn parse(alloc: Global, text: &[u8]) -> Result<Req, TextFault>
    // What is read is what the text says.
    ensures found { IfOk result (λ req. IsRequirementText text.now (tree_of req)) }
    // What the text says is read, unless there is no memory.
    ensures only { (tree : Tree) → IsRequirementText text.now tree
        → MatchResult result (λ req. tree_of req ≡ tree) (λ fault. fault ≡ TextFault.OutOfMemory) }
    // Which fault it is, and where.
    ensures exact { IfErr result (FailsText text.now) }
    // What is read can be written as a blob.
    ensures encodable { IfOk result (λ req. IsEncodable (tree_of req)) }
{
    a_failing_text_is_no_requirement();
    texts_are_encodable();
    texts_say_one_tree();
    parsed(alloc, text)
}

fn parsed(alloc: Global, text: &[u8]) -> Result<Req, TextFault>
    ensures { MatchResult result (λ req. IsRequirementText text.now (tree_of req)) (FailsText text.now) }
{
    match terminals(alloc, text) {
        Ok(list) => requirement_of(alloc, list.as_slice()),
        Err(fault) => Err(fault),
    }
}

/// The requirement that terminals say.
fn requirement_of<'a>(alloc: Global, list: Rest<'a>) -> Result<Req, TextFault>
    requires { length list.now ≤ MOST_TEXT_BYTES }
    ensures { MatchResult result (λ req. IsRequirementList (plains list.now) (tree_of req)) (FailsTerminals (plains list.now)) }
{
    if !has_few_open(list) {
        return Err(TextFault::TooDeep);
    }
    operands_are_read();
    operands_stop_where_the_machine_does();
    parentheses_balance();
    ways_are_balanced();
    match whole_at(alloc, list) {
        Ok(built) => judged(alloc, list, built),
        Err(fault) => Err(fault_of(fault)),
    }
}

pub(crate) fn fault_of(fault: ReadingFault) -> TextFault
    ensures { result ≡ text_fault_of fault }
{
    match fault {
        ReadingFault::Syntax { token } => TextFault::Syntax { token },
        ReadingFault::OutOfMemory => TextFault::OutOfMemory,
    }
}

/// What was built, if it is no deeper than a requirement may be and no key in it is bad.
fn judged<'a>(alloc: Global, list: Rest<'a>, built: Built) -> Result<Req, TextFault>
    requires few { HasFewOpen (plains list.now) }
    requires outcome { IsWholeOutcome (spec.whole_at (plains list.now)) (outcome_of built) }
    requires length { length list.now ≤ MOST_TEXT_BYTES }
    ensures { MatchResult result (λ req. IsRequirementList (plains list.now) (tree_of req)) (FailsTerminals (plains list.now)) }
{
    operands_are_read();
    parentheses_balance();
    plain_readings_stand_for_readings();
    what_is_read_is_an_operand();
    good_shapes_are_read();
    match built {
        Built::Fine { tree, depth: _ } => Ok(Box::into_inner(tree)),
        Built::Deep => Err(TextFault::TooDeep),
        Built::BadKey => Err(bad_key(alloc, list)),
    }
}

/// The fault of the first bad key, where the keys alone are wrong.
fn bad_key<'a>(alloc: Global, list: Rest<'a>) -> TextFault
    requires length { length list.now ≤ MOST_TEXT_BYTES }
    requires bad { HasGoodKeys (plains list.now) → ⊥ }
    ensures { IsBadKeyFault (plains list.now) result }
{
    match first_bad_key(alloc, list) {
        Ok(Some(token)) => TextFault::BadKey { token },
        Ok(None) => unreachable!(),
        Err(_) => TextFault::OutOfMemory,
    }
}
