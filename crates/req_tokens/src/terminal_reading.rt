//! A text as what the grammar sees of its tokens.

ghost use Rattle.std.specs.Prelude.{◌≡◌, ◌≤◌, ◌++◌, ℕ, List, length, map, true, IfOk, IfErr, OnOk, MatchResult};
ghost use Rattle.req_grammar.specs.declared.limits.TheConstants.{MOST_TEXT_BYTES};
ghost use Rattle.req_grammar.specs.Tokens as grammar;
ghost use Rattle.req_grammar.specs.Terminals as spec;
ghost use Rattle.req_grammar.specs.Readings.{HasTokens};
ghost use Rattle.req_tokens.specs.Terminals.{plains, AreTerminals, is_kind_in};
ghost use Rattle.req_tokens.specs.Sorts.{plain_sort, kind_in, added_terminal};
ghost use Rattle.req_tokens.specs.Failures.{FailsTokens};

use crate::fault::TextFault;
use crate::front::cut_front;
use crate::sort::{Sort, kind_at};
use crate::terminal::{Terminal, terminal_of};
use req_grammar::MOST_TEXT_BYTES;
use req_grammar::laws::{texts_have_one_first_fault, texts_have_one_token_list};
use std::alloc::{AllocError, Global};

/// The terminals of a text's tokens, one for each.
pub fn terminals(alloc: Global, text: &[u8]) -> Result<Vec<Terminal<'_>>, TextFault>
    // They are those of the text's tokens.
    ensures found { IfOk result (λ list. AreTerminals text.now (plains list.items)) }
    // A text that has tokens is cut, unless there is no memory.
    ensures only { (list : List grammar.Token) → HasTokens text.now list
        → MatchResult result (λ cut. plains cut.items ≡ spec.terminals text.now list) (λ fault. fault ≡ TextFault.OutOfMemory) }
    // Which fault it is, and where.
    ensures exact { IfErr result (FailsTokens text.now) }
    ensures length { IfOk result (λ list. length list.items ≤ MOST_TEXT_BYTES) }
{
    texts_have_one_token_list();
    texts_have_one_first_fault();
    cut_terminals(alloc, text)
}

fn cut_terminals(alloc: Global, text: &[u8]) -> Result<Vec<Terminal<'_>>, TextFault>
    ensures { MatchResult result (λ list. AreTerminals text.now (plains list.items) × (length list.items ≤ length text.now)) (FailsTokens text.now) }
{
    if text.len() > MOST_TEXT_BYTES {
        return Err(TextFault::TextTooLong);
    }
    let mut list = Vec::new(alloc);
    let mut rest = text;
    while !rest.is_empty() {
        let at = (text.len() - rest.len()) as u32;
        let (sort, front, after) = cut_front(at, rest)?;
        add(&mut list, sort, front)?;
        rest = after;
    }
    Ok(list)
}

/// Adds the terminal of what is cut off, if it is a token.
fn add<'a>(list: &mut Vec<Terminal<'a>>, sort: Sort, text: &'a [u8]) -> Result<(), AllocError>
    requires { is_kind_in (kind_in (plain_sort sort)) text.now ≡ true }
    ensures { OnOk result (plains list.new.items ≡ plains list.old.items ++ added_terminal (kind_in (plain_sort sort)) text.now) }
{
    match kind_at(sort) {
        Some(kind) => {
            list.push(terminal_of(kind, text))?;
            Ok(())
        }
        None => Ok(()),
    }
}
