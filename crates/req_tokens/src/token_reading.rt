//! A text as its tokens.

ghost use Rattle.std.specs.Prelude.{◌≡◌, ◌≤◌, ◌++◌, ℕ, List, length, IfOk, IfErr, OnOk, OnErr, MatchResult};
ghost use Rattle.req_grammar.specs.declared.limits.TheConstants.{MOST_TEXT_BYTES};
ghost use Rattle.req_grammar.specs.Tokens as grammar;
ghost use Rattle.req_grammar.specs.Readings.{HasTokens};
ghost use Rattle.req_tokens.specs.Tokens.{tokens_of};
ghost use Rattle.req_tokens.specs.Sorts.{plain_sort, kind_in, added};
ghost use Rattle.req_tokens.specs.Failures.{FailsTokens};

use crate::fault::TextFault;
use crate::front::cut_front;
use crate::sort::{Sort, kind_at};
use crate::token::{Token, TokenList};
use req_grammar::MOST_TEXT_BYTES;
use req_grammar::laws::{texts_have_one_first_fault, texts_have_one_token_list};
use std::alloc::{AllocError, Global};

/// The tokens of a text. Separators and comments are dropped.
pub fn tokens(alloc: Global, text: &[u8]) -> Result<TokenList, TextFault>
    // What is cut are the text's tokens.
    ensures found { IfOk result (λ list. HasTokens text.now (tokens_of list)) }
    // A text that has tokens is cut, unless there is no memory.
    ensures only { (list : List grammar.Token) → HasTokens text.now list
        → MatchResult result (λ cut. tokens_of cut ≡ list) (λ fault. fault ≡ TextFault.OutOfMemory) }
    // Which fault it is, and where.
    ensures exact { IfErr result (FailsTokens text.now) }
{
    texts_have_one_token_list();
    texts_have_one_first_fault();
    cut_all(alloc, text)
}

fn cut_all(alloc: Global, text: &[u8]) -> Result<TokenList, TextFault>
    ensures { MatchResult result (λ list. HasTokens text.now (tokens_of list)) (FailsTokens text.now) }
{
    if text.len() > MOST_TEXT_BYTES {
        return Err(TextFault::TextTooLong);
    }
    let mut list = TokenList::new(alloc);
    let mut rest = text;
    while !rest.is_empty() {
        let at = (text.len() - rest.len()) as u32;
        let (sort, front, after) = cut_front(at, rest)?;
        add(&mut list, sort, at, front.len() as u32)?;
        rest = after;
    }
    Ok(list)
}

/// Adds what is cut off to the tokens, if it is one.
fn add(list: &mut TokenList, sort: Sort, at: u32, length: u32) -> Result<(), AllocError>
    ensures { OnOk result (tokens_of list.new ≡ tokens_of list.old ++ added (kind_in (plain_sort sort)) at length) }
{
    match kind_at(sort) {
        Some(kind) => list.push(Token { kind, at, length }),
        None => Ok(()),
    }
}
