//! Expressions: chains and negations by loops, parentheses by recursion.

ghost use Rattle.std.specs.Prelude.{◌≡◌, ◌≤◌, MatchResult, length};
ghost use Rattle.req_tree.specs.Tree as t;
ghost use Rattle.req_grammar.specs.declared.limits.TheConstants.{MOST_TEXT_BYTES};
ghost use Rattle.req_tokens.specs.Terminals.{plain, plains};
ghost use Rattle.req_tokens.specs.Words.{plain_sign, plain_word};
ghost use Rattle.req_tokens.specs.Strings.{str_value};
ghost use Rattle.req_primary.specs.Keys.{Tells, outcome_of};
ghost use Rattle.req_primary.specs.Primaries as primaries;
ghost use Rattle.req_parser.specs.Given.{IsOutcome, IsWholeOutcome, IsFault};
ghost use Rattle.req_parser.specs.Reading as spec;

use crate::chain::{and_at, bangs, or_at};
use req_grammar::MOST_OPEN_PARENTHESES;
use req_primary::laws::what_is_read_is_an_operand;
use req_primary::{
    Built, ReadingFault, Rest, both_of, close_at, either_of, first_at, leaf, negated_times,
    primary_at, refused, settled,
};
use req_tokens::{Sign, StrToken, Terminal, Word};
use req_tree::Req;
use std::alloc::Global;

/// All terminals as one expression.
#[tactic(auto, unfolding(crate::specs::Reading::whole_at))]
pub(crate) fn whole_at<'a>(alloc: Global, list: Rest<'a>) -> Result<Built, ReadingFault>
    requires { length list.now ≤ MOST_TEXT_BYTES }
    ensures { MatchResult result (λ built. IsWholeOutcome (spec.whole_at (plains list.now)) (outcome_of built)) (IsFault (spec.whole_at (plains list.now))) }
{
    let size = list.len() as u32;
    let (value, rest) = expr_at(alloc, size, MOST_OPEN_PARENTHESES as u32, list)?;
    ended(size, value, rest)
}

/// What was built, where nothing is left.
fn ended<'a>(size: u32, value: Built, rest: Rest<'a>) -> Result<Built, ReadingFault>
    ensures { (x : t.Tree) → Tells x (outcome_of value) → MatchResult result (λ built. IsWholeOutcome (spec.ended size (x, plains rest.now)) (outcome_of built)) (IsFault (spec.ended size (x, plains rest.now))) }
{
    if rest.is_empty() {
        return Ok(value);
    }
    drop(value);
    Err(refused(size, rest))
}

/// Terms with `or` between them.
#[cycle(expr)]
#[tactic(auto, unfolding(crate::specs::Reading::expr_at))]
pub(crate) fn expr_at<'a>(
    alloc: Global,
    size: u32,
    depth: u32,
    here: Rest<'a>,
) -> Result<(Built, Rest<'a>), ReadingFault>
    ensures { let read = spec.expr_at size (spec.inside_at size depth) (plains here.now) in MatchResult result (λ x. IsOutcome read (outcome_of x.0) (plains x.1.now)) (IsFault read) }
{
    let (first, after) = term_at(alloc, size, depth, here)?;
    let mut value = first;
    let mut rest = after;
    let most = here.len();
    for _ in 0..most {
        let Some(behind) = or_at(rest) else {
            return Ok((value, rest));
        };
        let (next, left) = or_term(alloc, size, depth, value, behind)?;
        value = next;
        rest = left;
    }
    Ok((value, rest))
}

/// Another term behind an `or`.
#[cycle(expr)]
fn or_term<'a>(
    alloc: Global,
    size: u32,
    depth: u32,
    left: Built,
    here: Rest<'a>,
) -> Result<(Built, Rest<'a>), ReadingFault>
    ensures { (x : t.Tree) → Tells x (outcome_of left) → (let read = spec.joined_at t.either (spec.term_at size (spec.inside_at size depth)) x (plains here.now) in MatchResult result (λ y. IsOutcome read (outcome_of y.0) (plains y.1.now)) (IsFault read)) }
{
    match term_at(alloc, size, depth, here) {
        Ok((right, rest)) => {
            let value = either_of(alloc, left, right)?;
            Ok((value, rest))
        }
        Err(fault) => {
            drop(left);
            Err(fault)
        }
    }
}

/// Operands with `and` between them.
#[cycle(expr)]
#[tactic(auto, unfolding(crate::specs::Reading::term_at))]
fn term_at<'a>(
    alloc: Global,
    size: u32,
    depth: u32,
    here: Rest<'a>,
) -> Result<(Built, Rest<'a>), ReadingFault>
    ensures { let read = spec.term_at size (spec.inside_at size depth) (plains here.now) in MatchResult result (λ x. IsOutcome read (outcome_of x.0) (plains x.1.now)) (IsFault read) }
{
    let (first, after) = factor_at(alloc, size, depth, here)?;
    let mut value = first;
    let mut rest = after;
    let most = here.len();
    for _ in 0..most {
        let Some(behind) = and_at(rest) else {
            return Ok((value, rest));
        };
        let (next, left) = and_factor(alloc, size, depth, value, behind)?;
        value = next;
        rest = left;
    }
    Ok((value, rest))
}

/// Another operand behind an `and`.
#[cycle(expr)]
fn and_factor<'a>(
    alloc: Global,
    size: u32,
    depth: u32,
    left: Built,
    here: Rest<'a>,
) -> Result<(Built, Rest<'a>), ReadingFault>
    ensures { (x : t.Tree) → Tells x (outcome_of left) → (let read = spec.joined_at t.both (spec.factor_at size (spec.inside_at size depth)) x (plains here.now) in MatchResult result (λ y. IsOutcome read (outcome_of y.0) (plains y.1.now)) (IsFault read)) }
{
    match factor_at(alloc, size, depth, here) {
        Ok((right, rest)) => {
            let value = both_of(alloc, left, right)?;
            Ok((value, rest))
        }
        Err(fault) => {
            drop(left);
            Err(fault)
        }
    }
}

/// An operand with the `!` before it.
#[cycle(expr)]
#[tactic(auto, unfolding(crate::specs::Reading::factor_at))]
fn factor_at<'a>(
    alloc: Global,
    size: u32,
    depth: u32,
    here: Rest<'a>,
) -> Result<(Built, Rest<'a>), ReadingFault>
    ensures { let read = spec.factor_at size (spec.inside_at size depth) (plains here.now) in MatchResult result (λ x. IsOutcome read (outcome_of x.0) (plains x.1.now)) (IsFault read) }
{
    let (count, rest) = bangs(here);
    let (inner, rest) = operand_at(alloc, size, depth, rest)?;
    let value = negated_times(alloc, count, inner)?;
    Ok((value, rest))
}

/// An operand: what a word begins, or what stands in parentheses.
#[cycle(expr)]
#[tactic(auto, unfolding(crate::specs::Reading::operand_at))]
fn operand_at<'a>(
    alloc: Global,
    size: u32,
    depth: u32,
    here: Rest<'a>,
) -> Result<(Built, Rest<'a>), ReadingFault>
    ensures { let read = spec.operand_at size (spec.inside_at size depth) (plains here.now) in MatchResult result (λ x. IsOutcome read (outcome_of x.0) (plains x.1.now)) (IsFault read) }
{
    let (first, rest) = first_at(size, here)?;
    match first {
        Terminal::Word(word) => worded_at(alloc, size, word, here, rest),
        Terminal::Sign(sign) => operand_of_sign(alloc, size, depth, here, sign, rest),
        _ => Err(refused(size, here)),
    }
}

#[cycle(expr)]
fn operand_of_sign<'a>(
    alloc: Global,
    size: u32,
    depth: u32,
    here: Rest<'a>,
    sign: Sign,
    rest: Rest<'a>,
) -> Result<(Built, Rest<'a>), ReadingFault>
    ensures { let read = spec.operand_of_sign size (spec.inside_at size depth) (plains here.now) (plain_sign sign) (plains rest.now) in MatchResult result (λ x. IsOutcome read (outcome_of x.0) (plains x.1.now)) (IsFault read) }
{
    match sign {
        Sign::LeftParen => paren_at(alloc, size, depth, rest),
        _ => Err(refused(size, here)),
    }
}

/// What stands behind a left parenthesis: the name of code, or an expression.
#[cycle(expr)]
#[tactic(auto, unfolding(crate::specs::Reading::paren_at))]
fn paren_at<'a>(
    alloc: Global,
    size: u32,
    depth: u32,
    here: Rest<'a>,
) -> Result<(Built, Rest<'a>), ReadingFault>
    ensures { let read = spec.paren_at size (spec.inside_at size depth) (plains here.now) in MatchResult result (λ x. IsOutcome read (outcome_of x.0) (plains x.1.now)) (IsFault read) }
{
    let (first, rest) = first_at(size, here)?;
    match first {
        Terminal::Str(token) => named_at(alloc, size, token, rest),
        _ => closed_at(alloc, size, depth, here),
    }
}

/// An expression and the right parenthesis behind it.
#[cycle(expr)]
fn closed_at<'a>(
    alloc: Global,
    size: u32,
    depth: u32,
    here: Rest<'a>,
) -> Result<(Built, Rest<'a>), ReadingFault>
    ensures { let read = spec.closed_at size (spec.inside_at size depth) (plains here.now) in MatchResult result (λ x. IsOutcome read (outcome_of x.0) (plains x.1.now)) (IsFault read) }
{
    let (value, rest) = inside_at(alloc, size, depth, here)?;
    closed(size, value, rest)
}

/// An expression in parentheses, of which so many more may be open.
#[cycle(expr)]
#[tactic(auto, unfolding(crate::specs::Reading::inside_at))]
fn inside_at<'a>(
    alloc: Global,
    size: u32,
    depth: u32,
    here: Rest<'a>,
) -> Result<(Built, Rest<'a>), ReadingFault>
    ensures { let read = spec.inside_at size depth (plains here.now) in MatchResult result (λ x. IsOutcome read (outcome_of x.0) (plains x.1.now)) (IsFault read) }
{
    if depth == 0 {
        return Err(refused(size, here));
    }
    expr_at(alloc, size, depth - 1, here)
}

/// What was built, where a right parenthesis stands behind it.
fn closed<'a>(size: u32, value: Built, here: Rest<'a>) -> Result<(Built, Rest<'a>), ReadingFault>
    ensures { (x : t.Tree) → Tells x (outcome_of value) → (let read = spec.closed size (x, plains here.now) in MatchResult result (λ y. IsOutcome read (outcome_of y.0) (plains y.1.now)) (IsFault read)) }
{
    match close_at(size, here) {
        Ok(rest) => Ok((value, rest)),
        Err(fault) => {
            drop(value);
            Err(fault)
        }
    }
}

/// Code by its name, behind the name.
#[tactic(auto, unfolding(crate::specs::Reading::named_at))]
fn named_at<'a>(
    alloc: Global,
    size: u32,
    token: StrToken<'a>,
    here: Rest<'a>,
) -> Result<(Built, Rest<'a>), ReadingFault>
    ensures { let read = spec.named_at size (str_value token.entry) (plains here.now) in MatchResult result (λ x. IsOutcome read (outcome_of x.0) (plains x.1.now)) (IsFault read) }
{
    let rest = close_at(size, here)?;
    let name = token.value(alloc)?;
    let value = leaf(alloc, Req::NamedCode { name })?;
    Ok((value, rest))
}

/// An operand that a word begins, its keys settled.
fn worded_at<'a>(
    alloc: Global,
    size: u32,
    word: Word,
    here: Rest<'a>,
    rest: Rest<'a>,
) -> Result<(Built, Rest<'a>), ReadingFault>
    ensures { let read = primaries.primary_at size (plain_word word) (plains here.now) (plains rest.now) in MatchResult result (λ x. IsOutcome read (outcome_of x.0) (plains x.1.now)) (IsFault read) }
{
    what_is_read_is_an_operand();
    let (req, rest) = primary_at(alloc, size, word, here, rest)?;
    let value = settled(alloc, req)?;
    Ok((value, rest))
}
