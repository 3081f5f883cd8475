//! The parts of a set: a word for a kind, `=>` and an expression each.

ghost use Rattle.std.specs.Prelude.{◌≡◌, ◌≤◌, ℕ, List, MatchResult, length};
ghost use Rattle.req_tree.specs.Tree as t;
ghost use Rattle.req_grammar.specs.declared.limits.TheConstants.{MOST_TEXT_BYTES};
ghost use Rattle.req_tokens.specs.Terminals.{plains};
ghost use Rattle.req_primary.specs.Steps.{Gives};
ghost use Rattle.req_parser.specs.Given.{IsFault};
ghost use Rattle.req_parser.specs.GivenParts.{AreMoreParts, AreParts, IsPart, PartsTell};
ghost use Rattle.req_parser.specs.SetReading as spec;

use crate::kinds::kind_of;
use crate::tree::expr_at;
use req_grammar::MOST_OPEN_PARENTHESES;
use req_primary::{Built, ReadingFault, Rest, first_at, refused, sign_at};
use req_tokens::Sign;
use std::alloc::Global;

/// What was built of a part: the number of its kind, 1 to 5, and its requirement.
#[derive(Drop)]
pub(crate) struct Part {
    pub(crate) kind: u32,
    pub(crate) built: Built,
}

/// All terminals as parts.
#[tactic(auto, unfolding(crate::specs::SetReading::parts_at))]
pub(crate) fn parts_at<'a>(alloc: Global, list: Rest<'a>) -> Result<Vec<Part>, ReadingFault>
    requires { length list.now ≤ MOST_TEXT_BYTES }
    ensures { MatchResult result (λ parts. AreParts (spec.parts_at (plains list.now)) parts.items) (IsFault (spec.parts_at (plains list.now))) }
{
    let size = list.len() as u32;
    let mut parts = Vec::new(alloc);
    // All of the list, as what a call has left of it.
    let mut rest = list.split_at(0).1;
    for _ in 0..list.len() {
        if rest.is_empty() {
            return Ok(parts);
        }
        let (more, behind) = with_part(alloc, size, parts, rest)?;
        parts = more;
        rest = behind;
    }
    ended(size, parts, rest)
}

/// The parts, where nothing is left.
fn ended<'a>(size: u32, parts: Vec<Part>, rest: Rest<'a>) -> Result<Vec<Part>, ReadingFault>
    ensures { (some : List (ℕ × t.Tree)) → PartsTell some parts.items → MatchResult result (λ all. AreParts (spec.ended size some (plains rest.now)) all.items) (IsFault (spec.ended size some (plains rest.now))) }
{
    if rest.is_empty() {
        return Ok(parts);
    }
    drop(parts);
    Err(refused(size, rest))
}

/// The parts so far, and one more.
fn with_part<'a>(
    alloc: Global,
    size: u32,
    mut parts: Vec<Part>,
    here: Rest<'a>,
) -> Result<(Vec<Part>, Rest<'a>), ReadingFault>
    ensures { (some : List (ℕ × t.Tree)) → PartsTell some parts.items → MatchResult result (λ x. AreMoreParts (spec.part_at size (plains here.now)) some x.0.items (plains x.1.now)) (IsFault (spec.part_at size (plains here.now))) }
{
    match part_at(alloc, size, here) {
        Ok((part, rest)) => {
            parts.push(part)?;
            Ok((parts, rest))
        }
        Err(fault) => {
            drop(parts);
            Err(fault)
        }
    }
}

/// A part at the front.
#[tactic(auto, unfolding(crate::specs::SetReading::part_at))]
fn part_at<'a>(alloc: Global, size: u32, here: Rest<'a>) -> Result<(Part, Rest<'a>), ReadingFault>
    ensures { let read = spec.part_at size (plains here.now) in MatchResult result (λ x. IsPart read x.0 (plains x.1.now)) (IsFault read) }
{
    let (kind, rest) = kind_at(size, here)?;
    let rest = arrow_at(size, rest)?;
    let (built, rest) = expr_at(alloc, size, MOST_OPEN_PARENTHESES as u32, rest)?;
    Ok((Part { kind, built }, rest))
}

/// The number of the kind that a word at the front names.
#[tactic(auto, unfolding(crate::specs::SetReading::kind_at))]
fn kind_at<'a>(size: u32, here: Rest<'a>) -> Result<(u32, Rest<'a>), ReadingFault>
    ensures { Gives (λ x. (x.0, plains x.1.now)) result (spec.kind_at size (plains here.now)) }
{
    let (first, rest) = first_at(size, here)?;
    let kind = kind_of(first);
    if kind == 0 {
        return Err(refused(size, here));
    }
    Ok((kind, rest))
}

/// What follows a `=>`.
#[tactic(auto, unfolding(crate::specs::SetReading::arrow_at))]
fn arrow_at<'a>(size: u32, here: Rest<'a>) -> Result<Rest<'a>, ReadingFault>
    ensures { Gives (λ x. plains x.now) result (spec.arrow_at size (plains here.now)) }
{
    let (sign, rest) = sign_at(size, here)?;
    match sign {
        Sign::Arrow => Ok(rest),
        _ => Err(refused(size, here)),
    }
}
