//! Operators and negations.

ghost use Rattle.std.specs.Prelude.{◌≡◌, option_map};
ghost use Rattle.req_tokens.specs.Terminals.{plain, plains};
ghost use Rattle.req_tokens.specs.Words.{plain_sign, plain_word};
ghost use Rattle.req_parser.specs.Reading as spec;

use req_primary::{Rest, cut};
use req_tokens::{Sign, Terminal, Word};

/// The reserved word at the front and what follows it, where one stands there.
pub(crate) fn word_first<'a>(here: Rest<'a>) -> Option<(Word, Rest<'a>)>
    ensures { option_map (λ x. (plain_word x.0, plains x.1.now)) result ≡ spec.word_first (plains here.now) }
{
    let (first, rest) = cut(here)?;
    match first {
        Terminal::Word(word) => Some((word, rest)),
        _ => None,
    }
}

/// What follows an `and`, where one stands there.
#[tactic(auto, unfolding(crate::specs::Reading::and_at))]
pub(crate) fn and_at<'a>(here: Rest<'a>) -> Option<Rest<'a>>
    ensures { option_map (λ x. plains x.now) result ≡ spec.and_at (plains here.now) }
{
    let (word, rest) = word_first(here)?;
    match word {
        Word::And => Some(rest),
        _ => None,
    }
}

/// What follows an `or`, where one stands there.
#[tactic(auto, unfolding(crate::specs::Reading::or_at))]
pub(crate) fn or_at<'a>(here: Rest<'a>) -> Option<Rest<'a>>
    ensures { option_map (λ x. plains x.now) result ≡ spec.or_at (plains here.now) }
{
    let (word, rest) = word_first(here)?;
    match word {
        Word::Or => Some(rest),
        _ => None,
    }
}

/// How many `!` stand at the front, and what follows them.
pub(crate) fn bangs<'a>(here: Rest<'a>) -> (usize, Rest<'a>)
    ensures count { result.0 ≡ (spec.bangs (plains here.now)).0 }
    ensures rest { plains result.1.now ≡ (spec.bangs (plains here.now)).1 }
{
    for (count, terminal) in here.iter().enumerate() {
        if !is_bang(*terminal) {
            return (count, here.split_at(count).1);
        }
    }
    (here.len(), &[])
}

fn is_bang(terminal: Terminal<'_>) -> bool
    ensures { result ≡ spec.is_bang (plain terminal.entry) }
{
    match terminal {
        Terminal::Sign(sign) => is_bang_sign(sign),
        _ => false,
    }
}

fn is_bang_sign(sign: Sign) -> bool
    ensures { result ≡ spec.is_bang_sign (plain_sign sign) }
{
    match sign {
        Sign::Bang => true,
        _ => false,
    }
}
