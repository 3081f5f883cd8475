//! Words for kinds of requirements, and the first that stands twice.

ghost use Rattle.std.specs.Prelude.{◌≡◌, ◌≤◌, ◌<◌, length, MatchOption};
ghost use Rattle.req_grammar.specs.declared.limits.TheConstants.{MOST_TEXT_BYTES};
ghost use Rattle.req_tokens.specs.Terminals.{plain, plains};
ghost use Rattle.req_tokens.specs.Words.{plain_word};
ghost use Rattle.req_parser.specs.Kinds as spec;

use req_primary::Rest;
use req_tokens::{Terminal, Word};

/// The place of the first word for a kind that stands before it too.
pub(crate) fn first_repeated<'a>(list: Rest<'a>) -> Option<u32>
    requires { length list.now ≤ MOST_TEXT_BYTES }
    ensures { result ≡ spec.first_repeated (plains list.now) }
{
    let mut seen = [false; 6];
    for (at, terminal) in list.iter().enumerate() {
        let kind = kind_of(*terminal) as usize;
        if seen[kind] {
            return Some(at as u32);
        }
        seen[kind] = kind > 0;
    }
    None
}

/// The number of the kind that a terminal names, 1 to 5, or 0.
pub(crate) fn kind_of(terminal: Terminal<'_>) -> u32
    ensures is { result ≡ spec.kind_of (plain terminal.entry) }
    ensures small { result < 6 }
{
    match terminal {
        Terminal::Word(word) => kind_of_word(word),
        _ => 0,
    }
}

fn kind_of_word(word: Word) -> u32
    ensures is { result ≡ spec.kind_of_word (plain_word word) }
    ensures small { result < 6 }
{
    match word {
        Word::Host => 1,
        Word::Guest => 2,
        Word::Designated => 3,
        Word::Library => 4,
        Word::Plugin => 5,
        _ => 0,
    }
}
