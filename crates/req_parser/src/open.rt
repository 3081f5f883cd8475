//! Parentheses that are open at once.

ghost use Rattle.std.specs.Prelude.{◌≡◌, ◌≤◌, length};
ghost use Rattle.req_grammar.specs.declared.limits.TheConstants.{MOST_TEXT_BYTES};
ghost use Rattle.req_tokens.specs.Terminals.{plain, plains};
ghost use Rattle.req_tokens.specs.Words.{plain_sign};
ghost use Rattle.req_parser.specs.Open as spec;

use req_grammar::MOST_OPEN_PARENTHESES;
use req_primary::Rest;
use req_tokens::{Sign, Terminal};

/// Whether in no front of the terminals more left parentheses are open than may be.
pub(crate) fn has_few_open<'a>(list: Rest<'a>) -> bool
    requires { length list.now ≤ MOST_TEXT_BYTES }
    ensures { result ≡ spec.few_open 0 0 (plains list.now) }
{
    let mut left = 0usize;
    let mut right = 0usize;
    for terminal in list {
        if left > MOST_OPEN_PARENTHESES + right {
            return false;
        }
        let (more, others) = sides(*terminal);
        left += more;
        right += others;
    }
    left <= MOST_OPEN_PARENTHESES + right
}

/// Whether a terminal is a left parenthesis, or a right one, as numbers.
fn sides(terminal: Terminal<'_>) -> (usize, usize)
    ensures sides { result ≡ spec.sides (plain terminal.entry) }
    ensures left { result.0 ≤ 1 }
    ensures right { result.1 ≤ 1 }
{
    match terminal {
        Terminal::Sign(sign) => sides_of(sign),
        _ => (0, 0),
    }
}

fn sides_of(sign: Sign) -> (usize, usize)
    ensures sides { result ≡ spec.sides_of (plain_sign sign) }
    ensures left { result.0 ≤ 1 }
    ensures right { result.1 ≤ 1 }
{
    match sign {
        Sign::LeftParen => (1, 0),
        Sign::RightParen => (0, 1),
        _ => (0, 0),
    }
}
