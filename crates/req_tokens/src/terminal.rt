//! What the grammar sees of a token.

ghost use Rattle.std.specs.Prelude.{◌≡◌, true};
ghost use Rattle.req_grammar.specs.Terminals as grammar;
ghost use Rattle.req_grammar.specs.Tokens as kinds;
ghost use Rattle.req_grammar.specs.Tokens.{is_hash, is_integer};
ghost use Rattle.req_tokens.specs.Tokens.{kind_of};
ghost use Rattle.req_tokens.specs.Terminals.{plain, is_kind};

use crate::number::number_of;
use crate::part::{behind, first};
use crate::string::{Form, StrToken};
use crate::token::TokenKind;
use crate::word::{Sign, Word, sign_of, word_of};
use req_tree::{Hash20, read_hash};

/// A symbol, a reserved word, a string, a hash or an integer: one for each token. It takes no memory.
#[derive(Clone, Copy, Drop)]
pub enum Terminal<'a> {
    Sign(Sign),
    Word(Word),
    Str(StrToken<'a>),
    Hash(Hash20),
    /// At most 2147483648.
    Int(u32),
}

/// The terminal of a token, by its kind and its text.
pub(crate) fn terminal_of(kind: TokenKind, text: &[u8]) -> Terminal<'_>
    requires { is_kind (kind_of kind) text.now ≡ true }
    ensures { plain result ≡ grammar.terminal_of (kind_of kind) text.now }
{
    match kind {
        TokenKind::Symbol => symbol_terminal(text),
        TokenKind::Hash => hash_terminal(text),
        TokenKind::Hex => Terminal::Str(StrToken::of(Form::Hex, text)),
        TokenKind::Integer => int_terminal(text),
        TokenKind::Quoted => Terminal::Str(StrToken::of(Form::Quoted, text)),
        TokenKind::Word => word_terminal(text),
    }
}

fn symbol_terminal(text: &[u8]) -> Terminal<'_>
    ensures { plain result ≡ grammar.terminal_of kinds.symbol text.now }
{
    match sign_of(text) {
        Some(sign) => Terminal::Sign(sign),
        None => Terminal::Str(StrToken::of(Form::Bare, text)),
    }
}

fn word_terminal(text: &[u8]) -> Terminal<'_>
    ensures { plain result ≡ grammar.terminal_of kinds.word text.now }
{
    match word_of(text) {
        Some(word) => Terminal::Word(word),
        None => Terminal::Str(StrToken::of(Form::Bare, text)),
    }
}

/// The hash of the 40 digits behind `H"`.
fn hash_terminal(text: &[u8]) -> Terminal<'_>
    requires { is_hash text.now ≡ true }
    ensures { plain result ≡ grammar.terminal_of kinds.hash text.now }
{
    match read_hash(first(behind(text, 2), 40)) {
        Some(hash) => Terminal::Hash(hash),
        None => Terminal::Str(StrToken::of(Form::Bare, text)),
    }
}

fn int_terminal(text: &[u8]) -> Terminal<'_>
    requires { is_integer text.now ≡ true }
    ensures { plain result ≡ grammar.terminal_of kinds.integer text.now }
{
    Terminal::Int(number_of(text) as u32)
}
