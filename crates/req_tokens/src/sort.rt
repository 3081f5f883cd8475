//! What the front of a text is, told by its first bytes.

ghost use Rattle.std.specs.Prelude.{◌≡◌, ◌∷◌, ◌||◌, [], nat_eq, codes};
ghost use Rattle.std.specs.Option.{option_map};
ghost use Rattle.std.specs.List.{starts_with};
ghost use Rattle.req_grammar.specs.Sorts as sorts;
ghost use Rattle.req_tokens.specs.Sorts.{plain_sort, kind_in};
ghost use Rattle.req_tokens.specs.Tokens.{kind_of};

use crate::reach::begins;
use crate::token::TokenKind;

/// A token of one of six kinds, or one of three things that are dropped.
#[derive(Clone, Copy, Drop)]
pub(crate) enum Sort {
    Hash,
    Hex,
    Integer,
    Word,
    Quoted,
    Symbol,
    Blank,
    Block,
    Line,
}

/// The kind of the token; none for what is dropped.
pub(crate) fn kind_at(sort: Sort) -> Option<TokenKind>
    ensures { option_map kind_of result ≡ kind_in (plain_sort sort) }
{
    match sort {
        Sort::Hash => Some(TokenKind::Hash),
        Sort::Hex => Some(TokenKind::Hex),
        Sort::Integer => Some(TokenKind::Integer),
        Sort::Word => Some(TokenKind::Word),
        Sort::Quoted => Some(TokenKind::Quoted),
        Sort::Symbol => Some(TokenKind::Symbol),
        Sort::Blank | Sort::Block | Sort::Line => None,
    }
}

pub(crate) fn sort_of(text: &[u8]) -> Sort
    ensures { plain_sort result ≡ sorts.sort_of text.now }
{
    match text.split_first() {
        Some((byte, after)) => sort_by(*byte, after),
        None => Sort::Symbol,
    }
}

#[tactic(auto, unfolding(req_grammar::specs::Sorts::sort_of))]
fn sort_by(byte: u8, after: &[u8]) -> Sort
    ensures { plain_sort result ≡ sorts.sort_of (byte ∷ after.now) }
{
    if begins(byte, after, b'H', b'"') {
        Sort::Hash
    } else if begins(byte, after, b'0', b'x') {
        Sort::Hex
    } else if byte.is_ascii_digit() {
        Sort::Integer
    } else if byte.is_ascii_alphabetic() {
        Sort::Word
    } else if b'"' == byte {
        Sort::Quoted
    } else if is_blank(byte) {
        Sort::Blank
    } else if begins(byte, after, b'/', b'*') {
        Sort::Block
    } else if begins_line(byte, after) {
        Sort::Line
    } else {
        Sort::Symbol
    }
}

/// Whether a text begins with `//` or `#`.
fn begins_line(byte: u8, after: &[u8]) -> bool
    ensures { result ≡ (starts_with nat_eq (byte ∷ after.now) (codes "//") || starts_with nat_eq (byte ∷ after.now) (codes "#")) }
{
    begins(byte, after, b'/', b'/') || b'#' == byte
}

/// Whether a byte alone is dropped: a space, a tab, a LF or a CR.
fn is_blank(byte: u8) -> bool
    ensures { result ≡ sorts.is_blank byte }
{
    byte == b' ' || byte == b'\t' || byte == b'\n' || byte == b'\r'
}
