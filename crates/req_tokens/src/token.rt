//! Tokens by their kind and place.

ghost use Rattle.std.specs.Prelude.{◌≡◌, [], ◌∷◌, ◌++◌, OnOk, OnErr};

use std::alloc::{AllocError, Global};
use std::marker::Model;

/// What a token is.
#[derive(Clone, Copy, Drop, PartialEq, Eq)]
pub enum TokenKind {
    Symbol,
    /// `H"`, 40 hexadecimal digits and `"`.
    Hash,
    /// `0x` and bytes as hexadecimal digits.
    Hex,
    Integer,
    Quoted,
    /// A word with or without dots, reserved or not.
    Word,
}

/// A token: the place of its first byte in the text, and how many bytes it has.
#[derive(Clone, Copy, Drop, PartialEq, Eq)]
pub struct Token {
    pub kind: TokenKind,
    pub at: u32,
    pub length: u32,
}

/// The tokens of a text, in their order.
#[derive(Drop)]
pub struct TokenList {
    tokens: Vec<Token>,
}

impl Model for TokenList {
    ghost use Rattle.std.specs.Prelude.{List};
    ghost use Rattle.req_tokens.specs.declared.token.Token.{Token};

    ghost Value = { List Token };

    ghost view = { λ list. list.tokens.items };
}

impl TokenList {
    /// No tokens.
    pub fn new(alloc: Global) -> TokenList
        ensures { result ≡ [] }
    {
        TokenList {
            tokens: Vec::new(alloc),
        }
    }

    /// Adds a token behind all others; where there is no memory, nothing changes.
    pub fn push(&mut self, token: Token) -> Result<(), AllocError>
        ensures ok { OnOk result (self.new ≡ self.old ++ token ∷ []) }
        ensures err { OnErr result (self.new ≡ self.old) }
    {
        self.tokens.push(token)?;
        Ok(())
    }

    pub fn as_slice(&self) -> &[Token]
        ensures { result.now ≡ self.now }
    {
        self.tokens.as_slice()
    }
}
