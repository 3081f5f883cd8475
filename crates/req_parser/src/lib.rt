//! Requirement text as requirements and sets of them: the first fault, or the tree of the grammar's only reading.
#![tactic(auto)]

mod bad_key;
mod chain;
mod gathering;
mod kinds;
pub mod laws;
mod open;
mod parsing;
mod parts;
mod set_parsing;
mod tree;

pub use parsing::parse;
pub use req_tokens::{TextFault, Token, TokenKind, TokenList, tokens};
pub use set_parsing::parse_set;
