//! Requirement text cut into tokens, and what the grammar sees of each.
#![tactic(auto)]

mod cutting;
mod fault;
mod front;
pub mod laws;
mod number;
mod part;
mod reach;
mod sort;
mod string;
mod terminal;
mod terminal_reading;
mod token;
mod token_reading;
mod word;

pub use fault::TextFault;
pub use req_grammar::MOST_TEXT_BYTES;
pub use string::StrToken;
pub use terminal::Terminal;
pub use terminal_reading::terminals;
pub use token::{Token, TokenKind, TokenList};
pub use token_reading::tokens;
pub use word::{Sign, Word};
