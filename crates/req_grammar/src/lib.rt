//! Which texts are requirements, and of which tree: definitions, and laws over them.
#![tactic(auto)]

pub mod laws;
mod limits;

pub use limits::{MOST_OPEN_PARENTHESES, MOST_TEXT_BYTES};
