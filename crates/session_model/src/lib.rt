//! What a line asks for, and what a session is: definitions, and laws over them.
#![tactic(auto)]

pub mod laws;
pub mod limits;
