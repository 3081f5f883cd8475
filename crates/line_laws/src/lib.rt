//! A content reads back from its canonical text: laws over the definitions, each on a function that does nothing.
#![tactic(auto)]

pub mod laws;
