//! What follows of all sessions: laws over the definitions, each on a function that does nothing.
#![tactic(auto)]

pub mod laws;
