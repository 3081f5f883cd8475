//! What lines ask for fits a line: laws over the definitions, each on a function that does nothing.
#![tactic(auto)]

pub mod laws;
