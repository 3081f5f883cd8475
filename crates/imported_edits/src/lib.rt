//! What the rows of an import leave in a store: laws over the definitions, each on a function that does nothing.
#![tactic(auto)]

pub mod laws;
