//! Which outcomes a desk keeps, and that each that is kept is still what the rules say.
#![tactic(auto)]

pub mod laws;
pub mod limits;
