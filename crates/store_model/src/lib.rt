//! What a store of the desk's tables holds: its rows, which of them are accepted, and what they mean.
#![tactic(auto)]

pub mod laws;
pub mod limits;
