//! What the desk promises: rules, verdicts, edits, histories, lines and replies as plain data.
#![tactic(auto)]

pub mod laws;
pub mod limits;
