//! What the words of a line stand for, and what they say in their places: definitions.
#![tactic(auto)]

pub mod limits;
