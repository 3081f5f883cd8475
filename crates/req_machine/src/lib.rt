//! How far terminals can be read: a machine with a list of open symbols, and what it takes off. Definitions, and laws over
//! them: what it takes off is the longest front that some text goes on from.
#![tactic(auto)]

pub mod laws;
