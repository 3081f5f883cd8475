//! The text of a requirement as the program prints it: definitions, and laws over them.
#![tactic(auto)]

pub mod laws;
