//! The limits of all that is read, kept and written, each with its number: a limit that changes is refused here.
#![tactic(auto)]

pub mod laws;
