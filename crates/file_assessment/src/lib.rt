//! The command `assess`: a signature file, and the code file where one is named, assessed at the time of the clock.
#![tactic(auto)]

mod assessing;
pub mod laws;
mod limits;

pub use assessing::assess;
