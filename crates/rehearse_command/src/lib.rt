//! The command `rehearse`: a made-up session is answered by a new desk, and its replies are counted.
#![tactic(auto)]

mod limits;
mod rehearsing;

pub use rehearsing::rehearse;
