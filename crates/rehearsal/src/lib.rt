//! A rehearsal: a session that is made up from a number, and the counts over its replies.
#![tactic(auto)]

mod course;
mod draft;
mod facts;
mod hash;
pub mod laws;
mod line;
mod pieces;
mod saying;
mod session;
mod step;
mod tally;

pub use course::Rehearsal;
pub use facts::facts_text;
pub use session::session_text;
pub use tally::Tally;
