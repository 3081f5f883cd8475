//! A desk that answers the lines of a session.
#![tactic(auto)]

mod answering;
mod editing;
mod finishing;
mod lines;
mod request;
mod session;
mod slots;
mod status;

pub use session::session_lines;
