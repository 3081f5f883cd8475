//! The top call: all that the program does.
#![tactic(auto)]

mod conclusion;
mod last_line;
mod obeying;
mod program;
mod session;
mod speaking;

pub use program::run;
pub use run_status::Status;
