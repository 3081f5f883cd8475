//! A session: each line of a source is answered by one line into a sink.
#![tactic(auto)]

mod ended;
mod limits;
mod line;
mod reply;
mod responder;
mod session;

pub use ended::Ended;
pub use limits::REPLY_LIMIT;
pub use line::write_line;
pub use responder::Responder;
pub use session::run_session;
