//! Text that a program prints: a line under construction, and bytes as they were given.
#![tactic(auto)]

mod bytes;
mod limits;
mod line;

pub use bytes::Bytes;
pub use limits::{FRONT_LIMIT, LINE_HELD, LINE_LIMIT, LINE_ROOM};
pub use line::LineText;
