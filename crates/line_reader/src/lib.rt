//! A source cut into lines: read in pieces, with a bounded front of each line held.
#![tactic(auto)]

mod find;
mod held_line;
pub mod laws;
mod limits;
mod line_read;
mod reader;

pub use limits::{SESSION_BYTES, SESSION_LINES};
pub use line_read::LineRead;
pub use reader::LineReader;
