//! Rules from a file: the edits that its rows ask for.
#![tactic(auto)]

mod fault;
mod file;
pub mod laws;
mod limits;
mod list;
mod row;

pub use fault::ImportFault;
pub use file::read_rules;
pub use limits::MOST_IMPORTED;
pub use list::Edits;
