//! The commands on the rules: edits, an import, the status and the list, by a desk that is lent and a keeper that keeps
//! its tables.
#![tactic(auto)]

mod editing;
mod importing;
mod limits;
mod replies;
mod telling;

pub use editing::edit_line;
pub use importing::import;
pub use limits::MOST_IMPORT_BYTES;
pub use telling::{list, status};
