//! What each command but a session says, over the facts and the store of its run.
#![tactic(auto)]

mod halt;
pub mod laws;
mod on_files;
mod on_tables;

pub use halt::{Halt, unopened};
pub use on_files::said_of_files;
pub use on_tables::said_of_tables;
