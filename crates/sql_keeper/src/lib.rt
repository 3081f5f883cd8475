//! The desk's tables in a SQLite store, and the keeper that a program names by its store.
#![tactic(auto)]

mod fault;
mod keeper;
mod program_keeper;
mod reading;
mod statements;

pub use keeper::SqlKeeper;
pub use program_keeper::ProgramKeeper;
