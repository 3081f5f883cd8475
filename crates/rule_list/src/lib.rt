//! The text of all rules, as an administrator reads it.
#![tactic(auto)]

pub mod laws;
mod list;
mod row_text;
mod word;

pub use list::list_text;
