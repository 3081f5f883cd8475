//! The text of requirements and of sets of them.
#![tactic(auto)]

mod dumping;
mod field;
mod place;
mod reserved;
mod string;
mod tree;
mod word;
mod writing;

pub use dumping::{dump, dump_set};
