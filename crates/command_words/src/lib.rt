//! The words of the command line: which command they ask for, of which store and with which facts.
#![tactic(auto)]

mod arguments;
mod command;
mod limits;
mod reading;
mod table;

pub use command::{Command, CommandLine, FileCommand, TableCommand, WordsFault};
pub use limits::MOST_STEPS;
pub use reading::{read_words, store_word};
