//! A keeper in memory, some of whose calls fail.
#![tactic(auto)]

mod changes;
mod held_rule;
mod held_rules;
mod keeper;
mod kept_rows;
mod kept_rules;
mod rules;
mod span;

pub use keeper::MemoryKeeper;
