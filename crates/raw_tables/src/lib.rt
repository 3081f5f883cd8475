//! The rows of a store as they stand in it, before anybody has looked whether they mean anything.
#![tactic(auto)]

mod receipt;
mod rule;
mod tables;

pub use receipt::{RawReceipt, RawReceipts};
pub use rule::{RawRule, RawRules};
pub use tables::RawTables;
