//! Stored rows read back: the tables that they mean, or the first row that isn't accepted.
#![tactic(auto)]

mod content;
mod fault;
mod fields;
mod numbers;
mod receipt;
mod receipts;
mod requirement;
mod rule;
mod rules;
mod store;

pub use fault::{StoreFault, StoreRow};
pub use store::{StoredTables, read_store};
