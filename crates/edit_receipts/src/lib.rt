//! The receipts of accepted edits: up to 100,000, each found by its key.
#![tactic(auto)]

pub mod receipts;

pub use receipts::{Receipt, Receipts};
