//! The records of a CSV text in memory, one after another.
#![tactic(auto)]

pub mod laws;
mod records;

pub use csv::ByteRecord;
pub use records::{next_record, records_of};
