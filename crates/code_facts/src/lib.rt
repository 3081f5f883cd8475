//! The facts file: what is known of code by its cdhash.
#![tactic(auto)]

mod fault;
mod file;
mod growing;
pub mod laws;
mod limits;
mod record;
mod row;
mod scope;
mod slot;
mod table;
mod words;

pub use fact_values::{FactFlag, Facts, Place, Texts, Value, numeric_cmp};
pub use fault::FactFault;
pub use limits::MOST_ROWS;
pub use table::FactTable;
