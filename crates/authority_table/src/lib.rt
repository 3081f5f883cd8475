//! The rules of the desk, and which of them decides.
#![tactic(auto)]

mod ends;
mod fault;
mod first_rules;
mod found;
mod prepared;
mod rules;
mod table;
mod tally;
mod touched;

pub use ends::{default_until, governed_until};
pub use fault::PlanFault;
pub use found::Found;
pub use prepared::Prepared;
pub use rules::Rules;
pub use table::Table;
