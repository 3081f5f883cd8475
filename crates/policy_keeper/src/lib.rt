//! What keeps the rows of the desk's tables: a load gives them all, and each accepted edit is one change of them.
#![tactic(auto)]

mod change;
mod fault;
mod keeper;
pub mod laws;

pub use change::{Change, added_rule, expiry_number, kind_number};
pub use fault::KeepFault;
pub use keeper::Keeper;
