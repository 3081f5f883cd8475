//! Operands of requirement text that have no subtrees, read from terminals, and what a requirement is built from.
#![tactic(auto)]

mod anchor;
mod built;
mod fault;
mod key;
pub mod laws;
mod meaning;
mod number;
mod operand;
mod plain;
mod primary;
mod step;
mod test;

pub use built::{Built, both_of, either_of, leaf, negated_times};
pub use fault::ReadingFault;
pub use meaning::{is_bad_key, settled};
pub use operand::{Operand, PlainReq};
pub use primary::primary_at;
pub use step::{Rest, close_at, cut, first_at, place, refused, sign_at};
