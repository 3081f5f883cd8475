//! What the parts of a request say: its fields of its body and of the connection, its target of what is asked for, its form of
//! the line in it; and why a request is refused.
#![tactic(auto)]

mod closing;
mod digits;
mod fault;
mod form;
mod length;
mod names;
mod trimming;
mod work;

pub use closing::asks_to_close;
pub use fault::HttpFault;
pub use form::read_form_line;
pub use length::measure;
pub use work::{Work, read_work};
