//! An assessment that has begun and isn't finished.
#![tactic(auto)]

mod ticket;

pub use ticket::Ticket;
