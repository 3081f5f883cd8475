//! Rules in memory: a list of them with the marks of their labels, and how both are changed in place.
#![tactic(auto)]

pub mod changes;
mod held_rule;
mod removal;
mod rooms;
mod span;

pub use held_rule::HeldRule;
pub use rooms::{Room, pushed, reserve_mark, room_behind};
pub use span::{rises_with, span_of};
