//! Callers of the turn lock: a value that counts, threads that take turns at it, and seats that are split and joined.
#![tactic(auto)]

pub mod counter;
pub mod counting;
pub mod fault;
pub mod sharing;

pub use counter::{Counter, Counting, bump, bump_times};
pub use counting::{count_of_four, count_of_two, counted, in_four, in_generations, in_two};
pub use fault::CountFault;
pub use sharing::{close_there, two_around};
