//! A lock of tickets whose value stands for the one history of all turns.
#![tactic(auto)]

mod calls;
pub mod closed;
pub mod fault;
pub mod held;
pub mod lock;
pub mod logged;
pub mod rule;
pub mod seat;
mod steps;
mod waiting;
pub mod work;

pub use closed::{Closed, Shut};
pub use fault::Spent;
pub use held::Held;
pub use lock::{TICKETS, TurnLock};
pub use logged::{Kept, Logged, Names, Origins, Turn, View};
pub use seat::Seat;
pub use work::{Work, with_turn};
