//! The one refusal of the lock.

/// There is no ticket left: a load of `next` found `TICKETS`.
#[derive(Clone, Copy, Debug, PartialEq, Eq)]
pub struct Spent;
