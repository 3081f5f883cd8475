//! Why two threads come to no count.

/// Why two threads come to no count.
#[derive(Clone, Copy, Debug, PartialEq, Eq)]
pub enum CountFault {
    /// There was no memory for the lock.
    OutOfMemory,
    /// There was no ticket left for one of the turns.
    Spent,
}
