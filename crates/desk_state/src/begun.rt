//! How an assessment begins.

use crate::verdict::Verdict;
use desk_ticket::Ticket;

/// An assessment that is answered at once, or one that is to be judged.
#[derive(Drop)]
pub enum Begun {
    /// The code has no usable signature, or an outcome is kept for it.
    Known(Verdict),
    /// The rules are to be asked.
    Pending(Ticket),
}
