//! A lock over a value, which many seats take turns at.
//!
//! The lock is a table of two words, `next` and `serving`, and one slot. A seat knows a view: what it has seen of
//! the one history of turns, and which turns are its own. Each step of a seat is one atomic step on a word. Between
//! any two steps, and whichever seats make them, the following holds (`Born` in `specs/Rule.antt`).
//!
//! 1. The words are `next`, which is the next ticket to be drawn, and `serving`, the ticket whose turn it is.
//! 2. `serving` is at most `next`, and `next` is at most 2^63: it never wraps.
//! 3. As many turns are in the history as `serving` says.
//! 4. Each seat has seen the history up to some turn. Its own list is the turns of its number in what it has seen,
//!    and those in the whole history. It has one ticket at most, which was drawn, is not yet ended, and is its own.
//!    Where it holds the value, its ticket is the one that is served, and it has seen the whole history. The
//!    numbers that are left to it have had no turn.
//! 5. No two seats have a number in common.
//! 6. Each ticket that was drawn and is not yet ended is in the list of one seat: its owner's.
//! 7. Each turn of the history is of a seat that was made.
//! 8. Some seat has seen the whole history.
//! 9. The value is in the slot and stands for the origin and the history; or the slot is empty, and the value is in
//!    the hand of a seat whose turn it is.
//! 10. A seat that found no ticket left came after all 2^63 were drawn.
//!
//! A seat that a join has left behind is excepted.
ghost use Rattle.std.specs.Prelude.{◌≡◌};

use crate::logged::Logged;
use crate::rule::Board;

/// How many tickets there are: 2^63.
pub const TICKETS: u64 = 9_223_372_036_854_775_808;

/// A lock over a value, which many seats take turns at.
#[derive(Drop)]
pub struct TurnLock<T: Logged> {
    pub table: Board<T>,
    ghost counts: { (table.shared.table_id.words ≡ 2) × (table.shared.table_id.slots ≡ 1) },
}
