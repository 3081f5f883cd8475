//! What a value stands for, and what a seat knows: data of which no value is ever made.
use std::collections::LinkedList;
use std::marker::Brand;

/// A value that stands for an origin and the turns since.
pub trait Logged {
    ghost use Rattle.std.specs.Prelude.{List};
    ghost use Rattle.turn_lock.specs.declared.logged.Turn.{Turn};

    type Origin;

    type Event;

    ghost stands: { Self → Self.Origin → List (Turn Self.Event) → Type 0 };
}

/// The origin, as a call names it.
pub trait Origins<O> {
    ghost use Rattle.std.specs.Prelude.{Option};

    ghost origin: { Option O };
}

impl<O> Origins<O> for Brand {
    ghost use Rattle.std.specs.Prelude.{None};

    ghost origin = { None };
}

/// The events of a turn, as a call names them.
pub trait Names<E> {
    ghost use Rattle.std.specs.Prelude.{List};

    ghost events: { List E };
}

impl<E> Names<E> for Brand {
    ghost use Rattle.std.specs.Prelude.{[]};

    ghost events = { [] };
}

/// One turn: the number of its seat, and its events.
pub struct Turn<E> {
    pub by: u64,
    pub events: LinkedList<E>,
}

/// What a join keeps of the other seat.
pub struct Kept<E> {
    pub number: u64,
    pub step: u64,
    pub turns: LinkedList<Turn<E>>,
    /// What the other had seen.
    pub seen: LinkedList<Turn<E>>,
}

/// What a seat knows. Histories have the oldest turn first.
pub struct View<O, E> {
    pub origin: Option<O>,
    /// A join has left it behind.
    pub gone: bool,
    pub number: u64,
    /// The numbers left for seats that are split from it: number + step, number + 2 step, and so on.
    pub step: u64,
    /// The tickets that were drawn and not yet ended.
    pub tickets: LinkedList<u64>,
    /// It has its turn.
    pub holds: bool,
    /// The history, as far as the seat has seen it.
    pub seen: LinkedList<Turn<E>>,
    /// The seat's own turns.
    pub own: LinkedList<Turn<E>>,
    /// One for each seat that was joined to it.
    pub kept: LinkedList<Kept<E>>,
    /// How often it found no ticket left.
    pub spent: u64,
}
