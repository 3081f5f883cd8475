//! The smallest value under a lock: a count of the events of all turns, from where it began.
ghost use Rattle.std.specs.Prelude.{◌≡◌, [], ◌∷◌, ◌+◌, ◌%◌, ◌^◌, IfOk, OnErr};
ghost use Rattle.turn_lock.specs.Views.{HasAll, Tallies, newborn, refused};
ghost use Rattle.turn_lock.specs.Seats.{Acted, IsReady, Knows, SameSeat, known};
ghost use Rattle.turn_count.specs.Counts.{EndsCounting, event_count};

use std::alloc::{AllocError, Global};
use std::sync::Wait;
use turn_lock::{Logged, Seat, Spent, TurnLock, Work, with_turn};

#[derive(Drop)]
pub struct Counter {
    pub count: u64,
}

impl Logged for Counter {
    ghost use Rattle.turn_count.specs.Counts.{Counted};

    type Origin = u64;

    type Event = u64;

    ghost stands = { λ c o turns. Counted c o turns };
}

impl Counter {
    /// A lock over a count of nothing, and its first seat.
    pub fn locked(alloc: Global) -> Result<(TurnLock<Counter>, Seat<u64, u64>), AllocError>
        ensures ready { IfOk result (λ made. IsReady made.1 made.0) }
        ensures seat { IfOk result (λ made. Knows made.1 (newborn 0)) }
        ensures alone { IfOk result (λ made. HasAll (known made.1)) }
    {
        match TurnLock::new(alloc, Counter { count: 0 }) {
            Ok(made) => Ok(made),
            Err(_) => Err(AllocError),
        }
    }
}

/// Counts one event, and answers the count before it.
#[derive(Drop)]
pub struct Counting {
    pub event: u64,
}

impl Work<Counter> for Counting {
    ghost use Rattle.std.specs.Prelude.{◌≡◌, [], ◌∷◌, ◌+◌, ◌%◌, ◌^◌};
    ghost use Rattle.turn_count.specs.Counts.{event_count};

    type Answer = u64;

    ghost needs = { λ w o h n. Unit {0} };

    ghost events = { λ w r. w.event ∷ [] };

    ghost says = { λ w r o h. r ≡ (o + event_count h) % 2 ^ 64 };

    fn work(self, value: &mut Counter) -> u64 {
        let count = value.count;
        value.count = count.wrapping_add(1);
        count
    }
}

/// Counts one event, in a turn of its own. Returns the count of all events before that turn.
#[tactic(auto, using(crate::proofs::SameSeats::acted_seat, crate::proofs::SameSeats::refused_seat))]
pub fn bump<R: Wait>(
    rt: &R,
    lock: &TurnLock<Counter>,
    seat: &mut Seat<u64, u64>,
    event: u64,
) -> Result<u64, Spent>
    requires ready { IsReady seat.old lock.now }
    ensures ready { IsReady seat.new lock.now }
    ensures acted { IfOk result (λ r. Acted (known seat.old) (known seat.new) (event ∷ [])
        (λ o past. r ≡ (o + event_count past) % 2 ^ 64)) }
    ensures spent { OnErr result (Knows seat.new (refused (known seat.old))) }
    ensures seat { SameSeat (known seat.old) (known seat.new) }
    ensures tallies { Tallies (known seat.new) }
{
    with_turn(rt, lock, seat, Counting { event })
}

/// Counts that many events, each in a turn of its own. False where a turn found no ticket left.
pub fn bump_times<R: Wait>(
    rt: &R,
    lock: &TurnLock<Counter>,
    seat: &mut Seat<u64, u64>,
    times: u64,
) -> bool
    requires ready { IsReady seat.old lock.now }
    ensures ready { IsReady seat.new lock.now }
    ensures ends { EndsCounting (known seat.old) (known seat.new) times result }
{
    for event in 0..times {
        if bump(rt, lock, seat, event).is_err() {
            return false;
        }
    }
    true
}
