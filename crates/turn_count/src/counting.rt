//! Several threads that count under one lock.
ghost use Rattle.std.specs.Prelude.{◌≡◌, [], ◌∷◌, ◌++◌, ◌+◌, ◌<◌, ◌≤◌, ◌↔◌, ◌&&◌, ℕ, Bool, IsTrue, IfOk, OnOk, IsErrOf, if◌then◌else◌};
ghost use Rattle.std.specs.Thread.{IsSync};
ghost use Rattle.turn_lock.specs.declared.lock.TheConstants.{TICKETS};
ghost use Rattle.turn_lock.specs.Views.{Has, turn_of};
ghost use Rattle.turn_lock.specs.Seats.{IsReady, SameSeat, known};
ghost use Rattle.turn_count.specs.Counts.{EndsCounting, turns_in};

use crate::counter::{Counter, bump, bump_times};
use crate::fault::CountFault;
use std::alloc::Global;
use std::sync::Wait;
use std::thread::{Threads, join_mut};
use turn_lock::{Closed, Seat, TurnLock};

/// The count of a lock that is whole.
pub fn counted(closed: Closed<Counter>) -> Option<u64> {
    match closed {
        Closed::Whole(counter) => Some(counter.count),
        Closed::Stuck { .. } => None,
    }
}

/// Two threads count that many events each. False where one of them found no ticket left.
pub fn in_two<R: Threads + Wait + Sync>(
    rt: &R,
    lock: &TurnLock<Counter>,
    one: &mut Seat<u64, u64>,
    two: &mut Seat<u64, u64>,
    times: u64,
) -> bool
    requires { IsReady one.old lock.now × IsReady two.old lock.now }
    ensures ready { IsReady one.new lock.now × IsReady two.new lock.now }
    ensures ends { (a b : Bool) × (result ≡ (a && b))
        × EndsCounting (known one.old) (known one.new) times a
        × EndsCounting (known two.old) (known two.new) times b }
{
    let (first, second) = join_mut(
        rt,
        &mut || -> bool
            requires { IsSync R.row × IsReady one.now lock.now }
            ensures ready { IsReady one.exit.now lock.entry.now }
            ensures ends { EndsCounting (known one.entry.now) (known one.exit.now) times result }
        { bump_times(rt, lock, one, times) },
        &mut || -> bool
            requires { IsSync R.row × IsReady two.now lock.now }
            ensures ready { IsReady two.exit.now lock.entry.now }
            ensures ends { EndsCounting (known two.entry.now) (known two.exit.now) times result }
        { bump_times(rt, lock, two, times) },
    );
    first & second
}

/// Four threads count that many events each. False where one of them found no ticket left.
pub fn in_four<R: Threads + Wait + Sync>(
    rt: &R,
    lock: &TurnLock<Counter>,
    one: &mut Seat<u64, u64>,
    two: &mut Seat<u64, u64>,
    three: &mut Seat<u64, u64>,
    four: &mut Seat<u64, u64>,
    times: u64,
) -> bool
    requires front { IsReady one.old lock.now × IsReady two.old lock.now }
    requires back { IsReady three.old lock.now × IsReady four.old lock.now }
    ensures front { IsReady one.new lock.now × IsReady two.new lock.now }
    ensures back { IsReady three.new lock.now × IsReady four.new lock.now }
    ensures ends { (a b c d : Bool) × (result ≡ ((a && b) && (c && d)))
        × EndsCounting (known one.old) (known one.new) times a
        × EndsCounting (known two.old) (known two.new) times b
        × EndsCounting (known three.old) (known three.new) times c
        × EndsCounting (known four.old) (known four.new) times d }
{
    let (front, back) = join_mut(
        rt,
        &mut || -> bool
            requires { IsSync R.row × IsReady one.now lock.now × IsReady two.now lock.now }
            ensures ready { IsReady one.exit.now lock.entry.now × IsReady two.exit.now lock.entry.now }
            ensures ends { (a b : Bool) × (result ≡ (a && b))
                × EndsCounting (known one.entry.now) (known one.exit.now) times a
                × EndsCounting (known two.entry.now) (known two.exit.now) times b }
        { in_two(rt, lock, one, two, times) },
        &mut || -> bool
            requires { IsSync R.row × IsReady three.now lock.now × IsReady four.now lock.now }
            ensures ready { IsReady three.exit.now lock.entry.now × IsReady four.exit.now lock.entry.now }
            ensures ends { (a b : Bool) × (result ≡ (a && b))
                × EndsCounting (known three.entry.now) (known three.exit.now) times a
                × EndsCounting (known four.entry.now) (known four.exit.now) times b }
        { in_two(rt, lock, three, four, times) },
    );
    front & back
}

/// What two threads count, that many events each.
pub fn count_of_two<R: Threads + Wait + Sync>(
    rt: &R,
    alloc: Global,
    times: u64,
) -> Result<u64, CountFault>
    ensures counted { IfOk result (λ count. count ≡ times + times) }

    // Unless memory runs out, the turns are refused exactly where there are more of them than tickets.
    ensures within { OnOk result (times + times ≤ TICKETS) }
    ensures spent { IsErrOf result CountFault.Spent → TICKETS < times + times }
{
    let Ok((lock, mut one)) = Counter::locked(alloc) else {
        return Err(CountFault::OutOfMemory);
    };
    let mut two = lock.split(&mut one);
    let counted = in_two(rt, &lock, &mut one, &mut two, times);
    lock.join(&mut one, two);
    match lock.close(one) {
        Closed::Whole(counter) if counted => Ok(counter.count),
        Closed::Whole(_) => Err(CountFault::Spent),
        Closed::Stuck { .. } => unreachable!(),
    }
}

/// What four threads count, that many events each; none if memory or the tickets run out.
pub fn count_of_four<R: Threads + Wait + Sync>(rt: &R, alloc: Global, times: u64) -> Option<u64> {
    let (lock, mut one) = Counter::locked(alloc).ok()?;
    let mut two = lock.split(&mut one);
    let mut three = lock.split(&mut one);
    let mut four = lock.split(&mut two);
    if !in_four(rt, &lock, &mut one, &mut two, &mut three, &mut four, times) {
        return None;
    }
    lock.join(&mut one, two);
    lock.join(&mut three, four);
    lock.join(&mut one, three);
    counted(lock.close(one))
}

/// Splits a seat off, which does the same with one generation fewer, counts one event, and joins
/// them again.
pub fn in_generations<R: Wait>(
    rt: &R,
    lock: &TurnLock<Counter>,
    seat: &mut Seat<u64, u64>,
    generations: u64,
) -> bool
    requires { IsReady seat.old lock.now }
    ensures ready { IsReady seat.new lock.now }
    ensures numbers { (n : ℕ) → Has (known seat.old) n → Has (known seat.new) n }

    // Each generation's event is a turn or a refusal, and true is without a refusal.
    ensures tries { turns_in (known seat.new) + (known seat.new).spent
        ≡ turns_in (known seat.old) + (known seat.old).spent + (generations + 1) }
    ensures later { (known seat.old).spent ≤ (known seat.new).spent }
    ensures refused { IsTrue result ↔ ((known seat.new).spent ≡ (known seat.old).spent) }
    ensures own { IsTrue result → (known seat.new).own
        ≡ (known seat.old).own ++ turn_of (known seat.old) (generations ∷ []) ∷ [] }
{
    if generations == 0 {
        return counts_one(rt, lock, seat, 0);
    }
    let mut other = lock.split(seat);
    let theirs = in_generations(rt, lock, &mut other, generations - 1);
    let ours = counts_one(rt, lock, seat, generations);
    lock.join(seat, other);
    theirs & ours
}

// Counts one event. False where it found no ticket left.
fn counts_one<R: Wait>(
    rt: &R,
    lock: &TurnLock<Counter>,
    seat: &mut Seat<u64, u64>,
    event: u64,
) -> bool
    requires { IsReady seat.old lock.now }
    ensures ready { IsReady seat.new lock.now }
    ensures seat { SameSeat (known seat.old) (known seat.new) }
    ensures turns { turns_in (known seat.new)
        ≡ turns_in (known seat.old) + (if result then 1 else 0) }
    ensures spent { (known seat.new).spent ≡ (known seat.old).spent + (if result then 0 else 1) }
    ensures own { IsTrue result → (known seat.new).own
        ≡ (known seat.old).own ++ turn_of (known seat.old) (event ∷ []) ∷ [] }
{
    bump(rt, lock, seat, event).is_ok()
}
