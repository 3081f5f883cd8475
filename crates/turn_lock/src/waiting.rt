//! Waiting for a turn: a seat draws a ticket, and sleeps until it is served.
ghost use Rattle.std.specs.Prelude.{◌≡◌, ◌<◌, ◌^◌, [], ◌∷◌, Some, IfOk, OnErr, false};
ghost use Rattle.turn_lock.specs.Views.{Rests, Waits, refused};
ghost use Rattle.turn_lock.specs.Steps.{Takes};
ghost use Rattle.turn_lock.specs.Seats.{HasBegun, IsLent, IsOut, IsReady, IsRefused, known};

use crate::fault::Spent;
use crate::lock::{TICKETS, TurnLock};
use crate::logged::Logged;
use crate::rule::Place;
use crate::seat::Seat;
use atomic_table::Badge;
use crossbeam_utils::Backoff;
use std::mem;
use std::sync::Wait;

// A seat that finds the lock taken gives it some time before it stands in line, since whoever
// stands in line may sleep, and then the turns of all others wait for it to wake.
pub(crate) fn draw<R: Wait, T: Logged>(
    rt: &R,
    lock: &TurnLock<T>,
    place: &mut Place<T>,
) -> Result<u64, Spent>
    requires same { place.old.table_id ≡ lock.now.table.shared.table_id }
    requires live { (o : T.Origin) × (place.old.me.0.origin ≡ Some o) }
    requires rests { Rests place.old.me.0 }
    ensures same { place.new.table_id ≡ place.old.table_id }
    ensures drawn { IfOk result
        (λ t. place.new.me ≡ (record place.old.me.0 { tickets = t ∷ [] }, place.old.me.1)) }
    ensures spent { OnErr result (place.new.me ≡ (refused place.old.me.0, place.old.me.1)) }
{
    let backoff = Backoff::new();
    let mut drawn = None;
    for _ in rt.forever() {
        let next = lock.look(place);
        if next >= TICKETS {
            break;
        }
        if lock.is_taken(next) && !backoff.is_completed() {
            backoff.snooze();
        } else if lock.draw(place, next) == next {
            drawn = Some(next);
            break;
        }
    }
    drawn.ok_or(Spent)
}

pub(crate) fn wait<R: Wait, T: Logged>(
    rt: &R,
    lock: &TurnLock<T>,
    place: &mut Place<T>,
    ticket: u64,
)
    requires same { place.old.table_id ≡ lock.now.table.shared.table_id }
    requires live { (o : T.Origin) × (place.old.me.0.origin ≡ Some o) }
    requires waits { Waits place.old.me.0 ticket × (place.old.me.1 ≡ []) }
    ensures same { place.new.table_id ≡ place.old.table_id }
    ensures takes { Takes T.stands place.old.me ticket place.new.me }
{
    let backoff = Backoff::new();
    for _ in rt.forever() {
        let found = lock.see(place, ticket);
        if found == ticket {
            break;
        }
        if backoff.is_completed() {
            lock.sleep(rt, found);
        } else {
            backoff.snooze();
        }
    }
}

// Takes a turn, and the value with it. Meanwhile the seat is blank.
#[tactic(auto, using(crate::proofs::AfterACall::ready, crate::proofs::AfterACall::tallies_known))]
pub(crate) fn take_turn<R: Wait, T: Logged>(
    seat: &mut Seat<T::Origin, T::Event>,
    rt: &R,
    lock: &TurnLock<T>,
) -> Result<(Place<T>, T), Spent>
    requires ready { IsReady seat.old lock.now }
    ensures begun { IfOk result (λ r. HasBegun T.stands (known seat.old) r.0.me.0 r.1) }
    ensures out { IfOk result (λ r. IsOut r.0 lock.now) }
    ensures lent { IfOk result (λ r. IsLent seat.new) }
    ensures spent { OnErr result (IsRefused (known seat.old) seat.new lock.now) }
{
    let badge = mem::replace(&mut seat.badge, Badge::blank());
    let mut place = badge.into_seat::<Option<T>>();
    match draw(rt, lock, &mut place) {
        Ok(ticket) => {
            wait(rt, lock, &mut place, ticket);
            let value = lock.take_out(&mut place);
            Ok((place, value))
        }
        Err(spent) => {
            lock.learn(&mut place);
            seat.badge = place.into_badge();
            Err(spent)
        }
    }
}
