//! The lock's steps: each is one atomic step on a word, or one exchange of the slot.
ghost use Rattle.std.specs.Prelude.{◌≡◌, ◌≢◌, ◌<◌, ◌≤◌, List, [], ◌∷◌, ◌++◌, Some, None, true, false};
ghost use Rattle.turn_lock.specs.declared.lock.TheConstants.{TICKETS};
ghost use Rattle.turn_lock.specs.Views.{Rests, Tallies, Waits, after, blank, both_of, left_of, refused, right_of};
ghost use Rattle.turn_lock.specs.Seats.{MayEnd};
ghost use Rattle.turn_lock.specs.Steps.{Takes};

use crate::lock::TurnLock;
use crate::logged::{Logged, Names, Origins};
use crate::rule::{Begin, Board, Both, Draw, End, Halves, Learn, Look, Place, See};
use std::sync::Wait;

const NEXT: usize = 0;

const SERVING: usize = 1;

pub(crate) fn begin<T: Logged, N: Origins<T::Origin>>(table: &Board<T>, seat: &mut Place<T>)
    requires same { seat.old.table_id ≡ table.now.shared.table_id }
    requires words { 0 < table.now.shared.table_id.words }
    requires first { seat.old.me ≡ (blank, []) }
    requires stands { (o : T.Origin) × (N.origin ≡ Some o) × T.stands table.now.shared.key.value o [] }
    ensures me { seat.new.me ≡ (record blank { origin = N.origin }, []) }
    ensures same { seat.new.table_id ≡ seat.old.table_id }
{
    table.shared.load::<Begin<N>>(seat, NEXT);
}

impl<T: Logged> TurnLock<T> {
    pub(crate) fn learn(&self, seat: &mut Place<T>)
        requires same { seat.old.table_id ≡ self.now.table.shared.table_id }
        requires live { (o : T.Origin) × (seat.old.me.0.origin ≡ Some o) × (seat.old.me.0.gone ≡ false) }
        ensures same { seat.new.table_id ≡ seat.old.table_id }
        ensures me { seat.new.me ≡ seat.old.me }
        ensures tallies { Tallies seat.old.me.0 }
    {
        self.table.shared.load::<Learn>(seat, NEXT);
    }

    pub(crate) fn look(&self, seat: &mut Place<T>) -> u64
        requires same { seat.old.table_id ≡ self.now.table.shared.table_id }
        requires live { (o : T.Origin) × (seat.old.me.0.origin ≡ Some o) × (seat.old.me.0.gone ≡ false) }
        ensures same { seat.new.table_id ≡ seat.old.table_id }
        ensures spent { TICKETS ≤ result → seat.new.me ≡ (refused seat.old.me.0, seat.old.me.1) }
        ensures room { result < TICKETS → seat.new.me ≡ seat.old.me }
    {
        self.table.shared.load::<Look>(seat, NEXT)
    }

    pub(crate) fn draw(&self, seat: &mut Place<T>, next: u64) -> u64
        requires same { seat.old.table_id ≡ self.now.table.shared.table_id }
        requires live { (o : T.Origin) × (seat.old.me.0.origin ≡ Some o) }
        requires rests { Rests seat.old.me.0 }
        requires room { next < TICKETS }
        ensures same { seat.new.table_id ≡ seat.old.table_id }
        ensures won { result ≡ next
            → seat.new.me ≡ (record seat.old.me.0 { tickets = next ∷ [] }, seat.old.me.1) }
        ensures lost { result ≢ next → seat.new.me ≡ seat.old.me }
    {
        self.table
            .shared
            .compare_exchange::<Draw>(seat, NEXT, next, next + 1)
    }

    /// Whether a seat that drew the ticket `next` now would have to wait.
    pub(crate) fn is_taken(&self, next: u64) -> bool {
        self.table.shared.peek(SERVING) != next
    }

    pub(crate) fn see(&self, seat: &mut Place<T>, ticket: u64) -> u64
        requires same { seat.old.table_id ≡ self.now.table.shared.table_id }
        requires live { (o : T.Origin) × (seat.old.me.0.origin ≡ Some o) }
        requires waits { Waits seat.old.me.0 ticket × (seat.old.me.1 ≡ []) }
        ensures same { seat.new.table_id ≡ seat.old.table_id }
        ensures served { result ≡ ticket → Takes T.stands seat.old.me result seat.new.me }
        ensures waits { result ≢ ticket → seat.new.me ≡ seat.old.me }
    {
        let _ = ticket;
        self.table.shared.load::<See>(seat, SERVING)
    }

    /// Sleeps until `serving` is no longer what was found, or for no reason.
    pub(crate) fn sleep<R: Wait>(&self, rt: &R, found: u64) {
        self.table
            .shared
            .park(rt, SERVING, (found % (1 << 32)) as u32);
    }

    pub(crate) fn take_out(&self, seat: &mut Place<T>) -> T
        requires same { seat.old.table_id ≡ self.now.table.shared.table_id }
        requires full { (x : T) × (seat.old.me.1 ≡ (0, Some x) ∷ []) }
        ensures same { seat.new.table_id ≡ seat.old.table_id }
        ensures me { seat.new.me ≡ (seat.old.me.0, (0, None) ∷ []) }
        ensures value { seat.old.me.1 ≡ (0, Some result) ∷ [] }
    {
        let Some(value) = self.table.shared.exchange(seat, 0, None) else {
            unreachable!()
        };
        value
    }

    pub(crate) fn give(&self, seat: &mut Place<T>, value: T)
        requires same { seat.old.table_id ≡ self.now.table.shared.table_id }
        requires empty { seat.old.me.1 ≡ (0, None) ∷ [] }
        ensures same { seat.new.table_id ≡ seat.old.table_id }
        ensures me { seat.new.me ≡ (seat.old.me.0, (0, Some value) ∷ []) }
    {
        let old = self.table.shared.exchange(seat, 0, Some(value));
        let None = old else { unreachable!() };
    }

    /// Returns the ticket that was served.
    pub(crate) fn end<N: Names<T::Event>>(&self, seat: &mut Place<T>) -> u64
        requires same { seat.old.table_id ≡ self.now.table.shared.table_id }
        requires holds { (seat.old.me.0.gone ≡ false) × (seat.old.me.0.holds ≡ true) }
        requires value { (x : T) × (seat.old.me.1 ≡ (0, Some x) ∷ [])
            × MayEnd T.stands seat.old.me.0 N.events x }
        ensures same { seat.new.table_id ≡ seat.old.table_id }
        ensures me { seat.new.me ≡ (after seat.old.me.0 N.events, []) }
        ensures tallies { Tallies seat.new.me.0 }
    {
        self.table.shared.fetch_add::<End<N>>(seat, SERVING, 1)
    }

    /// Wakes the seats that sleep, if a ticket was drawn after the one that was served.
    pub(crate) fn wake(&self, served: u64) {
        if self.table.shared.peek(NEXT) != served.wrapping_add(1) {
            self.table.shared.wake_all(SERVING);
        }
    }

    pub(crate) fn halve(&self, seat: &mut Place<T>) -> Place<T>
        requires same { seat.old.table_id ≡ self.now.table.shared.table_id }
        requires live { (o : T.Origin) × (seat.old.me.0.origin ≡ Some o) }
        requires rests { Rests seat.old.me.0 }
        ensures same { (seat.new.table_id ≡ seat.old.table_id) × (result.table_id ≡ seat.old.table_id) }
        ensures old { seat.new.me ≡ (left_of seat.old.me.0, seat.old.me.1) }
        ensures new { result.me ≡ (right_of seat.old.me.0, []) }
    {
        self.table.shared.split_seat::<Halves>(seat)
    }

    pub(crate) fn merge(&self, seat: &mut Place<T>, other: Place<T>)
        requires same { seat.old.table_id ≡ self.now.table.shared.table_id }
        requires other_same { other.table_id ≡ self.now.table.shared.table_id }
        requires live { (o : T.Origin) × (seat.old.me.0.origin ≡ Some o) }
        requires other { (o : T.Origin) × (other.me.0.origin ≡ Some o) × (other.me.1 ≡ []) }
        requires rests { Rests seat.old.me.0 × Rests other.me.0 }
        ensures same { seat.new.table_id ≡ seat.old.table_id }
        ensures me { seat.new.me ≡ (both_of seat.old.me.0 other.me.0, seat.old.me.1) }
    {
        self.table.shared.join_seat::<Both>(seat, other)
    }
}
