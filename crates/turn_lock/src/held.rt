//! A turn, from its beginning to its end.
ghost use Rattle.std.specs.Prelude.{◌≡◌};
ghost use Rattle.std.specs.Borrow.{sem};
ghost use Rattle.turn_lock.specs.declared.logged.View.{View};
ghost use Rattle.turn_lock.specs.Views.{Rests, Tallies, after};
ghost use Rattle.turn_lock.specs.Seats.{HasBegun, IsOut, IsReady, Knows, MayEnd, Turned, known};
ghost use Rattle.turn_lock.specs.Lends.{LendsValue};

use crate::lock::TurnLock;
use crate::logged::{Logged, Names};
use crate::rule::Place;
use crate::seat::Seat;

/// A turn, with the value in hand. If it is dropped, no other seat has a turn ever after, and the
/// lock can only be closed as stuck.
#[derive(Drop)]
pub struct Held<'a, T: Logged> {
    pub lock: &'a TurnLock<T>,
    pub seat: &'a mut Seat<T::Origin, T::Event>,
    pub inner: Place<T>,
    pub value: T,
}

impl<'a, T: Logged> Held<'a, T> {
    pub(crate) fn new(
        lock: &'a TurnLock<T>,
        seat: &'a mut Seat<T::Origin, T::Event>,
        inner: Place<T>,
        value: T,
    ) -> Held<'a, T>
        ensures same_reference { result.seat.ghost_name ≡ seat.entry.ghost_name }
        ensures lock { result.lock.now ≡ lock.now }
        ensures same { (result.seat.now ≡ seat.old) × (result.inner ≡ inner) × (result.value ≡ value) }
    {
        Held {
            lock,
            seat,
            inner,
            value,
        }
    }

    pub fn value(&mut self) -> &mut T
        ensures* lends { sem 𝓛 (LendsValue T.row T.Origin.row T.Event.row T.Logged self.entry result) }
        ensures same { result.now ≡ self.old.value }
    {
        &mut self.value
    }

    /// Puts the value back, and ends the turn with the events that the call names.
    #[tactic(auto, using(crate::proofs::AfterACall::ready, crate::proofs::AfterACall::tallies_known, crate::proofs::AfterACall::turned))]
    pub fn end<N: Names<T::Event>>(self)
        requires out { IsOut self.inner self.lock.now }
        requires stands { MayEnd T.stands self.inner.me.0 N.events self.value }
        ensures ready { IsReady self.exit.1.0.now self.entry.lock.now }
        ensures after { Knows self.exit.1.0.now (after self.entry.inner.me.0 N.events) }
        ensures tallies { Tallies (known self.exit.1.0.now) }

        // From the seat's view before the turn to the one after it.
        ensures turned { (v : View T.Origin T.Event) (x : T) → Rests v
            → HasBegun T.stands v self.entry.inner.me.0 x
            → Turned v (known self.exit.1.0.now) N.events self.entry.inner.me.0.seen }
    {
        let Held {
            lock,
            seat,
            mut inner,
            value,
        } = self;
        lock.give(&mut inner, value);
        let served = lock.end::<N>(&mut inner);
        seat.badge = inner.into_badge();
        lock.wake(served);
    }
}
