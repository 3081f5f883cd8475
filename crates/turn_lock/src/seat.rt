//! A caller's seat, whose type does not name the value.
ghost use Rattle.std.specs.Prelude.{◌≡◌, [], IfOk};
ghost use Rattle.std.specs.Borrow.{sem, RestsIfErr};
ghost use Rattle.turn_lock.specs.contracts.seat.Seat.{the_row};
ghost use Rattle.turn_lock.specs.Seats.{HasBegun, IsLent, IsOut, IsReady, IsRefused, known};

use crate::fault::Spent;
use crate::held::Held;
use crate::lock::TurnLock;
use crate::logged::{Logged, View};
use crate::waiting::take_turn;
use atomic_table::Badge;
use std::sync::Wait;

/// A seat at one lock. It has one byte, so that a slice of seats can be lent apart.
#[derive(Drop)]
pub struct Seat<O, E> {
    mark: u8,
    pub badge: Badge<View<O, E>>,
}

impl<O, E> Seat<O, E> {
    /// Waits for the seat's turn. `Spent` comes exactly where a load of this call found no ticket
    /// left: the seat then knows of one more such load, and at a turn of none. While the turn lasts
    /// the seat that was lent has no view; if the turn is dropped, it stays so.
    pub fn turn<'a, R: Wait, T: Logged<Origin = O, Event = E>>(
        &'a mut self,
        rt: &R,
        lock: &'a TurnLock<T>,
    ) -> Result<Held<'a, T>, Spent>
        requires ready { IsReady self.old lock.now }
        ensures* refused { sem 𝓛 (RestsIfErr (the_row O.row E.row) self.entry (λ held. held.seat.ghost_name)
            result (λ last. IsRefused (known self.old) last lock.now)) }
        ensures same_reference { IfOk result (λ held. held.seat.ghost_name ≡ self.entry.ghost_name) }
        ensures lent { IfOk result (λ held. IsLent held.seat.now) }
        ensures lock { IfOk result (λ held. held.lock.now ≡ lock.now) }
        ensures out { IfOk result (λ held. IsOut held.inner lock.now) }
        ensures begun { IfOk result (λ held. HasBegun T.stands (known self.old) held.inner.me.0 held.value) }
    {
        let (inner, value) = take_turn(self, rt, lock)?;
        Ok(Held::new(lock, self, inner, value))
    }

    pub(crate) fn of(badge: Badge<View<O, E>>) -> Seat<O, E>
        ensures { result.badge ≡ badge }
    {
        Seat { mark: 0, badge }
    }

    pub(crate) fn into_badge(self) -> Badge<View<O, E>>
        ensures { result ≡ self.badge }
    {
        let Seat { mark: _, badge } = self;
        badge
    }
}
