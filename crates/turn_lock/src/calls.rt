//! How a lock is made, how seats are split and joined, and how it is closed.
ghost use Rattle.std.specs.Prelude.{◌≡◌, ℕ, ◌<◌, ◌≤◌, ◌⊎◌, List, [], ◌∷◌, ◌++◌, length, IfOk, IfErr, Some, None};
ghost use Rattle.std.specs.Mem.Slots.{slots_items};
ghost use mathlib.Core.List.{IsPrefix};
ghost use Rattle.turn_lock.specs.declared.closed.Closed.TheVariants.{Whole, Stuck};
ghost use Rattle.turn_lock.specs.declared.lock.TheConstants.{TICKETS};
ghost use Rattle.turn_lock.specs.Views.{Has, HasAll, Tallies, blank, both_of, left_of, newborn, right_of};
ghost use Rattle.turn_lock.specs.Seats.{IsReady, IsStopped, IsWhole, Knows, known};

use crate::closed::{Closed, Shut};
use crate::lock::TurnLock;
use crate::logged::Logged;
use crate::rule::{Board, Place};
use crate::seat::Seat;
use crate::steps::begin;
use atomic_table::{Badge, Refused, Table};
use std::alloc::{AllocFailed, Global};
use std::marker::Brand;
use std::mem;
use std::snapshot::Snapshot;

fn row<T>(alloc: Global, value: T) -> Result<Vec<Option<T>>, AllocFailed<T>>
    ensures ok { IfOk result (λ v. v.items ≡ Some value ∷ []) }
    ensures err { IfErr result (λ failed. failed.value ≡ value) }
{
    let mut slots = Vec::new(alloc);
    match slots.push(Some(value)) {
        Ok(()) => Ok(slots),
        Err(AllocFailed { value }) => {
            slots.destroy_empty();
            match value {
                Some(value) => Err(AllocFailed { value }),
                None => unreachable!(),
            }
        }
    }
}

fn laid<T: Logged>(alloc: Global, value: T) -> Result<(Board<T>, Place<T>), AllocFailed<T>>
    ensures ok { IfOk result (λ r. (r.0.shared.table_id.words ≡ 2) × (r.0.shared.table_id.slots ≡ 1)
        × (r.1.table_id ≡ r.0.shared.table_id) × (r.1.me ≡ (blank, [])) × (r.0.shared.key.value ≡ value)) }
    ensures err { IfErr result (λ failed. failed.value ≡ value) }
{
    let about = Snapshot::of(&value);
    let slots = row(alloc, value)?;
    match Table::new(alloc, &[0, 0], slots, &about) {
        Ok(both) => Ok(both),
        Err(Refused { mut slots }) => {
            let Some(Some(value)) = slots.pop() else {
                unreachable!()
            };
            slots.destroy_empty();
            Err(AllocFailed { value })
        }
    }
}

impl<T: Logged> TurnLock<T> {
    /// A lock over the value, and its first seat. If memory runs out, the value comes back.
    pub fn new(
        alloc: Global,
        value: T,
    ) -> Result<(TurnLock<T>, Seat<T::Origin, T::Event>), AllocFailed<T>>
        ghost origin: { T.Origin }
        requires { T.stands value origin [] }
        ensures ready { IfOk result (λ made. IsReady made.1 made.0) }
        ensures seat { IfOk result (λ made. Knows made.1 (newborn origin)) }
        ensures alone { IfOk result (λ made. HasAll (known made.1)) }
        ensures err { IfErr result (λ failed. failed.value ≡ value) }
    {
        let (table, mut seat) = laid(alloc, value)?;
        begin::<T, Brand>(&table, &mut seat);
        Ok((TurnLock { table }, Seat::of(seat.into_badge())))
    }

    /// A second seat, which has seen as much and has no turns of its own.
    #[tactic(auto, using(crate::proofs::AfterACall::ready))]
    pub fn split(&self, seat: &mut Seat<T::Origin, T::Event>) -> Seat<T::Origin, T::Event>
        requires ready { IsReady seat.old self.now }
        ensures ready { IsReady seat.new self.now × IsReady result self.now }
        ensures old { Knows seat.new (left_of (known seat.old)) }
        ensures new { Knows result (right_of (known seat.old)) }
        ensures tallies { Tallies (known seat.new) × Tallies (known result) }
        ensures numbers { (n : ℕ) → Has (known seat.old) n → Has (known seat.new) n ⊎ Has (known result) n }
    {
        let badge = mem::replace(&mut seat.badge, Badge::blank());
        let mut place = badge.into_seat::<Option<T>>();
        let mut other = self.halve(&mut place);
        self.learn(&mut place);
        self.learn(&mut other);
        seat.badge = place.into_badge();
        Seat::of(other.into_badge())
    }

    /// The seat takes in another: it has then seen what both had seen, and keeps the other's
    /// turns beside its own.
    #[tactic(auto, using(crate::proofs::AfterACall::ready))]
    pub fn join(&self, seat: &mut Seat<T::Origin, T::Event>, other: Seat<T::Origin, T::Event>)
        requires ready { IsReady seat.old self.now × IsReady other self.now }
        ensures ready { IsReady seat.new self.now }
        ensures both { Knows seat.new (both_of (known seat.old) (known other)) }
        ensures seen { IsPrefix (known seat.old).seen (known seat.new).seen }
        ensures seen_there { IsPrefix (known other).seen (known seat.new).seen }
        ensures tallies { Tallies (known seat.new) }
        ensures numbers { (n : ℕ) → Has (known seat.old) n ⊎ Has (known other) n → Has (known seat.new) n }
    {
        let badge = mem::replace(&mut seat.badge, Badge::blank());
        let mut place = badge.into_seat::<Option<T>>();
        self.merge(&mut place, other.into_badge().into_seat::<Option<T>>());
        self.learn(&mut place);
        seat.badge = place.into_badge();
    }

    /// Stops the lock: no step is made at it any more.
    pub fn shut(self, seat: Seat<T::Origin, T::Event>) -> Shut<T>
        requires ready { IsReady seat self }
        ensures { IsStopped T.stands (known seat) (slots_items result.table.words) (slots_items result.table.slots) }
    {
        let TurnLock { table } = self;
        let table = table.close_with(seat.into_badge().into_seat::<Option<T>>());
        Shut { table }
    }

    /// The value, if every ticket that was drawn was served. `shut` and then `ends` say exactly when
    /// a lock is stuck, and with which numbers.
    pub fn close(self, seat: Seat<T::Origin, T::Event>) -> Closed<T>
    where
        T: Drop,
        requires ready { IsReady seat self }
        ensures whole { (x : T) → result ≡ Whole x → IsWhole T.stands (known seat) x }
        ensures stuck { (n s : ℕ) → result ≡ Stuck n s
            → (length (known seat).seen ≤ s) × (s < n) × (n ≤ TICKETS) }
        ensures alone { HasAll (known seat) → (x : T) × (result ≡ Whole x) }
    {
        self.shut(seat).ends()
    }
}
