//! The rule of the lock's table, and what each kind of step tells the seat that makes it.
use crate::logged::{Logged, Names, Origins, View};
use atomic_table::{Join, Play, Split, Table, TableRule};
use std::alloc::Global;
use std::marker::PhantomData;
use std::snapshot::Snapshot;

/// Two words, `next` and `serving`, and one slot for the value.
pub type Board<T> = Table<
    Option<T>,
    View<<T as Logged>::Origin, <T as Logged>::Event>,
    Snapshot<T>,
    Turning<T>,
    Global,
>;

/// A seat at the table, which may hold the slot.
pub type Place<T> = atomic_table::Seat<
    Option<T>,
    View<<T as Logged>::Origin, <T as Logged>::Event>,
>;

pub struct Turning<T> {
    of: PhantomData<T>,
}

impl<T: Logged> TableRule<Option<T>, View<T::Origin, T::Event>, Snapshot<T>> for Turning<T> {
    ghost use Rattle.turn_lock.specs.Rule.{Ruled};
    ghost use Rattle.turn_lock.specs.Views.{blank};

    ghost holds = { λ key s. Ruled T.stands key.value s };

    ghost first = { λ _. blank };
}

/// The first load of the first seat: it is told the origin.
pub struct Begin<N> {
    of: PhantomData<N>,
}

impl<T, O, E, N: Origins<O>> Play<Option<T>, View<O, E>> for Begin<N> {
    ghost use Rattle.turn_lock.specs.Steps.{Began};

    ghost then = { Began N.origin };
}

/// A load of `next` before a draw.
pub struct Look;

impl<T, O, E> Play<Option<T>, View<O, E>> for Look {
    ghost use Rattle.turn_lock.specs.Steps.{Looked};

    ghost then = { Looked };
}

/// A load that changes nothing, and tells what the rule says of the seat.
pub struct Learn;

impl<T, O, E> Play<Option<T>, View<O, E>> for Learn {
    ghost use Rattle.turn_lock.specs.Steps.{Learned};

    ghost then = { Learned };
}

/// A compare-exchange of `next`.
pub struct Draw;

impl<T, O, E> Play<Option<T>, View<O, E>> for Draw {
    ghost use Rattle.turn_lock.specs.Steps.{Drew};

    ghost then = { Drew };
}

/// A load of `serving`, which takes the slot where it finds the seat's ticket.
pub struct See;

impl<T: Logged> Play<Option<T>, View<T::Origin, T::Event>> for See {
    ghost use Rattle.turn_lock.specs.Steps.{Saw};

    ghost then = { Saw T.stands };
}

/// An add to `serving`, which gives the slot back.
pub struct End<N> {
    of: PhantomData<N>,
}

impl<T, O, E, N: Names<E>> Play<Option<T>, View<O, E>> for End<N> {
    ghost use Rattle.turn_lock.specs.Steps.{Ended};

    ghost then = { Ended N.events };
}

pub struct Halves;

impl<O, E> Split<View<O, E>> for Halves {
    ghost use Rattle.turn_lock.specs.Views.{left_of, right_of};

    ghost left = { left_of };

    ghost right = { right_of };
}

pub struct Both;

impl<O, E> Join<View<O, E>> for Both {
    ghost use Rattle.turn_lock.specs.Views.{both_of, left_behind};

    ghost both = { both_of };

    ghost spent = { left_behind };
}
