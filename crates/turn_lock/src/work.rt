//! One whole turn: the seat waits, the work is done on the value, and the turn ends.
ghost use Rattle.std.specs.Prelude.{ℕ, ◌≡◌, List, IfOk, OnErr, Some};
ghost use Rattle.turn_lock.specs.declared.logged.View.{View};
ghost use Rattle.turn_lock.specs.Views.{Rests, Tallies, refused};
ghost use Rattle.turn_lock.specs.Seats.{Acted, HasBegun, IsOut, IsReady, Knows, MayEnd, Turned, known};

use crate::fault::Spent;
use crate::held::Held;
use crate::lock::TurnLock;
use crate::logged::{Logged, Names};
use crate::seat::Seat;
use std::marker::Brand;
use std::snapshot::Snapshot;
use std::sync::Wait;

/// What a call does with the value in one turn.
pub trait Work<T: Logged> {
    ghost use Rattle.std.specs.Prelude.{ℕ, List, ◌++◌, [], ◌∷◌};
    ghost use Rattle.turn_lock.specs.declared.logged.Turn.{Turn};

    type Answer;

    // What has to hold of the origin, of the turns so far, and of the seat's number.
    ghost needs: { Self → T.Origin → List (Turn T.Event) → ℕ → Type 0 };

    // The events of the turn.
    ghost events: { Self → Self.Answer → List T.Event };

    // What the answer says of the origin and of the turns before this one.
    ghost says: { Self → Self.Answer → T.Origin → List (Turn T.Event) → Type 0 };

    fn work(self, value: &mut T) -> Self::Answer
        ensures stands { (o : T.Origin) (h : List (Turn T.Event)) (n : ℕ) → needs self o h n → T.stands value.old o h
            → T.stands value.new o (h ++ record { by = n; events = events self result } ∷ []) }
        ensures says { (o : T.Origin) (h : List (Turn T.Event)) (n : ℕ) → needs self o h n → T.stands value.old o h
            → says self result o h };
}

// Ends the turn with the events of the work. The call picks N from them.
fn end_work<N: Names<T::Event>, T: Logged, W: Work<T>>(
    held: Held<'_, T>,
    about: &Snapshot<W>,
    answer: &W::Answer,
)
    requires out { IsOut held.inner held.lock.now }
    requires stands { MayEnd T.stands held.inner.me.0 N.events held.value }
    requires picked { N.events ≡ W.events about.now.value answer.now }
    ensures ready { IsReady held.exit.1.0.now held.entry.lock.now }
    ensures tallies { Tallies (known held.exit.1.0.now) }
    ensures turned { (v : View T.Origin T.Event) (x : T) → Rests v
        → HasBegun T.stands v held.entry.inner.me.0 x
        → Turned v (known held.exit.1.0.now) N.events held.entry.inner.me.0.seen }
{
    let _ = about;
    let _ = answer;
    held.end::<N>();
}

/// One whole turn of the seat: it waits until the turn is its own, does the work on the value, and
/// ends the turn.
pub fn with_turn<R: Wait, T: Logged, W: Work<T>>(
    rt: &R,
    lock: &TurnLock<T>,
    seat: &mut Seat<T::Origin, T::Event>,
    work: W,
) -> Result<W::Answer, Spent>
where
    W: Drop,
    requires ready { IsReady seat.old lock.now }
    requires needs { (m : View T.Origin T.Event) (x : T) (o : T.Origin) → HasBegun T.stands (known seat.old) m x
        → (known seat.old).origin ≡ Some o → W.needs work o m.seen m.number }
    ensures ready { IsReady seat.new lock.now }
    ensures acted { IfOk result (λ r. Acted (known seat.old) (known seat.new) (W.events work r) (W.says work r)) }
    ensures spent { OnErr result (Knows seat.new (refused (known seat.old))) }
    ensures tallies { Tallies (known seat.new) }
{
    let about = Snapshot::of(&work);
    let mut held = seat.turn(rt, lock)?;
    let answer = work.work(held.value());
    end_work::<Brand, T, W>(held, &about, &answer);
    Ok(answer)
}
