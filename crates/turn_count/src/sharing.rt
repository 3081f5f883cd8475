//! The lock and its seats in several threads, for any value that may cross to another thread.
ghost use Rattle.std.specs.Prelude.{◌≡◌, ℕ, ◌<◌, ◌≤◌, length};
ghost use Rattle.turn_lock.specs.declared.closed.Closed.TheVariants.{Whole, Stuck};
ghost use Rattle.turn_lock.specs.declared.lock.TheConstants.{TICKETS};
ghost use Rattle.turn_lock.specs.Views.{HasAll};
ghost use Rattle.turn_lock.specs.Seats.{IsReady, IsWhole, known};
ghost use Rattle.turn_count.specs.Around.{WentAround};

use std::thread::{Threads, join, join_mut};
use turn_lock::{Closed, Logged, Seat, TurnLock};

fn around<T: Logged>(lock: &TurnLock<T>, seat: &mut Seat<T::Origin, T::Event>)
    requires { IsReady seat.old lock.now }
    ensures ready { IsReady seat.new lock.now }
    ensures around { WentAround (known seat.old) seat.new }
{
    let other = lock.split(seat);
    lock.join(seat, other);
}

/// Two threads share the lock, each with a seat of its own.
pub fn two_around<R: Threads + Sync, T: Logged + Send>(
    rt: &R,
    lock: &TurnLock<T>,
    one: &mut Seat<T::Origin, T::Event>,
    two: &mut Seat<T::Origin, T::Event>,
)
    requires { IsReady one.old lock.now × IsReady two.old lock.now }
    ensures ready { IsReady one.new lock.now × IsReady two.new lock.now }
    ensures around { WentAround (known one.old) one.new × WentAround (known two.old) two.new }
{
    join_mut(
        rt,
        &mut ||
            requires { IsReady one.now lock.now }
            ensures ready { IsReady one.exit.now lock.entry.now }
            ensures around { WentAround (known one.entry.now) one.exit.now }
        { around(lock, one) },
        &mut ||
            requires { IsReady two.now lock.now }
            ensures ready { IsReady two.exit.now lock.entry.now }
            ensures around { WentAround (known two.entry.now) two.exit.now }
        { around(lock, two) },
    );
}

/// The lock and its seat go to another thread, which closes it.
pub fn close_there<R: Threads + Sync, T: Logged + Send + Drop>(
    rt: &R,
    lock: TurnLock<T>,
    seat: Seat<T::Origin, T::Event>,
) -> Closed<T>
    requires { IsReady seat lock }
    ensures whole { (x : T) → result ≡ Whole x → IsWhole T.stands (known seat) x }
    ensures stuck { (n s : ℕ) → result ≡ Stuck n s
        → (length (known seat).seen ≤ s) × (s < n) × (n ≤ TICKETS) }
    ensures alone { HasAll (known seat) → (x : T) × (result ≡ Whole x) }
{
    let (closed, ()) = join(
        rt,
        move || -> Closed<T>
            requires { IsReady seat lock }
            ensures whole { (x : T) → result ≡ Whole x → IsWhole T.stands (known seat) x }
            ensures stuck { (n s : ℕ) → result ≡ Stuck n s
                → (length (known seat).seen ≤ s) × (s < n) × (n ≤ TICKETS) }
            ensures alone { HasAll (known seat) → (x : T) × (result ≡ Whole x) }
        { lock.close(seat) },
        || {},
    );
    closed
}
