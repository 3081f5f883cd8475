//! A moment: whole seconds since the epoch.

ghost use Rattle.std.specs.Prelude.{◌≡◌, ◌≤◌, ◌↔◌, IsSome, IfSome};
ghost use Rattle.policy_model.specs.declared.limits.TheConstants.{GREATEST_MOMENT};

use policy_model::limits::GREATEST_MOMENT;
use std::marker::Model;

/// Seconds from 0 to 253,402,300,799, which is the end of the year 9999.
#[derive(Clone, Copy, Drop, PartialEq, PartialOrd)]
pub struct Moment {
    seconds: u64,
}

impl Model for Moment {
    ghost use Rattle.std.specs.Prelude.{ℕ, ◌≤◌};
    ghost use Rattle.policy_model.specs.declared.limits.TheConstants.{GREATEST_MOMENT};

    ghost Value = { ℕ };

    ghost view = { λ m. m.seconds };

    ghost invariant = { λ m. m.seconds ≤ GREATEST_MOMENT };

    ghost inverse = { λ n. record { seconds = n } };
}

impl Moment {
    /// The moment of the epoch.
    pub fn zero() -> Moment
        ensures { result ≡ 0 }
    {
        Moment { seconds: 0 }
    }

    pub fn of(seconds: u64) -> Option<Moment>
        ensures fits { IsSome result ↔ (seconds ≤ GREATEST_MOMENT) }
        ensures value { IfSome result (λ moment. moment ≡ seconds) }
    {
        if seconds <= GREATEST_MOMENT {
            Some(Moment { seconds })
        } else {
            None
        }
    }

    pub fn get(self) -> u64
        ensures value { result ≡ self }
        ensures fits { result ≤ GREATEST_MOMENT }
    {
        self.seconds
    }
}
