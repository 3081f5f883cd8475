//! What keeps a command from saying anything.

use gk_io::{Failed, ShelfFault};
use std::alloc::AllocError;

/// Why a command stopped before it had something to say.
#[derive(Clone, Copy, Drop, PartialEq, Eq)]
pub enum Stop {
    /// The shelf failed.
    ShelfFault,
    /// The clock failed.
    ClockFault,
    OutOfMemory,
}

impl From<ShelfFault> for Stop {
    ghost use Rattle.std.specs.Prelude.{◌≡◌};
    ghost use Rattle.run_status.specs.Stops.{stop_of};

    ghost from_gives = { λ fault stop. stop ≡ stop_of fault };

    fn from(fault: ShelfFault) -> Stop {
        match fault {
            ShelfFault::Failed => Stop::ShelfFault,
            ShelfFault::OutOfMemory => Stop::OutOfMemory,
        }
    }
}

impl From<Failed> for Stop {
    ghost use Rattle.std.specs.Prelude.{◌≡◌};
    ghost use Rattle.run_status.specs.declared.stop.Stop.TheVariants.{ClockFault};

    ghost from_gives = { λ _ stop. stop ≡ ClockFault };

    fn from(_: Failed) -> Stop {
        Stop::ClockFault
    }
}

impl From<AllocError> for Stop {
    ghost use Rattle.std.specs.Prelude.{◌≡◌};
    ghost use Rattle.run_status.specs.declared.stop.Stop.TheVariants.{OutOfMemory};

    ghost from_gives = { λ _ stop. stop ≡ OutOfMemory };

    fn from(_: AllocError) -> Stop {
        Stop::OutOfMemory
    }
}
