//! Why a run has no desk.

use run_status::{Said, Stop};
use std::alloc::AllocError;

/// Why no desk was opened.
#[derive(Drop)]
pub enum Unopened {
    /// The facts file or the store is told to be wrong.
    Said(Said),
    /// The shelf failed, or memory ran out.
    Stop(Stop),
    /// The keeper failed.
    KeeperFault,
}

impl From<Stop> for Unopened {
    ghost use Rattle.std.specs.Prelude.{◌≡◌};
    ghost use Rattle.desk_opening.specs.declared.unopened.Unopened.TheVariants.{Stop};

    ghost from_gives = { λ stop unopened. unopened ≡ Stop stop };

    fn from(stop: Stop) -> Unopened {
        Unopened::Stop(stop)
    }
}

impl From<AllocError> for Unopened {
    ghost use Rattle.std.specs.Prelude.{◌≡◌};
    ghost use Rattle.run_status.specs.declared.stop.Stop.TheVariants.{OutOfMemory};
    ghost use Rattle.desk_opening.specs.declared.unopened.Unopened.TheVariants.{Stop};

    ghost from_gives = { λ _ unopened. unopened ≡ Stop OutOfMemory };

    fn from(_: AllocError) -> Unopened {
        Unopened::Stop(Stop::OutOfMemory)
    }
}
