//! What keeps a run from saying what its command says.

ghost use Rattle.run_commands.specs.Halts.{IsUnsaid, IsHalted, IsStarved};

use desk_opening::Unopened;
use run_status::{Said, Stop};
use std::alloc::AllocError;

/// Why a command didn't say anything.
#[derive(Clone, Copy, Drop, PartialEq, Eq)]
pub enum Halt {
    /// The shelf or the clock failed, or memory ran out.
    Stop(Stop),
    /// The keeper failed as its tables were loaded.
    KeeperFault,
}

impl From<Stop> for Halt {
    ghost use Rattle.std.specs.Prelude.{◌≡◌};
    ghost use Rattle.run_commands.specs.declared.halt.Halt.TheVariants.{Stop};

    ghost from_gives = { λ stop halt. halt ≡ Stop stop };

    fn from(stop: Stop) -> Halt {
        Halt::Stop(stop)
    }
}

impl From<AllocError> for Halt {
    ghost use Rattle.std.specs.Prelude.{◌≡◌};
    ghost use Rattle.run_status.specs.declared.stop.Stop.TheVariants.{OutOfMemory};
    ghost use Rattle.run_commands.specs.declared.halt.Halt.TheVariants.{Stop};

    ghost from_gives = { λ _ halt. halt ≡ Stop OutOfMemory };

    fn from(_: AllocError) -> Halt {
        Halt::Stop(Stop::OutOfMemory)
    }
}

/// What is said where a run has no desk, or why nothing is.
pub fn unopened(why: Unopened) -> Result<Said, Halt>
    ensures { IsUnsaid why result }
{
    match why {
        Unopened::Said(said) => Ok(said),
        Unopened::Stop(stop) => Err(Halt::Stop(stop)),
        Unopened::KeeperFault => Err(Halt::KeeperFault),
    }
}

/// What a command says, or why it stopped.
pub(crate) fn halted(said: Result<Said, Stop>) -> Result<Said, Halt>
    ensures { IsHalted said result }
{
    match said {
        Ok(said) => Ok(said),
        Err(stop) => Err(Halt::Stop(stop)),
    }
}

/// What a command says, or that there was no memory for it.
pub(crate) fn starved(said: Result<Said, AllocError>) -> Result<Said, Halt>
    ensures { IsStarved said result }
{
    match said {
        Ok(said) => Ok(said),
        Err(AllocError) => Err(Halt::Stop(Stop::OutOfMemory)),
    }
}
