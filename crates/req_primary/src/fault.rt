//! Where terminals stop being read.

use std::alloc::{AllocError, AllocFailed};

/// Why terminals weren't read.
#[derive(Clone, Copy, Drop)]
pub enum ReadingFault {
    /// This terminal, or the end, may not stand where it does.
    Syntax { token: u32 },
    OutOfMemory,
}

impl From<AllocError> for ReadingFault {
    ghost use Rattle.std.specs.Prelude.{◌≡◌};
    ghost use Rattle.req_primary.specs.declared.fault.ReadingFault.TheVariants.{OutOfMemory};

    ghost from_gives = { λ _ fault. fault ≡ OutOfMemory };

    fn from(_: AllocError) -> ReadingFault {
        ReadingFault::OutOfMemory
    }
}

impl<T: Drop> From<AllocFailed<T>> for ReadingFault {
    ghost use Rattle.std.specs.Prelude.{◌≡◌};
    ghost use Rattle.req_primary.specs.declared.fault.ReadingFault.TheVariants.{OutOfMemory};

    ghost from_gives = { λ _ fault. fault ≡ OutOfMemory };

    fn from(_: AllocFailed<T>) -> ReadingFault {
        ReadingFault::OutOfMemory
    }
}
