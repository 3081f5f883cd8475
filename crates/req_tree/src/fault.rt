//! Why bytes or a text are no object identifier.

use std::alloc::{AllocError, AllocFailed};

/// Why a text is no object identifier: arcs are read from the left, and the first bad one decides.
#[derive(Clone, Copy, Drop, PartialEq, Eq)]
pub enum OidFault {
    /// An arc isn't `0` or digits that begin with another, or one of the first two is out of its bounds.
    BadArc,
    /// A number is 2^32 or more.
    ArcTooLarge,
    /// There is one arc alone.
    TooShort,
    OutOfMemory,
}

/// Why bytes are no object identifier.
#[derive(Clone, Copy, Drop, PartialEq, Eq)]
pub enum OidBytesFault {
    /// They aren't whole numbers in base 128 and the fewest bytes, each below 2^32, or there are none.
    BadOid,
    OutOfMemory,
}

impl From<AllocError> for OidFault {
    ghost use Rattle.std.specs.Prelude.{◌≡◌};
    ghost use Rattle.req_tree.specs.declared.fault.OidFault.TheVariants.{OutOfMemory};

    ghost from_gives = { λ _ fault. fault ≡ OutOfMemory };

    fn from(_: AllocError) -> OidFault {
        OidFault::OutOfMemory
    }
}

impl<T: Drop> From<AllocFailed<T>> for OidFault {
    ghost use Rattle.std.specs.Prelude.{◌≡◌};
    ghost use Rattle.req_tree.specs.declared.fault.OidFault.TheVariants.{OutOfMemory};

    ghost from_gives = { λ _ fault. fault ≡ OutOfMemory };

    fn from(_: AllocFailed<T>) -> OidFault {
        OidFault::OutOfMemory
    }
}

impl From<AllocError> for OidBytesFault {
    ghost use Rattle.std.specs.Prelude.{◌≡◌};
    ghost use Rattle.req_tree.specs.declared.fault.OidBytesFault.TheVariants.{OutOfMemory};

    ghost from_gives = { λ _ fault. fault ≡ OutOfMemory };

    fn from(_: AllocError) -> OidBytesFault {
        OidBytesFault::OutOfMemory
    }
}
