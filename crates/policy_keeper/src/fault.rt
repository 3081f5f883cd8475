//! Why a keeper's call was refused.

use std::alloc::AllocError;

/// The call changed nothing that the keeper tells.
#[derive(Clone, Copy, Debug, Drop, PartialEq, Eq)]
pub enum KeepFault {
    /// The store failed, whatever the reason.
    Failed,
    /// Out of memory.
    OutOfMemory,
}

impl From<AllocError> for KeepFault {
    ghost use Rattle.std.specs.Prelude.{◌≡◌};
    ghost use Rattle.policy_keeper.specs.declared.fault.KeepFault.TheVariants.{OutOfMemory};

    ghost from_gives = { λ _ fault. fault ≡ OutOfMemory };

    fn from(_error: AllocError) -> KeepFault {
        KeepFault::OutOfMemory
    }
}
