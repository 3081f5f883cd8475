//! Why a desk was not loaded.

use policy_keeper::KeepFault;
use std::alloc::AllocError;
use store_reading::{StoreFault, StoreRow};

/// Why no desk was made of what a keeper has.
#[derive(Drop)]
pub enum LoadFault {
    /// The keeper failed.
    KeeperFault,
    /// The first row that breaks a rule.
    BadStore(StoreRow),
    /// There was no memory for the desk.
    OutOfMemory,
}

impl From<KeepFault> for LoadFault {
    ghost use Rattle.std.specs.Prelude.{◌≡◌};
    ghost use Rattle.desk_state.specs.Loaded.{load_fault};

    ghost from_gives = { λ failed fault. fault ≡ load_fault failed };

    fn from(failed: KeepFault) -> LoadFault {
        match failed {
            KeepFault::Failed => LoadFault::KeeperFault,
            KeepFault::OutOfMemory => LoadFault::OutOfMemory,
        }
    }
}

impl From<AllocError> for LoadFault {
    ghost use Rattle.std.specs.Prelude.{◌≡◌};
    ghost use Rattle.desk_state.specs.declared.load_fault.LoadFault.TheVariants.{OutOfMemory};

    ghost from_gives = { λ _ fault. fault ≡ OutOfMemory };

    fn from(_error: AllocError) -> LoadFault {
        LoadFault::OutOfMemory
    }
}

impl From<StoreFault> for LoadFault {
    ghost use Rattle.std.specs.Prelude.{◌≡◌};
    ghost use Rattle.desk_state.specs.Loaded.{row_fault};

    ghost from_gives = { λ refused fault. fault ≡ row_fault refused };

    fn from(refused: StoreFault) -> LoadFault {
        match refused {
            StoreFault::BadStore(row) => LoadFault::BadStore(row),
            StoreFault::OutOfMemory => LoadFault::OutOfMemory,
        }
    }
}
