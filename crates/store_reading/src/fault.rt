//! Why a store isn't read.

use std::alloc::AllocError;

/// A place in a store.
#[derive(Clone, Copy, Debug, Drop, PartialEq, Eq)]
pub enum StoreRow {
    Format,
    Switch,
    /// A receipt, by the number that is stored in it.
    Receipt { num: i64 },
    /// A rule, by the number that is stored in it.
    Rule { id: i64 },
}

/// Why a store isn't read.
#[derive(Clone, Copy, Debug, Drop, PartialEq, Eq)]
pub enum StoreFault {
    /// The first row that isn't accepted: the format is looked at first, then the switch, the receipts and the rules.
    BadStore(StoreRow),
    OutOfMemory,
}

impl From<AllocError> for StoreFault {
    ghost use Rattle.std.specs.Prelude.{◌≡◌};
    ghost use Rattle.store_reading.specs.declared.fault.StoreFault.TheVariants.{OutOfMemory};

    ghost from_gives = { λ _ fault. fault ≡ OutOfMemory };

    fn from(_: AllocError) -> StoreFault {
        StoreFault::OutOfMemory
    }
}
