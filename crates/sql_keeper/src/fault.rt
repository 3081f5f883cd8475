//! Why SQL gave nothing.

ghost use Rattle.std.specs.Prelude.{◌≡◌};
ghost use Rattle.sql_keeper.specs.Fault.{fault_of};

use sqlite::{Error, ErrorCode};
use std::alloc::AllocError;

/// Why a statement, or the reading of a row, gave nothing.
#[derive(Clone, Copy, Debug, Drop, PartialEq, Eq)]
pub enum SqlFault {
    /// For another reason than memory.
    Refused,
    /// Out of memory.
    OutOfMemory,
}

impl From<AllocError> for SqlFault {
    ghost use Rattle.std.specs.Prelude.{◌≡◌};
    ghost use Rattle.sql_keeper.specs.declared.fault.SqlFault.TheVariants.{OutOfMemory};

    ghost from_gives = { λ _ fault. fault ≡ OutOfMemory };

    fn from(_error: AllocError) -> SqlFault {
        SqlFault::OutOfMemory
    }
}

impl From<Error> for SqlFault {
    ghost use Rattle.std.specs.Prelude.{◌≡◌};
    ghost use Rattle.sql_keeper.specs.Fault.{fault_of};

    ghost from_gives = { λ error fault. fault ≡ fault_of error };

    fn from(error: Error) -> SqlFault {
        match error {
            Error::SqliteFailure(ErrorCode::OutOfMemory) => SqlFault::OutOfMemory,
            _ => SqlFault::Refused,
        }
    }
}
