//! Why a facts file is refused.

use line_text::LineText;
use std::alloc::{AllocError, AllocFailed};

/// The first row that is wrong decides; on one row `TooMany` comes before `BadRow` and `BadRow` before `Twice`. A
/// `row` counts records from 1, the header included.
#[derive(Clone, Copy, Debug, Drop, PartialEq, Eq)]
pub enum FactFault {
    /// The row has none of the forms, or speaks of a certificate that does not stand above it.
    BadRow { row: u32 },
    /// An earlier row has the same hash, scope, slot and key, and not both are members of a list.
    Twice { row: u32 },
    /// There are more than 100,000 rows behind the header.
    TooMany,
    OutOfMemory,
}

impl FactFault {
    ghost use Rattle.std.specs.Prelude.{◌≡◌, ◌+◌, ◌≤◌, ◌++◌, length};
    ghost use Rattle.line_text.specs.LineText.{line_bytes};
    ghost use Rattle.line_text.specs.declared.limits.TheConstants.{FRONT_LIMIT};
    ghost use Rattle.code_facts.specs.FaultText.{fact_fault_text};

    /// Appends the refusal's number, its name and its row; nothing where there was no memory.
    pub fn line_into(&self, out: &mut LineText)
        requires { length (line_bytes out.old) ≤ FRONT_LIMIT + 100 }
        ensures text { line_bytes out.new ≡ line_bytes out.old ++ fact_fault_text self.now }
        ensures length { length (line_bytes out.new) ≤ length (line_bytes out.old) + 40 }
    {
        match self {
            FactFault::BadRow { row } => out.push_field(b"1 BadRow row=", u64::from(*row)),
            FactFault::Twice { row } => out.push_field(b"2 Twice row=", u64::from(*row)),
            FactFault::TooMany => out.push_all(b"3 TooMany"),
            FactFault::OutOfMemory => {}
        }
    }
}

impl From<AllocError> for FactFault {
    ghost use Rattle.std.specs.Prelude.{◌≡◌};
    ghost use Rattle.code_facts.specs.declared.fault.FactFault.TheVariants.{OutOfMemory};

    ghost from_gives = { λ _ fault. fault ≡ OutOfMemory };

    fn from(_: AllocError) -> FactFault {
        FactFault::OutOfMemory
    }
}

impl<T: Drop> From<AllocFailed<T>> for FactFault {
    ghost use Rattle.std.specs.Prelude.{◌≡◌};
    ghost use Rattle.code_facts.specs.declared.fault.FactFault.TheVariants.{OutOfMemory};

    ghost from_gives = { λ _ fault. fault ≡ OutOfMemory };

    fn from(_: AllocFailed<T>) -> FactFault {
        FactFault::OutOfMemory
    }
}
