//! Why an import file is refused.

use line_text::LineText;
use std::alloc::{AllocError, AllocFailed};

/// The first row that is wrong decides. A `row` counts records from 1, the header included, and a `column` fields from
/// 1.
#[derive(Clone, Copy, Debug, Drop, PartialEq, Eq)]
pub enum ImportFault {
    /// The first record is missing, or isn't the header.
    BadHeader,
    /// The column is the first that doesn't fit, or 9 where the row hasn't eight fields.
    BadRow { row: u32, column: u32 },
    /// There are more than 10,000 rows behind the header.
    TooMany,
    OutOfMemory,
}

impl ImportFault {
    ghost use Rattle.std.specs.Prelude.{◌≡◌, ◌+◌, ◌≤◌, ◌++◌, length};
    ghost use Rattle.line_text.specs.LineText.{line_bytes};
    ghost use Rattle.line_text.specs.declared.limits.TheConstants.{FRONT_LIMIT};
    ghost use Rattle.import_csv.specs.FaultText.{import_fault_text};

    /// Appends the refusal's line, without its end; nothing where there was no memory.
    pub fn line_into(&self, out: &mut LineText)
        requires { length (line_bytes out.old) ≤ FRONT_LIMIT }
        ensures text { line_bytes out.new ≡ line_bytes out.old ++ import_fault_text self.now }
        ensures length { length (line_bytes out.new) ≤ length (line_bytes out.old) + 100 }
    {
        match self {
            ImportFault::BadHeader => out.push_all(b"refused import 1 BadHeader"),
            ImportFault::BadRow { row, column } => {
                out.push_all(b"refused import 2 BadRow");
                place_into(*row, *column, out);
            }
            ImportFault::TooMany => out.push_all(b"refused import 3 TooMany"),
            ImportFault::OutOfMemory => {}
        }
    }
}

ghost use Rattle.std.specs.Prelude.{◌≡◌, ◌+◌, ◌≤◌, ◌++◌, length};
ghost use Rattle.line_text.specs.LineText.{line_bytes};
ghost use Rattle.line_text.specs.declared.limits.TheConstants.{LINE_ROOM};
ghost use Rattle.import_csv.specs.FaultText.{place_text};

/// Appends the row and the column of a refusal.
fn place_into(row: u32, column: u32, out: &mut LineText)
    requires { length (line_bytes out.old) + 60 ≤ LINE_ROOM }
    ensures text { line_bytes out.new ≡ line_bytes out.old ++ place_text row column }
    ensures length { length (line_bytes out.new) ≤ length (line_bytes out.old) + 60 }
{
    out.push_all(b" row=");
    out.push_number(row as u64);
    out.push_all(b" column=");
    out.push_number(column as u64);
}

impl From<AllocError> for ImportFault {
    ghost use Rattle.std.specs.Prelude.{◌≡◌};
    ghost use Rattle.import_csv.specs.declared.fault.ImportFault.TheVariants.{OutOfMemory};

    ghost from_gives = { λ _ fault. fault ≡ OutOfMemory };

    fn from(_: AllocError) -> ImportFault {
        ImportFault::OutOfMemory
    }
}

impl<T: Drop> From<AllocFailed<T>> for ImportFault {
    ghost use Rattle.std.specs.Prelude.{◌≡◌};
    ghost use Rattle.import_csv.specs.declared.fault.ImportFault.TheVariants.{OutOfMemory};

    ghost from_gives = { λ _ fault. fault ≡ OutOfMemory };

    fn from(_: AllocFailed<T>) -> ImportFault {
        ImportFault::OutOfMemory
    }
}
