//! Why a line isn't read.

ghost use Rattle.std.specs.Prelude.{◌≡◌, ◌+◌, ◌≤◌, ◌++◌, length};
ghost use Rattle.line_text.specs.LineText.{line_bytes};
ghost use Rattle.line_text.specs.declared.limits.TheConstants.{FRONT_LIMIT};
ghost use Rattle.line_model.specs.LineFaults.{line_fault_text};
ghost use Rattle.line_words.specs.Faults.{fault_of};

use line_text::LineText;
use req_tokens::TextFault;
use std::alloc::{AllocError, AllocFailed};

/// The first thing in a line, from the left, that doesn't fit.
#[derive(Clone, Copy, Drop)]
pub enum LineFault {
    /// A word doesn't fit its place, is missing or is one too many.
    BadLine {
        /// Where the word begins, or should begin, counted from 1.
        column: u32,
    },
    /// The text at the end is no requirement.
    BadRequirement(TextFault),
    BadPriority,
    BadMoment,
    BadLabel,
    BadKey,
    RequirementTooLong,
    OutOfMemory,
}

impl LineFault {
    /// Appends the refusal's line, without its end; nothing where there was no memory.
    pub fn line_into(&self, out: &mut LineText)
        requires { length (line_bytes out.old) ≤ FRONT_LIMIT }
        ensures text { line_bytes out.new ≡ line_bytes out.old ++ line_fault_text (fault_of self.now) }
        ensures length { length (line_bytes out.new) ≤ length (line_bytes out.old) + 100 }
    {
        match self {
            LineFault::BadLine { column } => {
                out.push_field(b"refused line 1 BadLine column=", u64::from(*column));
            }
            LineFault::BadRequirement(fault) => {
                out.push_all(b"refused line 2 BadRequirement ");
                fault.line_into(out);
            }
            LineFault::BadPriority => out.push_all(b"refused line 3 BadPriority"),
            LineFault::BadMoment => out.push_all(b"refused line 4 BadMoment"),
            LineFault::BadLabel => out.push_all(b"refused line 5 BadLabel"),
            LineFault::BadKey => out.push_all(b"refused line 6 BadKey"),
            LineFault::RequirementTooLong => out.push_all(b"refused line 7 RequirementTooLong"),
            LineFault::OutOfMemory => {}
        }
    }
}

impl From<AllocError> for LineFault {
    ghost use Rattle.std.specs.Prelude.{◌≡◌};
    ghost use Rattle.line_words.specs.declared.fault.LineFault.TheVariants.{OutOfMemory};

    ghost from_gives = { λ _ fault. fault ≡ OutOfMemory };

    fn from(_: AllocError) -> LineFault {
        LineFault::OutOfMemory
    }
}

impl<T: Drop> From<AllocFailed<T>> for LineFault {
    ghost use Rattle.std.specs.Prelude.{◌≡◌};
    ghost use Rattle.line_words.specs.declared.fault.LineFault.TheVariants.{OutOfMemory};

    ghost from_gives = { λ _ fault. fault ≡ OutOfMemory };

    fn from(_: AllocFailed<T>) -> LineFault {
        LineFault::OutOfMemory
    }
}
