//! Why bytes are no set of requirements.

use cs_blob::BlobFault;
use req_blob::OpsFault;
use req_tree::LineText;

/// Why bytes are no set of requirements: the first of these. An `index` counts the entries from 0.
#[derive(Clone, Copy, Drop, PartialEq, Eq)]
pub enum SetFault {
    /// The bytes begin with no super-blob of sets.
    Blob(BlobFault),
    /// The set has more than 1,048,576 bytes.
    TooLong,
    /// Bytes are left behind the set; `at` is the first of them.
    Trailing { at: u32 },
    /// The type of a part is none of 1 to 5.
    BadSetKind { index: u32 },
    /// A part is no requirement.
    Part { index: u32, fault: OpsFault },
    OutOfMemory,
}

impl SetFault {
    ghost use Rattle.std.specs.Prelude.{◌≡◌, ◌+◌, ◌≤◌, ◌++◌, length};
    ghost use Rattle.line_text.specs.LineText.{line_bytes};
    ghost use Rattle.line_text.specs.declared.limits.TheConstants.{FRONT_LIMIT};
    ghost use Rattle.req_ops.specs.FaultText.{set_fault_text};

    /// Appends the refusal's number, its name and its fields; nothing where there was no memory.
    pub fn line_into(&self, out: &mut LineText)
        requires { length (line_bytes out.old) ≤ FRONT_LIMIT }
        ensures text { line_bytes out.new ≡ line_bytes out.old ++ set_fault_text self.now }
        ensures length { length (line_bytes out.new) ≤ length (line_bytes out.old) + 150 }
    {
        match self {
            SetFault::Blob(why) => {
                out.push_all(b"1 Blob ");
                why.line_into(out);
            }
            SetFault::TooLong => out.push_all(b"2 TooLong"),
            SetFault::Trailing { at } => {
                out.push_all(b"3 Trailing at=");
                out.push_number(u64::from(*at));
            }
            SetFault::BadSetKind { index } => {
                out.push_all(b"4 BadSetKind index=");
                out.push_number(u64::from(*index));
            }
            SetFault::Part { index, fault } => {
                out.push_all(b"5 Part index=");
                out.push_number(u64::from(*index));
                out.push(b' ');
                fault.line_into(out);
            }
            SetFault::OutOfMemory => {}
        }
    }
}
