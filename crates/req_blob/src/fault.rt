//! Why bytes are no requirement, and why a requirement has no bytes.

ghost use Rattle.std.specs.Prelude.{◌≡◌, ◌+◌, ◌≤◌, ◌++◌, codes, length, decimal};
ghost use Rattle.line_text.specs.LineText.{line_bytes};
ghost use Rattle.line_text.specs.declared.limits.TheConstants.{FRONT_LIMIT, LINE_ROOM};
ghost use Rattle.req_blob.specs.FaultText.{op_text};

use cs_blob::BlobFault;
use req_tree::LineText;
use std::alloc::{AllocError, AllocFailed};

/// The first check that failed. `at` is where the word or the datum begins, from the start of the blob.
#[derive(Clone, Copy, Drop, PartialEq, Eq)]
pub enum OpsFault {
    /// The bytes begin with no requirement blob.
    Blob(BlobFault),
    /// The blob's kind is not 1, that of an expression.
    BadKind,
    /// The opcode is unknown, and no flag says how to pass over it.
    UnknownOp { at: u32, op: u32 },
    /// The opcode is known, and refused: it reads a time.
    OutOfScopeOp { at: u32 },
    /// The suffix of a match is none of 0 to 8 and 14.
    UnknownMatch { at: u32, suffix: u32 },
    /// A word or a datum, its padding included, goes past the end of the blob.
    Cut { at: u32 },
    /// A datum is filled up with other bytes than zeros.
    BadPadding { at: u32 },
    /// A hash has not 20 bytes.
    BadHashLength { at: u32 },
    /// An opcode stands at depth 257.
    TooDeep { at: u32 },
    /// Bytes are left behind the expression or the blob; `at` is the first of them.
    Trailing { at: u32 },
    /// A datum is no object identifier.
    BadOid { at: u32 },
    /// The blob has more than 1,048,576 bytes.
    TooLong,
    /// The key of a certificate's field begins with `field.`, `policy.` or `timestamp.`.
    BadKey { at: u32 },
    OutOfMemory,
}

impl OpsFault {
    ghost use Rattle.std.specs.Prelude.{◌≡◌, ◌+◌, ◌≤◌, ◌++◌, length};
    ghost use Rattle.line_text.specs.LineText.{line_bytes};
    ghost use Rattle.line_text.specs.declared.limits.TheConstants.{FRONT_LIMIT};
    ghost use Rattle.req_blob.specs.FaultText.{ops_fault_text};

    /// Appends the refusal's number, its name and its fields; nothing where there was no memory.
    pub fn line_into(&self, out: &mut LineText)
        requires { length (line_bytes out.old) ≤ FRONT_LIMIT + 100 }
        ensures text { line_bytes out.new ≡ line_bytes out.old ++ ops_fault_text self.now }
        ensures length { length (line_bytes out.new) ≤ length (line_bytes out.old) + 100 }
    {
        match self {
            OpsFault::Blob(why) => {
                out.push_all(b"1 Blob ");
                why.line_into(out);
            }
            OpsFault::BadKind => out.push_all(b"2 BadKind"),
            OpsFault::UnknownOp { at, op } => {
                push_field(out, b"3 UnknownOp at=", *at);
                push_op(out, *op);
            }
            OpsFault::OutOfScopeOp { at } => push_field(out, b"4 OutOfScopeOp at=", *at),
            OpsFault::UnknownMatch { at, suffix } => {
                push_field(out, b"5 UnknownMatch at=", *at);
                push_field(out, b" suffix=", *suffix);
            }
            OpsFault::Cut { at } => push_field(out, b"6 Cut at=", *at),
            OpsFault::BadPadding { at } => push_field(out, b"7 BadPadding at=", *at),
            OpsFault::BadHashLength { at } => push_field(out, b"8 BadHashLength at=", *at),
            OpsFault::TooDeep { at } => push_field(out, b"9 TooDeep at=", *at),
            OpsFault::Trailing { at } => push_field(out, b"10 Trailing at=", *at),
            OpsFault::BadOid { at } => push_field(out, b"11 BadOid at=", *at),
            OpsFault::TooLong => out.push_all(b"12 TooLong"),
            OpsFault::BadKey { at } => push_field(out, b"13 BadKey at=", *at),
            OpsFault::OutOfMemory => {}
        }
    }
}

fn push_field(out: &mut LineText, name: &[u8], number: u32)
    requires { length (line_bytes out.old) + (length name.now + 20) ≤ LINE_ROOM }
    ensures text { line_bytes out.new ≡ line_bytes out.old ++ (name.now ++ decimal number) }
    ensures length { length (line_bytes out.new) ≤ length (line_bytes out.old) + (length name.now + 20) }
{
    out.push_field(name, u64::from(number));
}

/// Appends an opcode's word in hexadecimal.
#[tactic(auto, unfolding(cs_blob::specs::Numbers::word))]
fn push_op(out: &mut LineText, op: u32)
    requires { length (line_bytes out.old) ≤ FRONT_LIMIT + 200 }
    ensures text { line_bytes out.new ≡ line_bytes out.old ++ (codes " op=" ++ op_text op) }
    ensures length { length (line_bytes out.new) ≤ length (line_bytes out.old) + 14 }
{
    let mut digits = [0; 8];
    let _ = hex::encode_to_slice(op.to_be_bytes(), &mut digits);
    out.push_all(b" op=0x");
    out.push_all(&digits);
}

impl From<AllocError> for OpsFault {
    ghost use Rattle.std.specs.Prelude.{◌≡◌};
    ghost use Rattle.req_blob.specs.declared.fault.OpsFault.TheVariants.{OutOfMemory};

    ghost from_gives = { λ _ fault. fault ≡ OutOfMemory };

    fn from(_: AllocError) -> OpsFault {
        OpsFault::OutOfMemory
    }
}

impl<T: Drop> From<AllocFailed<T>> for OpsFault {
    ghost use Rattle.std.specs.Prelude.{◌≡◌};
    ghost use Rattle.req_blob.specs.declared.fault.OpsFault.TheVariants.{OutOfMemory};

    ghost from_gives = { λ _ fault. fault ≡ OutOfMemory };

    fn from(_: AllocFailed<T>) -> OpsFault {
        OpsFault::OutOfMemory
    }
}
