//! Why bytes begin with no blob or super-blob, and why a part can't be added to one.

ghost use Rattle.std.specs.Prelude.{◌≡◌, ◌+◌, ◌≤◌, ◌++◌, length, decimal};
ghost use Rattle.line_text.specs.LineText.{line_bytes};
ghost use Rattle.line_text.specs.declared.limits.TheConstants.{LINE_ROOM};

use req_tree::LineText;
use std::alloc::{AllocError, AllocFailed};

/// The first of these that holds, in the order in which `read` looks. An `index` counts the entries of
/// the index from 0.
#[derive(Clone, Copy, Drop, PartialEq, Eq)]
pub enum BlobFault {
    /// The bytes end before a header does; or the super-blob has no room for the count of its parts, or
    /// for as many entries.
    Short,
    /// Another magic stands at the front.
    BadMagic,
    /// The header claims less than its own 8 bytes, or more bytes than were handed in.
    BadLength,
    /// There is room for the count, and it tells of more than 64 parts.
    TooManyParts,
    /// The part would reach into the index or beyond the super-blob, or is shorter than a header.
    PartOutside { index: u32 },
    /// A byte of the part belongs to a part of an entry before.
    PartOverlap { index: u32 },
    /// The type was seen at an entry before.
    PartTwice { index: u32 },
}

impl BlobFault {
    ghost use Rattle.std.specs.Prelude.{◌≡◌, ◌+◌, ◌≤◌, ◌++◌, length};
    ghost use Rattle.line_text.specs.LineText.{line_bytes};
    ghost use Rattle.line_text.specs.declared.limits.TheConstants.{FRONT_LIMIT};
    ghost use Rattle.cs_blob.specs.FaultText.{blob_fault_text};

    /// Appends the refusal's number, its name and its fields.
    pub fn line_into(&self, out: &mut LineText)
        requires { length (line_bytes out.old) ≤ FRONT_LIMIT + 200 }
        ensures text { line_bytes out.new ≡ line_bytes out.old ++ blob_fault_text self.now }
        ensures length { length (line_bytes out.new) ≤ length (line_bytes out.old) + 50 }
    {
        match self {
            BlobFault::Short => out.push_all(b"1 Short"),
            BlobFault::BadMagic => out.push_all(b"2 BadMagic"),
            BlobFault::BadLength => out.push_all(b"3 BadLength"),
            BlobFault::TooManyParts => out.push_all(b"4 TooManyParts"),
            BlobFault::PartOutside { index } => push_field(out, b"5 PartOutside index=", *index),
            BlobFault::PartOverlap { index } => push_field(out, b"6 PartOverlap index=", *index),
            BlobFault::PartTwice { index } => push_field(out, b"7 PartTwice index=", *index),
        }
    }
}

fn push_field(out: &mut LineText, name: &[u8], number: u32)
    requires { length (line_bytes out.old) + (length name.now + 20) ≤ LINE_ROOM }
    ensures text { line_bytes out.new ≡ line_bytes out.old ++ (name.now ++ decimal number) }
    ensures length { length (line_bytes out.new) ≤ length (line_bytes out.old) + (length name.now + 20) }
{
    out.push_field(name, u64::from(number));
}

/// Why a part can't be added: the first of these that holds, in this order.
#[derive(Clone, Copy, Drop, PartialEq, Eq)]
pub enum WriterFault {
    /// The type is taken.
    PartTwice,
    /// The index is full: it has 64 entries.
    TooManyParts,
    /// The whole would grow beyond 16 MiB.
    TooLong,
    OutOfMemory,
}

impl From<AllocError> for WriterFault {
    ghost use Rattle.std.specs.Prelude.{◌≡◌};
    ghost use Rattle.cs_blob.specs.declared.fault.WriterFault.TheVariants.{OutOfMemory};

    ghost from_gives = { λ _ fault. fault ≡ OutOfMemory };

    fn from(_: AllocError) -> WriterFault {
        WriterFault::OutOfMemory
    }
}

impl<T: Drop> From<AllocFailed<T>> for WriterFault {
    ghost use Rattle.std.specs.Prelude.{◌≡◌};
    ghost use Rattle.cs_blob.specs.declared.fault.WriterFault.TheVariants.{OutOfMemory};

    ghost from_gives = { λ _ fault. fault ≡ OutOfMemory };

    fn from(_: AllocFailed<T>) -> WriterFault {
        WriterFault::OutOfMemory
    }
}
