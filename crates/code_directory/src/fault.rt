//! Why bytes are no usable signature, and why code or a part doesn't agree with it.

ghost use Rattle.std.specs.Prelude.{◌≡◌, ◌+◌, ◌≤◌, ◌++◌, length, decimal};
ghost use Rattle.line_text.specs.LineText.{line_bytes};
ghost use Rattle.line_text.specs.declared.limits.TheConstants.{LINE_ROOM};

use cs_blob::BlobFault;
use line_text::LineText;

/// The first check that failed. A `part` is the type of the directory's part, a `slot` counts code slots
/// from 0, and a `kind` is the type of the part that differs.
#[derive(Clone, Copy, Drop, PartialEq, Eq)]
pub enum CodeFault {
    /// The bytes begin with no embedded signature.
    Super(BlobFault),
    /// No part has the type of the first code directory.
    NoDirectory,
    /// The version is below the first or above the last that is read.
    BadVersion { part: u32 },
    /// The type of the digests is none of 1 to 4.
    BadHashKind { part: u32 },
    /// The size of the digests isn't that of their type.
    BadHashSize { part: u32 },
    /// A slot begins before the end of the header or ends past the directory.
    SlotsOutside { part: u32 },
    /// The identifier begins before the end of the header, has no end, is empty or too long.
    BadIdentifier { part: u32 },
    /// The directory has scatter vectors.
    Scatter { part: u32 },
    /// There are more or fewer slots than the covered code has pages.
    SlotCount { part: u32 },
    /// A page of the code has another digest.
    PageDiffers { slot: u32 },
    /// The code ends before the covered code does.
    CodeShort,
    /// A part has another digest, or no slot.
    PartDiffers { kind: u32 },
    /// The part isn't a blob with the magic of a code directory.
    Directory { part: u32, fault: BlobFault },
    /// The directory ends before its header does.
    HeaderCut { part: u32 },
    /// The exponent of the size of a page is above 30.
    BadPageSize { part: u32 },
}

impl CodeFault {
    ghost use Rattle.std.specs.Prelude.{◌≡◌, ◌+◌, ◌≤◌, ◌++◌, length};
    ghost use Rattle.line_text.specs.LineText.{line_bytes};
    ghost use Rattle.line_text.specs.declared.limits.TheConstants.{FRONT_LIMIT};
    ghost use Rattle.code_directory.specs.FaultText.{code_fault_text};

    /// Appends the refusal's number, its name and its fields.
    pub fn line_into(&self, out: &mut LineText)
        requires { length (line_bytes out.old) ≤ FRONT_LIMIT + 100 }
        ensures text { line_bytes out.new ≡ line_bytes out.old ++ code_fault_text self.now }
        ensures length { length (line_bytes out.new) ≤ length (line_bytes out.old) + 100 }
    {
        match self {
            CodeFault::Super(why) => {
                out.push_all(b"1 Super ");
                why.line_into(out);
            }
            CodeFault::NoDirectory => out.push_all(b"2 NoDirectory"),
            CodeFault::BadVersion { part } => push_field(out, b"3 BadVersion part=", *part),
            CodeFault::BadHashKind { part } => push_field(out, b"4 BadHashKind part=", *part),
            CodeFault::BadHashSize { part } => push_field(out, b"5 BadHashSize part=", *part),
            CodeFault::SlotsOutside { part } => push_field(out, b"6 SlotsOutside part=", *part),
            CodeFault::BadIdentifier { part } => push_field(out, b"7 BadIdentifier part=", *part),
            CodeFault::Scatter { part } => push_field(out, b"8 Scatter part=", *part),
            CodeFault::SlotCount { part } => push_field(out, b"9 SlotCount part=", *part),
            CodeFault::PageDiffers { slot } => push_field(out, b"10 PageDiffers slot=", *slot),
            CodeFault::CodeShort => out.push_all(b"11 CodeShort"),
            CodeFault::PartDiffers { kind } => push_field(out, b"12 PartDiffers kind=", *kind),
            CodeFault::Directory { part, fault } => {
                push_field(out, b"13 Directory part=", *part);
                out.push(b' ');
                fault.line_into(out);
            }
            CodeFault::HeaderCut { part } => push_field(out, b"14 HeaderCut part=", *part),
            CodeFault::BadPageSize { part } => push_field(out, b"15 BadPageSize part=", *part),
        }
    }
}

fn push_field(out: &mut LineText, name: &[u8], number: u32)
    requires { length (line_bytes out.old) + (length name.now + 20) ≤ LINE_ROOM }
    ensures text { line_bytes out.new ≡ line_bytes out.old ++ (name.now ++ decimal number) }
    ensures length { length (line_bytes out.new) ≤ length (line_bytes out.old) + (length name.now + 20) }
{
    out.push_field(name, u64::from(number));
}
