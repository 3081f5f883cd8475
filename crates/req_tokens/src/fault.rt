//! Why a text is no requirement.

ghost use Rattle.std.specs.Prelude.{◌≡◌, ◌+◌, ◌≤◌, ◌++◌, length, decimal};
ghost use Rattle.line_text.specs.LineText.{line_bytes};
ghost use Rattle.line_text.specs.declared.limits.TheConstants.{LINE_ROOM};

use line_text::LineText;
use std::alloc::{AllocError, AllocFailed};

/// The first check that failed, in the order of the checks: the length of the text, the first five by their
/// place, the parentheses that are open at once, the grammar, the keys, the kinds and the depth of the tree.
/// `at` counts bytes and `token` counts tokens, both from 0.
#[derive(Clone, Copy, Drop, PartialEq, Eq)]
pub enum TextFault {
    /// The byte begins no token; or it is a backslash in a quoted string with no quote behind it.
    BadByte { at: u32 },
    /// The quoted string or the hash that begins there has no closing quote.
    OpenString { at: u32 },
    /// The comment that begins there has no `*/`.
    OpenComment { at: u32 },
    /// The hash that begins there has not exactly 40 hexadecimal digits; or the bytes have not an even number
    /// of them, two at least.
    BadHex { at: u32 },
    /// The integer that begins there is above 2147483648.
    IntTooLarge { at: u32 },
    /// The first token that can't stand where it does; the number of tokens where the text ends too early.
    Syntax { token: u32 },
    /// More than 256 parentheses are open at once, or the tree is deeper than 256.
    TooDeep,
    /// The text has more than 65,536 bytes.
    TextTooLong,
    /// The key of a certificate's test names nothing that can be tested.
    BadKey { token: u32 },
    /// The kind of a set's part stands a second time.
    KindTwice { token: u32 },
    OutOfMemory,
}

impl TextFault {
    ghost use Rattle.std.specs.Prelude.{◌≡◌, ◌+◌, ◌≤◌, ◌++◌, length};
    ghost use Rattle.line_text.specs.LineText.{line_bytes};
    ghost use Rattle.line_text.specs.declared.limits.TheConstants.{FRONT_LIMIT};
    ghost use Rattle.req_tokens.specs.FaultText.{text_fault_text};

    /// Appends the refusal's number, its name and its fields; nothing where there was no memory.
    pub fn line_into(&self, out: &mut LineText)
        requires { length (line_bytes out.old) ≤ FRONT_LIMIT + 200 }
        ensures text { line_bytes out.new ≡ line_bytes out.old ++ text_fault_text self.now }
        ensures length { length (line_bytes out.new) ≤ length (line_bytes out.old) + 50 }
    {
        match self {
            TextFault::BadByte { at } => push_field(out, b"1 BadByte at=", *at),
            TextFault::OpenString { at } => push_field(out, b"2 OpenString at=", *at),
            TextFault::OpenComment { at } => push_field(out, b"3 OpenComment at=", *at),
            TextFault::BadHex { at } => push_field(out, b"4 BadHex at=", *at),
            TextFault::IntTooLarge { at } => push_field(out, b"5 IntTooLarge at=", *at),
            TextFault::Syntax { token } => push_field(out, b"6 Syntax token=", *token),
            TextFault::TooDeep => out.push_all(b"7 TooDeep"),
            TextFault::TextTooLong => out.push_all(b"8 TextTooLong"),
            TextFault::BadKey { token } => push_field(out, b"9 BadKey token=", *token),
            TextFault::KindTwice { token } => push_field(out, b"10 KindTwice token=", *token),
            TextFault::OutOfMemory => {}
        }
    }
}

fn push_field(out: &mut LineText, name: &[u8], number: u32)
    requires { length (line_bytes out.old) + (length name.now + 20) ≤ LINE_ROOM }
    ensures text { line_bytes out.new ≡ line_bytes out.old ++ (name.now ++ decimal number) }
    ensures length { length (line_bytes out.new) ≤ length (line_bytes out.old) + (length name.now + 20) }
{
    out.push_field(name, u64::from(number));
}

impl From<AllocError> for TextFault {
    ghost use Rattle.std.specs.Prelude.{◌≡◌};
    ghost use Rattle.req_tokens.specs.declared.fault.TextFault.TheVariants.{OutOfMemory};

    ghost from_gives = { λ _ fault. fault ≡ OutOfMemory };

    fn from(_: AllocError) -> TextFault {
        TextFault::OutOfMemory
    }
}

impl<T: Drop> From<AllocFailed<T>> for TextFault {
    ghost use Rattle.std.specs.Prelude.{◌≡◌};
    ghost use Rattle.req_tokens.specs.declared.fault.TextFault.TheVariants.{OutOfMemory};

    ghost from_gives = { λ _ fault. fault ≡ OutOfMemory };

    fn from(_: AllocFailed<T>) -> TextFault {
        TextFault::OutOfMemory
    }
}
