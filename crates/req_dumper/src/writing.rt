//! Bytes and numbers appended to a text.

ghost use Rattle.std.specs.Prelude.{◌≡◌, ◌++◌, decimal, OnOk, FitsSigned};
ghost use Rattle.std.specs.Int.{w32, to_be_bytes};
ghost use Rattle.std.specs.Fmt.{signed_decimal};
ghost use Rattle.hex.specs.Hex.{encode_lower};
ghost use Rattle.req_dumper.specs.Places.{shown};

use itoa::Buffer;
use std::alloc::AllocError;

pub(crate) fn put(out: &mut Vec<u8>, text: &[u8]) -> Result<(), AllocError>
    ensures { OnOk result (out.new.items ≡ out.old.items ++ text.now) }
{
    out.extend_from_slice(text)?;
    Ok(())
}

/// Appends a text where it is shown, and nothing else.
pub(crate) fn put_if(out: &mut Vec<u8>, is_shown: bool, text: &[u8]) -> Result<(), AllocError>
    ensures { OnOk result (out.new.items ≡ out.old.items ++ shown is_shown text.now) }
{
    if is_shown { put(out, text) } else { Ok(()) }
}

pub(crate) fn put_count(out: &mut Vec<u8>, count: usize) -> Result<(), AllocError>
    ensures { OnOk result (out.new.items ≡ out.old.items ++ decimal count) }
{
    let mut buffer = Buffer::new();
    put(out, buffer.format(count).as_bytes())
}

pub(crate) fn put_signed(out: &mut Vec<u8>, number: i32) -> Result<(), AllocError>
    ensures text { OnOk result (out.new.items ≡ out.old.items ++ signed_decimal number) }
    ensures number { FitsSigned w32 number }
{
    let mut buffer = Buffer::new();
    put(out, buffer.format(number).as_bytes())
}

/// Appends an opcode's word in hexadecimal, all eight digits.
pub(crate) fn put_op(out: &mut Vec<u8>, op: u32) -> Result<(), AllocError>
    ensures { OnOk result (out.new.items ≡ out.old.items ++ encode_lower (to_be_bytes w32 op)) }
{
    let mut digits = [0; 8];
    let _ = hex::encode_to_slice(op.to_be_bytes(), &mut digits);
    put(out, &digits)
}
