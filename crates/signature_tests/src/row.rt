//! One row: a signature, a space, and its code, in hexadecimal; `-` has no bytes, and `none` is no code.

ghost use Rattle.std.specs.Prelude.{◌≡◌, ◌≤◌, [], length};
ghost use Rattle.line_text.specs.LineText.{line_bytes};

use code_directory::{CodeFault, DER_ENTITLEMENTS, ENTITLEMENTS, REQUIREMENTS, Signature};
use line_text::LineText;
use std::alloc::Global;

/// What a row's signature says of its code: cdhash, identifier, platform, and how many bytes the part of the
/// requirements has; or the first refusal.
pub fn told(alloc: Global, row: &[u8]) -> LineText
    ensures { length (line_bytes result) ≤ 1000 }
{
    let mut out = LineText::new();
    let (signature, code) = parts(row);
    match (bytes_of(alloc, signature), bytes_of(alloc, code)) {
        (Some(signature), Some(code)) => tell(
            signature.as_slice(),
            Some(code.as_slice()),
            &mut out,
        ),
        (Some(signature), None) => tell(signature.as_slice(), None, &mut out),
        _ => out.push_all(b"no row"),
    }
    out
}

/// What stands before the first space, and what stands behind it.
fn parts(row: &[u8]) -> (&[u8], &[u8]) {
    for (at, byte) in row.iter().enumerate() {
        if *byte == b' ' {
            return (row.split_at(at).0, row.split_at(at + 1).1);
        }
    }
    (row, b"")
}

/// The bytes of a text in hexadecimal; none, where it is another text.
fn bytes_of(alloc: Global, text: &[u8]) -> Option<Vec<u8>> {
    if text == b"-".as_slice() {
        return Some(Vec::new(alloc));
    }
    hex::decode(alloc, text).ok()
}

fn tell(signature: &[u8], code: Option<&[u8]>, out: &mut LineText)
    requires { line_bytes out.old ≡ [] }
    ensures { length (line_bytes out.new) ≤ 1000 }
{
    match Signature::read(signature) {
        Ok(signature) => match check(&signature, code) {
            Ok(()) => say(&signature, out),
            Err(fault) => fault.line_into(out),
        },
        Err(fault) => fault.line_into(out),
    }
}

fn check(signature: &Signature<'_>, code: Option<&[u8]>) -> Result<(), CodeFault> {
    signature.check_part(REQUIREMENTS)?;
    signature.check_part(ENTITLEMENTS)?;
    signature.check_part(DER_ENTITLEMENTS)?;
    match code {
        Some(code) => signature.check_pages(code),
        None => Ok(()),
    }
}

fn say(signature: &Signature<'_>, out: &mut LineText)
    requires { line_bytes out.old ≡ [] }
    ensures { length (line_bytes out.new) ≤ 1000 }
{
    let subject = signature.subject();
    let mut digits = [0; 40];
    let _ = hex::encode_to_slice(signature.cdhash().bytes, &mut digits);
    out.push_all(&digits);
    out.push(b' ');
    out.push_word(subject.identifier.as_slice());
    out.push_field(b" platform=", u64::from(subject.platform));
    out.push_field(b" requirements=", size_of(signature.requirements()));
}

/// How many bytes there are; 0 for no part.
fn size_of(part: Option<&[u8]>) -> u64 {
    match part {
        Some(part) => part.len() as u64,
        None => 0,
    }
}
