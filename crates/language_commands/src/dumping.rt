//! `dump NAME`: the text of the requirement, or of the set of requirements, whose blob a file is.

ghost use Rattle.std.specs.Prelude.{◌≡◌, ◌≢◌, Err, IfOk};
ghost use Rattle.gk_io.specs.Devices.{PassesShelf};
ghost use Rattle.req_tree.specs.Tree.{tree_of};
ghost use Rattle.req_blob.specs.declared.limits.TheConstants.{MOST_BYTES};
ghost use Rattle.dumped_text.specs.Dumped.{dumped};
ghost use Rattle.line_reader.specs.Lines.{with_lf};
ghost use Rattle.run_status.specs.Files.{SaysOnFile};
ghost use Rattle.run_status.specs.Said.{IsSpoken};
ghost use Rattle.language_commands.specs.Dumping.{Dumps, DumpsRequirement, DumpsSet};
ghost use Rattle.language_commands.specs.Dumping as spec;

use crate::refusal::{refuse_ops, refuse_set};
use gk_io::Shelf;
use line_text::Bytes;
use req_blob::MOST_BYTES;
use req_dumper::{dump, dump_set};
use req_ops::{decode, decode_set};
use req_tree::Req;
use run_status::{Asked, Said, Status, Stop, fetch_file};
use std::alloc::{AllocError, Global};

/// What `dump NAME` says.
pub fn dump_file<H: Shelf>(alloc: Global, name: &str, shelf: &mut H) -> Result<Said, Stop>
    ensures says { IfOk result (λ said. SaysOnFile Dumps (H.files shelf.old) name.now MOST_BYTES said.status said.text) }
    ensures spoken { IfOk result (λ said. IsSpoken said.status) }
    ensures shelf { PassesShelf (result ≡ Err Stop.ShelfFault) (result ≡ Err Stop.ShelfFault) (H.files shelf.old) (H.files shelf.new) (H.faults shelf.old) (H.faults shelf.new) }
    ensures unasked { result ≢ Err Stop.ClockFault }
{
    match fetch_file(alloc, shelf, name, MOST_BYTES)? {
        Asked::File(bytes) => Ok(dumped(alloc, bytes.as_slice())?),
        Asked::Said(said) => Ok(said),
    }
}

fn dumped(alloc: Global, bytes: &[u8]) -> Result<Said, AllocError>
    ensures says { IfOk result (λ said. Dumps bytes.now said.status said.text) }
    ensures spoken { IfOk result (λ said. IsSpoken said.status) }
{
    if begins_as_set(bytes) {
        dumped_set(alloc, bytes)
    } else {
        dumped_requirement(alloc, bytes)
    }
}

/// Whether the first four bytes are the magic of a set.
fn begins_as_set(bytes: &[u8]) -> bool
    ensures { result ≡ spec.begins_as_set bytes.now }
{
    bytes.starts_with(&[0xfa, 0xde, 0x0c, 0x01])
}

fn dumped_set(alloc: Global, bytes: &[u8]) -> Result<Said, AllocError>
    ensures says { IfOk result (λ said. DumpsSet bytes.now said.status said.text) }
    ensures spoken { IfOk result (λ said. IsSpoken said.status) }
{
    match decode_set(alloc, bytes) {
        Ok(set) => {
            let text = dump_set(alloc, &set);
            drop(set);
            Ok(Said {
                status: Status::Fine,
                text: text?,
            })
        }
        Err(fault) => refuse_set(alloc, fault),
    }
}

fn dumped_requirement(alloc: Global, bytes: &[u8]) -> Result<Said, AllocError>
    ensures says { IfOk result (λ said. DumpsRequirement bytes.now said.status said.text) }
    ensures spoken { IfOk result (λ said. IsSpoken said.status) }
{
    match decode(alloc, bytes) {
        Ok(req) => Ok(Said {
            status: Status::Fine,
            text: line_of(alloc, req)?,
        }),
        Err(fault) => refuse_ops(alloc, fault),
    }
}

/// The requirement's text with one LF behind it.
fn line_of(alloc: Global, req: Req) -> Result<Bytes, AllocError>
    ensures { IfOk result (λ line. line ≡ with_lf (dumped (tree_of req))) }
{
    let text = dump(alloc, &req);
    drop(req);
    with_line_end(alloc, &text?)
}

fn with_line_end(alloc: Global, text: &Bytes) -> Result<Bytes, AllocError>
    ensures { IfOk result (λ line. line ≡ with_lf text.now) }
{
    let text = text.as_slice();
    let mut line = Vec::with_capacity(alloc, text.len().saturating_add(1))?;
    line.extend_from_slice(text)?;
    line.push(b'\n')?;
    Ok(Bytes::from_vec(line))
}
