//! `assess KIND NAME [CODE]`: the files, then the clock, then the assessment by a desk that is lent.

ghost use Rattle.std.specs.Prelude.{◌≡◌, ◌≢◌, List, Err, IfOk, Some};
ghost use Rattle.policy_model.specs.History.{Event, Opening};
ghost use Rattle.desk_state.specs.Stands.{Stands};
ghost use Rattle.gk_io.specs.Devices.{PassesShelf, PassesClock};
ghost use Rattle.rule_values.specs.Kind.{kind_of};
ghost use Rattle.assess_command.specs.Files.{code_of};
ghost use Rattle.run_status.specs.Files.{SaysOnFile};
ghost use Rattle.run_status.specs.Said.{IsSpoken};
ghost use Rattle.file_assessment.specs.declared.limits.TheConstants.{MOST_CODE_BYTES};
ghost use Rattle.file_assessment.specs.Assessing.{SaysAssess, SaysWithCode, SaysByClock, SaysAt, HasFile, HasCode, HasFiles, name_of, status_of};
ghost use Rattle.file_assessment.specs.Assessing as spec;

use crate::limits::{MOST_CODE_BYTES, MOST_SIGNATURE_BYTES};
use assess_command::{Assessed, assess_files};
use desk_state::Desk;
use gk_io::{Clock, Shelf};
use line_text::{Bytes, LineText};
use rule_values::Kind;
use run_status::{Asked, Said, Status, Stop, fetch_file};
use std::alloc::{AllocError, Global};

/// What `assess KIND NAME [CODE]` says.
pub fn assess<H: Shelf, C: Clock>(
    alloc: Global,
    desk: &mut Desk,
    kind: Kind,
    name: &str,
    code: Option<&str>,
    shelf: &mut H,
    clock: &mut C,
) -> Result<Said, Stop>
    ensures says { (o : Opening) (h : List Event) → Stands desk.old o h → IfOk result (λ said. SaysAssess o h (H.files shelf.old) (C.moments clock.old) (kind_of kind) name.now (name_of code.entry) said.status said.text) }
    ensures spoken { IfOk result (λ said. IsSpoken said.status) }
    ensures reached { result ≡ Err Stop.ClockFault → HasFiles (H.files shelf.old) name.now (name_of code.entry) }
    ensures shelf { PassesShelf (result ≡ Err Stop.ShelfFault) (result ≡ Err Stop.ShelfFault) (H.files shelf.old) (H.files shelf.new) (H.faults shelf.old) (H.faults shelf.new) }
    ensures clock { PassesClock (result ≡ Err Stop.ClockFault) (result ≡ Err Stop.ClockFault) (C.moments clock.old) (C.moments clock.new) (C.faults clock.old) (C.faults clock.new) }
{
    match fetch_file(alloc, shelf, name, MOST_SIGNATURE_BYTES)? {
        Asked::File(signature) => {
            with_signature(alloc, desk, kind, signature.as_slice(), code, shelf, clock)
        }
        Asked::Said(said) => Ok(said),
    }
}

fn with_signature<H: Shelf, C: Clock>(
    alloc: Global,
    desk: &mut Desk,
    kind: Kind,
    signature: &[u8],
    code: Option<&str>,
    shelf: &mut H,
    clock: &mut C,
) -> Result<Said, Stop>
    ensures says { (o : Opening) (h : List Event) → Stands desk.old o h → IfOk result (λ said. SaysWithCode o h (H.files shelf.old) (C.moments clock.old) (kind_of kind) (name_of code.entry) signature.now said.status said.text) }
    ensures spoken { IfOk result (λ said. IsSpoken said.status) }
    ensures reached { result ≡ Err Stop.ClockFault → HasCode (H.files shelf.old) (name_of code.entry) }
    ensures shelf { PassesShelf (result ≡ Err Stop.ShelfFault) (result ≡ Err Stop.ShelfFault) (H.files shelf.old) (H.files shelf.new) (H.faults shelf.old) (H.faults shelf.new) }
    ensures clock { PassesClock (result ≡ Err Stop.ClockFault) (result ≡ Err Stop.ClockFault) (C.moments clock.old) (C.moments clock.new) (C.faults clock.old) (C.faults clock.new) }
{
    match code {
        Some(name) => with_code(alloc, desk, kind, signature, name, shelf, clock),
        None => by_clock(alloc, desk, kind, signature, None, clock),
    }
}

fn with_code<H: Shelf, C: Clock>(
    alloc: Global,
    desk: &mut Desk,
    kind: Kind,
    signature: &[u8],
    name: &str,
    shelf: &mut H,
    clock: &mut C,
) -> Result<Said, Stop>
    ensures says { (o : Opening) (h : List Event) → Stands desk.old o h → IfOk result (λ said. SaysOnFile (λ code. SaysByClock o h (C.moments clock.old) (kind_of kind) signature.now (Some code)) (H.files shelf.old) name.now MOST_CODE_BYTES said.status said.text) }
    ensures spoken { IfOk result (λ said. IsSpoken said.status) }
    ensures reached { result ≡ Err Stop.ClockFault → HasFile (H.files shelf.old) name.now MOST_CODE_BYTES }
    ensures shelf { PassesShelf (result ≡ Err Stop.ShelfFault) (result ≡ Err Stop.ShelfFault) (H.files shelf.old) (H.files shelf.new) (H.faults shelf.old) (H.faults shelf.new) }
    ensures clock { PassesClock (result ≡ Err Stop.ClockFault) (result ≡ Err Stop.ClockFault) (C.moments clock.old) (C.moments clock.new) (C.faults clock.old) (C.faults clock.new) }
{
    match fetch_file(alloc, shelf, name, MOST_CODE_BYTES)? {
        Asked::File(code) => by_clock(alloc, desk, kind, signature, Some(code.as_slice()), clock),
        Asked::Said(said) => Ok(said),
    }
}

fn by_clock<C: Clock>(
    alloc: Global,
    desk: &mut Desk,
    kind: Kind,
    signature: &[u8],
    code: Option<&[u8]>,
    clock: &mut C,
) -> Result<Said, Stop>
    ensures says { (o : Opening) (h : List Event) → Stands desk.old o h → IfOk result (λ said. SaysByClock o h (C.moments clock.old) (kind_of kind) signature.now (code_of code.entry) said.status said.text) }
    ensures spoken { IfOk result (λ said. IsSpoken said.status) }
    ensures unasked { result ≢ Err Stop.ShelfFault }
    ensures clock { PassesClock (result ≡ Err Stop.ClockFault) (result ≡ Err Stop.ClockFault) (C.moments clock.old) (C.moments clock.new) (C.faults clock.old) (C.faults clock.new) }
{
    let now = clock.now()?;
    Ok(said_at(alloc, desk, kind, signature, code, now)?)
}

fn said_at(
    alloc: Global,
    desk: &mut Desk,
    kind: Kind,
    signature: &[u8],
    code: Option<&[u8]>,
    now: u64,
) -> Result<Said, AllocError>
    ensures says { (o : Opening) (h : List Event) → Stands desk.old o h → IfOk result (λ said. SaysAt o h (kind_of kind) signature.now (code_of code.entry) now said.status said.text) }
    ensures spoken { IfOk result (λ said. IsSpoken said.status) }
{
    let mut line = LineText::new();
    let how = assess_files(alloc, desk, kind, signature, code, now, &mut line)?;
    line.push(b'\n');
    Ok(Said {
        status: status_by(how),
        text: Bytes::copy_of(alloc, line.as_slice())?,
    })
}

/// The status of a run whose assessment came to this.
fn status_by(how: Assessed) -> Status
    ensures { result ≡ status_of how }
{
    match how {
        Assessed::Accepted => Status::Fine,
        Assessed::Rejected => Status::Denied,
        Assessed::Refused => Status::Refused,
    }
}
