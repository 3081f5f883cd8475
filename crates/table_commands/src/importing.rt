//! `import NAME`: an edit a row, each with its reply.

ghost use Rattle.std.specs.Prelude.{◌≡◌, ◌≢◌, ◌≤◌, [], List, Err, IfOk, IsSome, OnErr};
ghost use Rattle.gk_io.specs.Devices.{PassesShelf};
ghost use Rattle.policy_model.specs.History.{Event, Opening};
ghost use Rattle.line_reader.specs.Lines.{with_lf};
ghost use Rattle.import_csv.specs.FaultText.{import_fault_text};
ghost use Rattle.import_csv.specs.RowCode.{edits_of};
ghost use Rattle.desk_state.specs.Stands.{tables, Stands};
ghost use Rattle.desk_state.specs.Failures.{Shows};
ghost use Rattle.policy_keeper.specs.Mirror.{Mirrors};
ghost use Rattle.table_commands.specs.ImportSays.{Imports, SaysImport};
ghost use Rattle.table_commands.specs.Steps.{Comes};

use crate::limits::MOST_IMPORT_BYTES;
use crate::replies::{refused_when, reply_onto};
use desk_state::Desk;
use gk_io::Shelf;
use import_csv::{ImportFault, read_rules};
use line_text::{Bytes, LineText};
use policy_keeper::Keeper;
use rule_edits::Edit;
use run_status::{Asked, Said, Status, Stop, fetch_file};
use std::alloc::{AllocError, Global};

/// What `import NAME` says: all rows are read before the first edit is made, and each reply has its room before its edit
/// is made. Where memory runs out behind rows that were answered, their replies are said with the status of that.
pub fn import<H: Shelf, K: Keeper>(
    alloc: Global,
    desk: &mut Desk,
    keeper: &mut K,
    name: &str,
    shelf: &mut H,
) -> Result<Said, Stop>
    requires mirrors { Mirrors (K.told keeper.old) (tables desk.old) }
    ensures says { (o : Opening) (h : List Event) → Stands desk.old o h
        → IfOk result (λ said. (after : List Event) × SaysImport o h (H.files shelf.old) name.now said.status said.text after × Stands desk.new o after × Shows h after (K.faults keeper.old) (K.faults keeper.new)) }
    ensures unchanged { (o : Opening) (h : List Event) → Stands desk.old o h → OnErr result (Stands desk.new o h) }
    ensures mirrors { Mirrors (K.told keeper.new) (tables desk.new) }
    ensures telling { IsSome (K.told keeper.new) → IsSome (K.told keeper.old) }
    ensures keeper_later { K.faults keeper.old ≤ K.faults keeper.new }
    ensures shelf { PassesShelf (result ≡ Err Stop.ShelfFault) (result ≡ Err Stop.ShelfFault) (H.files shelf.old) (H.files shelf.new) (H.faults shelf.old) (H.faults shelf.new) }
    ensures unasked { result ≢ Err Stop.ClockFault }
{
    match fetch_file(alloc, shelf, name, MOST_IMPORT_BYTES)? {
        Asked::File(bytes) => Ok(import_bytes(alloc, desk, keeper, bytes.as_slice())?),
        Asked::Said(said) => Ok(said),
    }
}

/// What is said of the bytes of an import.
fn import_bytes<K: Keeper>(
    alloc: Global,
    desk: &mut Desk,
    keeper: &mut K,
    bytes: &[u8],
) -> Result<Said, AllocError>
    requires mirrors { Mirrors (K.told keeper.old) (tables desk.old) }
    ensures says { (o : Opening) (h : List Event) → Stands desk.old o h
        → IfOk result (λ said. (after : List Event) × Imports o h after bytes.now said.status said.text × Stands desk.new o after × Shows h after (K.faults keeper.old) (K.faults keeper.new)) }
    ensures unchanged { (o : Opening) (h : List Event) → Stands desk.old o h → OnErr result (Stands desk.new o h) }
    ensures mirrors { Mirrors (K.told keeper.new) (tables desk.new) }
    ensures telling { IsSome (K.told keeper.new) → IsSome (K.told keeper.old) }
    ensures later { K.faults keeper.old ≤ K.faults keeper.new }
{
    match read_rules(alloc, bytes) {
        Ok(edits) => Ok(import_rows(alloc, desk, keeper, edits.as_slice())),
        Err(ImportFault::OutOfMemory) => Err(AllocError),
        Err(fault) => refused(alloc, &fault),
    }
}

/// What is said of a file that is refused.
fn refused(alloc: Global, fault: &ImportFault) -> Result<Said, AllocError>
    ensures status { IfOk result (λ said. said.status ≡ Status.Refused) }
    ensures text { IfOk result (λ said. said.text ≡ with_lf (import_fault_text fault.now)) }
{
    let mut line = LineText::new();
    fault.line_into(&mut line);
    line.push(b'\n');
    Ok(Said {
        status: Status::Refused,
        text: Bytes::copy_of(alloc, line.as_slice())?,
    })
}

/// What is said of the rows, each made as its edit.
fn import_rows<K: Keeper>(alloc: Global, desk: &mut Desk, keeper: &mut K, edits: &[Edit]) -> Said
    requires mirrors { Mirrors (K.told keeper.old) (tables desk.old) }
    ensures says { (o : Opening) (h : List Event) → Stands desk.old o h → Comes o h (edits_of edits.now) desk.new (K.faults keeper.old) (K.faults keeper.new) result.status result.text }
    ensures mirrors { Mirrors (K.told keeper.new) (tables desk.new) }
    ensures telling { IsSome (K.told keeper.new) → IsSome (K.told keeper.old) }
    ensures later { K.faults keeper.old ≤ K.faults keeper.new }
{
    let mut text = Vec::new(alloc);
    let status = rows_onto(alloc, desk, keeper, edits, &mut text);
    Said {
        status,
        text: Bytes::from_vec(text),
    }
}

/// Appends the reply to each edit, up to the first for which there is no memory.
fn rows_onto<K: Keeper>(
    alloc: Global,
    desk: &mut Desk,
    keeper: &mut K,
    edits: &[Edit],
    text: &mut Vec<u8>,
) -> Status
    requires mirrors { Mirrors (K.told keeper.old) (tables desk.old) }
    requires empty { text.old.items ≡ [] }
    ensures says { (o : Opening) (h : List Event) → Stands desk.old o h → Comes o h (edits_of edits.now) desk.new (K.faults keeper.old) (K.faults keeper.new) result text.new.items }
    ensures mirrors { Mirrors (K.told keeper.new) (tables desk.new) }
    ensures telling { IsSome (K.told keeper.new) → IsSome (K.told keeper.old) }
    ensures later { K.faults keeper.old ≤ K.faults keeper.new }
{
    let mut any = false;
    for edit in edits {
        match reply_onto(alloc, desk, keeper, edit, text) {
            Ok(refused) => any = any | refused,
            Err(_) => return Status::OutOfMemory,
        }
    }
    refused_when(any)
}
