//! The facts of a run.

ghost use Rattle.std.specs.Prelude.{◌≡◌, IfOk, IfErr, IsErrOf, Some};
ghost use Rattle.gk_io.specs.Devices.{PassesShelf};
ghost use Rattle.line_reader.specs.Lines.{with_lf};
ghost use Rattle.code_facts.specs.Tables.{IsFactsFile, table_facts};
ghost use Rattle.run_status.specs.declared.stop.Stop.TheVariants as stop;
ghost use Rattle.desk_opening.specs.declared.unopened.Unopened.TheVariants as unopened;
ghost use Rattle.desk_opening.specs.Facts.{IsFacts, FactsFail, ReadingFails, IsRefusal, name_of};
ghost use Rattle.desk_opening.specs.StoreTexts.{bad_facts_text};

use crate::limits::MOST_FACTS_BYTES;
use crate::unopened::Unopened;
use code_facts::{FactFault, FactTable};
use gk_io::Shelf;
use line_text::{Bytes, LineText};
use run_status::{Asked, Said, Status, Stop, fetch_file};
use std::alloc::{AllocError, Global};

/// The facts of the file of that name; none where no file is named.
pub(crate) fn facts_of_run<H: Shelf>(
    alloc: Global,
    name: Option<&str>,
    shelf: &mut H,
) -> Result<FactTable, Unopened>
    ensures found { IfOk result (λ table. IsFacts (H.files shelf.old) (name_of name.entry) (table_facts table)) }
    ensures fails { IfErr result (λ why. FactsFail (H.files shelf.old) (name_of name.entry) why) }
    ensures shelf { PassesShelf (IsErrOf result (unopened.Stop stop.ShelfFault)) (IsErrOf result (unopened.Stop stop.ShelfFault))
        (H.files shelf.old) (H.files shelf.new) (H.faults shelf.old) (H.faults shelf.new) }
{
    match name {
        Some(name) => facts_of_file(alloc, name, shelf),
        None => Ok(FactTable::empty(alloc)),
    }
}

fn facts_of_file<H: Shelf>(alloc: Global, name: &str, shelf: &mut H) -> Result<FactTable, Unopened>
    ensures found { IfOk result (λ table. IsFacts (H.files shelf.old) (Some name.now) (table_facts table)) }
    ensures fails { IfErr result (λ why. FactsFail (H.files shelf.old) (Some name.now) why) }
    ensures shelf { PassesShelf (IsErrOf result (unopened.Stop stop.ShelfFault)) (IsErrOf result (unopened.Stop stop.ShelfFault))
        (H.files shelf.old) (H.files shelf.new) (H.faults shelf.old) (H.faults shelf.new) }
{
    match fetch_file(alloc, shelf, name, MOST_FACTS_BYTES)? {
        Asked::File(bytes) => read_facts(alloc, bytes.as_slice()),
        Asked::Said(said) => Err(Unopened::Said(said)),
    }
}

/// The facts of a file's bytes, or the line that says what is wrong first.
fn read_facts(alloc: Global, bytes: &[u8]) -> Result<FactTable, Unopened>
    ensures found { IfOk result (λ table. IsFactsFile bytes.now (table_facts table)) }
    ensures fails { IfErr result (λ why. ReadingFails bytes.now why) }
{
    match FactTable::read(alloc, bytes) {
        Ok(table) => Ok(table),
        Err(fault) => Err(refusal(alloc, &fault)),
    }
}

fn refusal(alloc: Global, fault: &FactFault) -> Unopened
    ensures { IsRefusal fault.now result }
{
    match fault {
        FactFault::OutOfMemory => Unopened::Stop(Stop::OutOfMemory),
        _ => match bad_facts(alloc, fault) {
            Ok(said) => Unopened::Said(said),
            Err(fault) => Unopened::from(fault),
        },
    }
}

fn bad_facts(alloc: Global, fault: &FactFault) -> Result<Said, AllocError>
    ensures status { IfOk result (λ said. said.status ≡ Status.BadFacts) }
    ensures text { IfOk result (λ said. said.text ≡ with_lf (bad_facts_text fault.now)) }
{
    let mut line = LineText::new();
    line.push_all(b"fault BadFacts ");
    fault.line_into(&mut line);
    line.push(b'\n');
    Ok(Said {
        status: Status::BadFacts,
        text: Bytes::copy_of(alloc, line.as_slice())?,
    })
}
