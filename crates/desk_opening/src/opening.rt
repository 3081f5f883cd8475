//! The desk of a run.

ghost use Rattle.std.specs.Prelude.{◌≡◌, [], IfOk, IfErr, IsErrOf};
ghost use Rattle.std.specs.Arc.{arc_value};
ghost use Rattle.gk_io.specs.Devices.{PassesShelf};
ghost use Rattle.line_reader.specs.Lines.{with_lf};
ghost use Rattle.code_facts.specs.Tables.{table_facts};
ghost use Rattle.desk_state.specs.Stands.{tables, Stands};
ghost use Rattle.desk_state.specs.Loaded.{loaded};
ghost use Rattle.store_reading.specs.Fault.{place_of};
ghost use Rattle.run_status.specs.declared.stop.Stop.TheVariants as stop;
ghost use Rattle.desk_opening.specs.declared.unopened.Unopened.TheVariants as unopened;
ghost use Rattle.desk_opening.specs.Facts.{name_of};
ghost use Rattle.desk_opening.specs.Opens.{PassesLoad, IsStored, IsOpened, IsUnopened, IsUnloaded, IsRowTold};
ghost use Rattle.desk_opening.specs.StoreTexts.{bad_store_text};

use crate::facts::facts_of_run;
use crate::store_line::push_row;
use crate::unopened::Unopened;
use code_facts::FactTable;
use desk_state::{Desk, LoadFault};
use gk_io::Shelf;
use line_text::{Bytes, LineText};
use policy_keeper::Keeper;
use run_status::{Said, Status, Stop};
use std::alloc::{AllocError, Global};
use std::sync::Arc;
use store_reading::StoreRow;

/// The desk with the facts of the file of that name, or without facts where none is named, and with the keeper's
/// tables. The file is read before the keeper is asked.
pub fn open_desk<H: Shelf, K: Keeper>(
    alloc: Global,
    facts: Option<&str>,
    shelf: &mut H,
    keeper: &mut K,
) -> Result<Desk, Unopened>
    ensures opened { IfOk result (λ desk. IsOpened (H.files shelf.old) (name_of facts.entry) (K.told keeper.new) desk) }
    ensures unopened { IfErr result (λ why. IsUnopened (H.files shelf.old) (name_of facts.entry) (K.told keeper.new) why) }

    // A failure of a device shows in its count, and nothing else moves it.
    ensures shelf { PassesShelf (IsErrOf result (unopened.Stop stop.ShelfFault)) (IsErrOf result (unopened.Stop stop.ShelfFault))
        (H.files shelf.old) (H.files shelf.new) (H.faults shelf.old) (H.faults shelf.new) }
    ensures keeper { PassesLoad (IsErrOf result unopened.KeeperFault) (IsErrOf result unopened.KeeperFault)
        (K.told keeper.old) (K.told keeper.new) (K.faults keeper.old) (K.faults keeper.new) }
{
    let table = facts_of_run(alloc, facts, shelf)?;
    let Ok(facts) = Arc::new(alloc, table) else {
        return Err(Unopened::Stop(Stop::OutOfMemory));
    };
    load_desk(alloc, facts, keeper)
}

fn load_desk<K: Keeper>(
    alloc: Global,
    facts: Arc<FactTable>,
    keeper: &mut K,
) -> Result<Desk, Unopened>
    ensures stands { IfOk result (λ desk. Stands desk (loaded (tables desk) (table_facts (arc_value facts))) []) }
    ensures stored { IfOk result (λ desk. IsStored (K.told keeper.new) (tables desk)) }
    ensures unloaded { IfErr result (λ why. IsUnloaded (K.told keeper.new) why) }
    ensures keeper { PassesLoad (IsErrOf result unopened.KeeperFault) (IsErrOf result unopened.KeeperFault)
        (K.told keeper.old) (K.told keeper.new) (K.faults keeper.old) (K.faults keeper.new) }
{
    match Desk::load(alloc, keeper, facts) {
        Ok(desk) => Ok(desk),
        Err(LoadFault::KeeperFault) => Err(Unopened::KeeperFault),
        Err(LoadFault::OutOfMemory) => Err(Unopened::Stop(Stop::OutOfMemory)),
        Err(LoadFault::BadStore(row)) => Err(refusal(alloc, &row)),
    }
}

fn refusal(alloc: Global, row: &StoreRow) -> Unopened
    ensures { IsRowTold (place_of row.now) result }
{
    match bad_store(alloc, row) {
        Ok(said) => Unopened::Said(said),
        Err(fault) => Unopened::from(fault),
    }
}

fn bad_store(alloc: Global, row: &StoreRow) -> Result<Said, AllocError>
    ensures status { IfOk result (λ said. said.status ≡ Status.BadStore) }
    ensures text { IfOk result (λ said. said.text ≡ with_lf (bad_store_text (place_of row.now))) }
{
    let mut line = LineText::new();
    line.push_all(b"fault BadStore ");
    push_row(row, &mut line);
    line.push(b'\n');
    Ok(Said {
        status: Status::BadStore,
        text: Bytes::copy_of(alloc, line.as_slice())?,
    })
}
