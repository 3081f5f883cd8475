//! The commands on the rules of the store.

ghost use Rattle.std.specs.Prelude.{◌≡◌, ◌≢◌, ◌⊎◌, ◌≤◌, [], List, Option, Err, IfErr, IfOk};
ghost use Rattle.gk_io.specs.Shelf.{File};
ghost use Rattle.gk_io.specs.Devices.{Counts, PassesShelf};
ghost use Rattle.policy_model.specs.History.{Opening};
ghost use Rattle.policy_keeper.specs.Told.{Told};
ghost use Rattle.policy_keeper.specs.Mirror.{Mirrors};
ghost use Rattle.desk_state.specs.Stands.{tables, Stands};
ghost use Rattle.desk_state.specs.Failures.{kept_by};
ghost use Rattle.table_commands.specs.TableSays.{SaysList, SaysStatus};
ghost use Rattle.desk_opening.specs.Opens.{IsLoaded};
ghost use Rattle.command_words.specs.Table as model;
ghost use Rattle.command_words.specs.Views.{table_view};
ghost use Rattle.run_commands.specs.declared.halt.Halt.TheVariants as halt;
ghost use Rattle.run_commands.specs.Answers.{TablesAnswer};
ghost use Rattle.run_commands.specs.Over.{MakesEdits, OverDesk};
ghost use Rattle.run_commands.specs.Spoken.{IsUttered};

use crate::halt::{Halt, halted, starved, unopened};
use command_words::TableCommand;
use desk_opening::laws::a_run_begins_or_not;
use desk_opening::open_desk;
use desk_state::Desk;
use gk_io::Shelf;
use policy_keeper::Keeper;
use run_status::{Said, Stop};
use std::alloc::Global;
use table_commands::{edit_line, import, list, status};

/// What the command says, once the keeper has kept what it does.
pub fn said_of_tables<H: Shelf, K: Keeper>(
    alloc: Global,
    command: TableCommand<'_>,
    shelf: &mut H,
    keeper: &mut K,
) -> Result<Said, Halt>
    ensures answers { (rows : Told) × IsLoaded (K.told keeper.old) rows (K.told keeper.new)
        × TablesAnswer (H.files shelf.old) rows (kept_by (K.told keeper.new) (K.faults keeper.old) (K.faults keeper.new)) (table_view command.entry) result }
    ensures spoken { IfOk result (λ said. IsUttered said.status) }
    ensures shelf { PassesShelf (result ≡ Err (halt.Stop Stop.ShelfFault)) (result ≡ Err (halt.Stop Stop.ShelfFault)) (H.files shelf.old) (H.files shelf.new) (H.faults shelf.old) (H.faults shelf.new) }
    ensures keeper { Counts (result ≡ Err halt.KeeperFault) (MakesEdits (table_view command.entry) ⊎ (result ≡ Err halt.KeeperFault)) (K.faults keeper.old) (K.faults keeper.new) }
{
    a_run_begins_or_not();
    match open_desk(alloc, None, shelf, keeper) {
        Ok(desk) => said_over(alloc, desk, command, shelf, keeper),
        Err(why) => unopened(why),
    }
}

/// What comes of the command over a desk that is opened for it.
fn said_over<H: Shelf, K: Keeper>(
    alloc: Global,
    desk: Desk,
    command: TableCommand<'_>,
    shelf: &mut H,
    keeper: &mut K,
) -> Result<Said, Halt>
    requires { Mirrors (K.told keeper.old) (tables desk) }
    ensures over { (o : Opening) → Stands desk o [] → OverDesk (H.files shelf.old) (K.told keeper.old) (kept_by (K.told keeper.new) (K.faults keeper.old) (K.faults keeper.new)) (table_view command.entry) o result }
    ensures spoken { (o : Opening) → Stands desk o [] → IfOk result (λ said. IsUttered said.status) }
    ensures shelf { PassesShelf (result ≡ Err (halt.Stop Stop.ShelfFault)) (result ≡ Err (halt.Stop Stop.ShelfFault)) (H.files shelf.old) (H.files shelf.new) (H.faults shelf.old) (H.faults shelf.new) }
    ensures keeper { Counts (result ≡ Err halt.KeeperFault) (MakesEdits (table_view command.entry)) (K.faults keeper.old) (K.faults keeper.new) }
{
    match command {
        TableCommand::Edit { line } => edit_over(alloc, desk, line.as_slice(), keeper),
        TableCommand::Status => status_over(alloc, desk),
        TableCommand::List => list_over(alloc, desk),
        TableCommand::Import { name } => import_over(alloc, desk, name, shelf, keeper),
    }
}

fn edit_over<K: Keeper>(
    alloc: Global,
    mut desk: Desk,
    line: &[u8],
    keeper: &mut K,
) -> Result<Said, Halt>
    requires { Mirrors (K.told keeper.old) (tables desk) }
    ensures over { (o : Opening) (shelf : Option (List File)) → Stands desk o [] → OverDesk shelf (K.told keeper.old) (kept_by (K.told keeper.new) (K.faults keeper.old) (K.faults keeper.new)) (model.edit line.now) o result }
    ensures spoken { (o : Opening) → Stands desk o [] → IfOk result (λ said. IsUttered said.status) }
    ensures halts { IfErr result (λ why. why ≡ halt.Stop Stop.OutOfMemory) }
    ensures later { K.faults keeper.old ≤ K.faults keeper.new }
{
    let said = edit_line(alloc, &mut desk, keeper, line);
    drop(desk);
    starved(said)
}

fn status_over(alloc: Global, desk: Desk) -> Result<Said, Halt>
    ensures says { (o : Opening) → Stands desk o [] → IfOk result (λ said. SaysStatus o [] said.status said.text) }
    ensures spoken { (o : Opening) → Stands desk o [] → IfOk result (λ said. IsUttered said.status) }
    ensures halts { IfErr result (λ why. why ≡ halt.Stop Stop.OutOfMemory) }
{
    let said = status(alloc, &desk);
    drop(desk);
    starved(said)
}

fn list_over(alloc: Global, desk: Desk) -> Result<Said, Halt>
    ensures says { (o : Opening) → Stands desk o [] → IfOk result (λ said. SaysList o [] said.status said.text) }
    ensures spoken { (o : Opening) → Stands desk o [] → IfOk result (λ said. IsUttered said.status) }
    ensures halts { IfErr result (λ why. why ≡ halt.Stop Stop.OutOfMemory) }
{
    let said = list(alloc, &desk);
    drop(desk);
    starved(said)
}

fn import_over<H: Shelf, K: Keeper>(
    alloc: Global,
    mut desk: Desk,
    name: &str,
    shelf: &mut H,
    keeper: &mut K,
) -> Result<Said, Halt>
    requires { Mirrors (K.told keeper.old) (tables desk) }
    ensures over { (o : Opening) → Stands desk o [] → OverDesk (H.files shelf.old) (K.told keeper.old) (kept_by (K.told keeper.new) (K.faults keeper.old) (K.faults keeper.new)) (model.import_file name.now) o result }
    ensures spoken { (o : Opening) → Stands desk o [] → IfOk result (λ said. IsUttered said.status) }
    ensures shelf { PassesShelf (result ≡ Err (halt.Stop Stop.ShelfFault)) (result ≡ Err (halt.Stop Stop.ShelfFault)) (H.files shelf.old) (H.files shelf.new) (H.faults shelf.old) (H.faults shelf.new) }
    ensures no_keeper { result ≢ Err halt.KeeperFault }
    ensures later { K.faults keeper.old ≤ K.faults keeper.new }
{
    let said = import(alloc, &mut desk, keeper, name, shelf);
    drop(desk);
    halted(said)
}
