//! The commands on files.

ghost use Rattle.std.specs.Prelude.{◌≡◌, ◌≢◌, [], Err, IfOk};
ghost use Rattle.gk_io.specs.Devices.{PassesClock, PassesShelf};
ghost use Rattle.rule_values.specs.Kind.{kind_of};
ghost use Rattle.policy_model.specs.History.{Opening};
ghost use Rattle.desk_state.specs.Stands.{Stands};
ghost use Rattle.run_status.specs.Said.{IsSpoken};
ghost use Rattle.file_assessment.specs.Assessing.{HasFiles, SaysAssess};
ghost use Rattle.desk_opening.specs.Opens.{PassesLoad};
ghost use Rattle.command_words.specs.Table as model;
ghost use Rattle.command_words.specs.Views.{file_view, text_of};
ghost use Rattle.run_commands.specs.declared.halt.Halt.TheVariants as halt;
ghost use Rattle.run_commands.specs.Answers.{FilesAnswer, LeavesAlone};

use crate::halt::{Halt, halted, unopened};
use command_words::FileCommand;
use desk_opening::laws::a_run_begins_or_not;
use desk_opening::open_desk;
use desk_state::Desk;
use file_assessment::assess;
use gk_io::{Clock, Shelf};
use language_commands::{compile, compile_set, dump_file};
use policy_keeper::Keeper;
use rule_values::Kind;
use run_status::{Said, Stop};
use std::alloc::Global;

/// What the command says. An assessment alone asks for facts, the keeper's rows and the time.
pub fn said_of_files<H: Shelf, K: Keeper, C: Clock>(
    alloc: Global,
    facts: Option<&str>,
    command: FileCommand<'_>,
    shelf: &mut H,
    keeper: &mut K,
    clock: &mut C,
) -> Result<Said, Halt>
    ensures answers { FilesAnswer (H.files shelf.old) (C.moments clock.old) (K.told keeper.new) (text_of facts.entry) (file_view command.entry) result }
    ensures spoken { IfOk result (λ said. IsSpoken said.status) }
    ensures leaves { LeavesAlone (file_view command.entry) (K.told keeper.old) (K.told keeper.new) (C.moments clock.old) (C.moments clock.new) }
    ensures shelf { PassesShelf (result ≡ Err (halt.Stop Stop.ShelfFault)) (result ≡ Err (halt.Stop Stop.ShelfFault)) (H.files shelf.old) (H.files shelf.new) (H.faults shelf.old) (H.faults shelf.new) }
    ensures keeper { PassesLoad (result ≡ Err halt.KeeperFault) (result ≡ Err halt.KeeperFault) (K.told keeper.old) (K.told keeper.new) (K.faults keeper.old) (K.faults keeper.new) }
    ensures clock { PassesClock (result ≡ Err (halt.Stop Stop.ClockFault)) (result ≡ Err (halt.Stop Stop.ClockFault)) (C.moments clock.old) (C.moments clock.new) (C.faults clock.old) (C.faults clock.new) }
{
    match command {
        FileCommand::Compile { name } => halted(compile(alloc, name, shelf)),
        FileCommand::CompileSet { name } => halted(compile_set(alloc, name, shelf)),
        FileCommand::Dump { name } => halted(dump_file(alloc, name, shelf)),
        FileCommand::Assess { kind, name, code } => {
            assess_opened(alloc, facts, kind, name, code, shelf, keeper, clock)
        }
    }
}

/// What comes of an assessment by a desk that is opened for it.
fn assess_opened<H: Shelf, K: Keeper, C: Clock>(
    alloc: Global,
    facts: Option<&str>,
    kind: Kind,
    name: &str,
    code: Option<&str>,
    shelf: &mut H,
    keeper: &mut K,
    clock: &mut C,
) -> Result<Said, Halt>
    ensures answers { FilesAnswer (H.files shelf.old) (C.moments clock.old) (K.told keeper.new) (text_of facts.entry) (model.assess (kind_of kind) name.now (text_of code.entry)) result }
    ensures spoken { IfOk result (λ said. IsSpoken said.status) }
    ensures shelf { PassesShelf (result ≡ Err (halt.Stop Stop.ShelfFault)) (result ≡ Err (halt.Stop Stop.ShelfFault)) (H.files shelf.old) (H.files shelf.new) (H.faults shelf.old) (H.faults shelf.new) }
    ensures keeper { PassesLoad (result ≡ Err halt.KeeperFault) (result ≡ Err halt.KeeperFault) (K.told keeper.old) (K.told keeper.new) (K.faults keeper.old) (K.faults keeper.new) }
    ensures clock { PassesClock (result ≡ Err (halt.Stop Stop.ClockFault)) (result ≡ Err (halt.Stop Stop.ClockFault)) (C.moments clock.old) (C.moments clock.new) (C.faults clock.old) (C.faults clock.new) }
{
    a_run_begins_or_not();
    match open_desk(alloc, facts, shelf, keeper) {
        Ok(desk) => assess_over(alloc, desk, kind, name, code, shelf, clock),
        Err(why) => unopened(why),
    }
}

fn assess_over<H: Shelf, C: Clock>(
    alloc: Global,
    mut desk: Desk,
    kind: Kind,
    name: &str,
    code: Option<&str>,
    shelf: &mut H,
    clock: &mut C,
) -> Result<Said, Halt>
    ensures says { (o : Opening) → Stands desk o [] → IfOk result (λ said. SaysAssess o [] (H.files shelf.old) (C.moments clock.old) (kind_of kind) name.now (text_of code.entry) said.status said.text) }
    ensures spoken { IfOk result (λ said. IsSpoken said.status) }
    ensures reached { result ≡ Err (halt.Stop Stop.ClockFault) → HasFiles (H.files shelf.old) name.now (text_of code.entry) }
    ensures no_keeper { result ≢ Err halt.KeeperFault }
    ensures shelf { PassesShelf (result ≡ Err (halt.Stop Stop.ShelfFault)) (result ≡ Err (halt.Stop Stop.ShelfFault)) (H.files shelf.old) (H.files shelf.new) (H.faults shelf.old) (H.faults shelf.new) }
    ensures clock { PassesClock (result ≡ Err (halt.Stop Stop.ClockFault)) (result ≡ Err (halt.Stop Stop.ClockFault)) (C.moments clock.old) (C.moments clock.new) (C.faults clock.old) (C.faults clock.new) }
{
    let said = assess(alloc, &mut desk, kind, name, code, shelf, clock);
    drop(desk);
    halted(said)
}
