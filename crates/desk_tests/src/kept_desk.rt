//! A desk over a keeper in memory.

ghost use Rattle.std.specs.Prelude.{Some, IfOk};
ghost use Rattle.policy_keeper.specs.Mirror.{Mirrors};
ghost use Rattle.memory_keeper.specs.Memory.{kept};
ghost use Rattle.desk_state.specs.Stands.{tables};

use code_facts::FactTable;
use desk_state::{
    Answer, Ask, Begun, Desk, DeskStatus, Edit, EditFault, Finished, Judged, Looked, Ticket,
};
use memory_keeper::MemoryKeeper;
use rule_values::Moment;
use std::alloc::{AllocError, Global};
use std::sync::Arc;

/// A desk, and the keeper that keeps its tables.
#[derive(Drop)]
pub struct KeptDesk {
    desk: Desk,
    keeper: MemoryKeeper,
    ghost mirrors: { Mirrors (Some (kept keeper)) (tables desk) },
}

/// A desk without rules that knows nothing of any code, loaded from a keeper without rows.
pub fn fresh_desk(alloc: Global) -> Option<KeptDesk> {
    let facts = Arc::new(alloc, FactTable::empty(alloc)).ok()?;
    let mut keeper = MemoryKeeper::new(alloc);
    match Desk::load(alloc, &mut keeper, facts) {
        Ok(desk) => Some(KeptDesk { desk, keeper }),
        Err(fault) => {
            drop(fault);
            None
        }
    }
}

impl KeptDesk {
    ghost use Rattle.object_model.specs.OfDesk.{IsTicketOfDesk, KeepsOf};
    ghost use Rattle.desk_ticket.specs.Ticket.{ticket_of};
    ghost use Rattle.desk_state.specs.Stands.{plain};
    ghost use Rattle.desk_state.specs.Begun.{IsBegunOfDesk};
    ghost use Rattle.desk_state.specs.Judged.{IsJudgedOfDesk, IsLookedOfDesk};

    pub fn edit(&mut self, alloc: Global, edit: &Edit) -> Result<Answer, EditFault>
        ensures { KeepsOf (plain self.old.desk) (plain self.new.desk) }
    {
        self.desk.edit(alloc, &mut self.keeper, edit)
    }

    pub fn tick(&mut self, at: Moment) -> Moment {
        self.desk.tick(at)
    }

    pub fn begin(&self, alloc: Global, ask: &Ask) -> Result<Begun, AllocError>
        ensures { IfOk result (λ begun. IsBegunOfDesk (plain self.now.desk) begun) }
    {
        self.desk.begin(alloc, ask)
    }

    /// Judges a ticket and finishes its assessment.
    pub fn finish(&mut self, ticket: Ticket) -> Finished
        requires { IsTicketOfDesk (plain self.old.desk) (ticket_of ticket) }
    {
        let outcome = ticket.judge();
        self.desk.finish(ticket, outcome)
    }

    pub fn judge(&self, ask: &Ask) -> Looked
        ensures { IsLookedOfDesk (plain self.now.desk) result }
    {
        self.desk.judge(ask)
    }

    pub fn settle(&mut self, judged: Judged) -> Finished
        requires { IsJudgedOfDesk (plain self.old.desk) judged }
        ensures { KeepsOf (plain self.old.desk) (plain self.new.desk) }
    {
        self.desk.settle(judged)
    }

    pub fn status(&self) -> DeskStatus {
        self.desk.status()
    }
}
