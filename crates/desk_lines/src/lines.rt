//! A desk that answers the lines of a session.

ghost use Rattle.std.specs.Prelude.{◌≡◌, ◌≢◌, ◌↔◌, ◌≤◌, [], ℕ, List, length, Ok, Err, OnOk, OnErr, IsTrue};
ghost use Rattle.line_text.specs.LineText.{line_bytes};
ghost use Rattle.policy_model.specs.History.{Opening};
ghost use Rattle.session_model.specs.Slots.{State};
ghost use Rattle.line_session.specs.declared.limits.TheConstants.{REPLY_LIMIT};
ghost use Rattle.line_words.specs.Faults.{fault_of};
ghost use Rattle.line_words.specs.declared.fault.LineFault.TheVariants.{OutOfMemory};

use crate::answering::{assess, begin, finish_number, status, tick};
use crate::editing::make;
use crate::request::{Request, read_request};
use crate::slots::OpenSlot;
use desk_state::Desk;
use line_session::Responder;
use line_text::LineText;
use line_words::LineFault;
use policy_keeper::Keeper;
use session_model::laws::the_front_asks_the_same;
use std::alloc::{AllocError, Global};

/// A desk and its keeper that are lent, with what is open on the desk, and answers lines.
#[derive(Drop)]
pub struct DeskLines<'a, K: Keeper> {
    pub desk: &'a mut Desk,
    pub keeper: &'a mut K,
    pub slots: &'a mut Vec<OpenSlot>,
}

impl<K: Keeper> Responder for DeskLines<'_, K> {
    ghost use Rattle.policy_keeper.specs.Mirror.{Mirrors};
    ghost use Rattle.desk_state.specs.Stands.{tables, plain};
    ghost use Rattle.desk_lines.specs.Slots.{AreOfDesk};
    ghost use Rattle.desk_lines.specs.Answered.{HasAnsweredSo};
    ghost use Rattle.desk_lines.specs.Memory.{TakesMemory};
    ghost use Rattle.desk_state.specs.Failures.{Keeps};

    ghost answered = { λ begin lines texts replies. HasAnsweredSo begin.desk.now lines.desk.now lines.slots.now.items (K.faults begin.keeper.now) (K.faults lines.keeper.now) texts replies
        × Keeps (K.told begin.keeper.now) (K.told lines.keeper.now) (K.faults begin.keeper.now) (K.faults lines.keeper.now)
        × (lines.desk.ghost_name ≡ begin.desk.ghost_name) × (lines.keeper.ghost_name ≡ begin.keeper.ghost_name) };

    ghost ready = { λ lines. Mirrors (K.told lines.keeper.now) (tables lines.desk.now) × AreOfDesk (plain lines.desk.now) lines.slots.now.items };

    ghost takes_memory = { TakesMemory };

    fn answer(&mut self, alloc: Global, line: &[u8], out: &mut LineText) -> Result<(), AllocError> {
        the_front_asks_the_same();
        match read_request(alloc, line) {
            Ok(request) => self.reply(alloc, request, out),
            Err(fault) => self.refuse(fault, out),
        }
    }
}

impl<'a, K: Keeper> DeskLines<'a, K> {
    ghost use Rattle.policy_keeper.specs.Mirror.{Mirrors};
    ghost use Rattle.desk_state.specs.Stands.{tables, plain};
    ghost use Rattle.desk_lines.specs.Slots.{AreOfDesk};
    ghost use Rattle.desk_lines.specs.Answered.{HasReplied, IsAt};
    ghost use Rattle.desk_state.specs.Failures.{Keeps};
    ghost use Rattle.desk_lines.specs.Memory.{TakesRoom};
    ghost use Rattle.desk_lines.specs.Requests.{request_view};

    pub fn over(
        desk: &'a mut Desk,
        keeper: &'a mut K,
        slots: &'a mut Vec<OpenSlot>,
    ) -> DeskLines<'a, K>
        requires { slots.old.items ≡ [] }
        ensures name { result.desk.ghost_name ≡ desk.entry.ghost_name }
        ensures keeper_name { result.keeper.ghost_name ≡ keeper.entry.ghost_name }
        ensures desk { result.desk.now ≡ desk.old }
        ensures keeper { result.keeper.now ≡ keeper.old }
        ensures none { result.slots.now.items ≡ [] }
    {
        DeskLines {
            desk,
            keeper,
            slots,
        }
    }

    fn reply(
        &mut self,
        alloc: Global,
        request: Request,
        out: &mut LineText,
    ) -> Result<(), AllocError>
        requires text { line_bytes out.old ≡ [] }
        requires mirrors { Mirrors (K.told self.old.keeper.now) (tables self.old.desk.now) }
        requires of_desk { AreOfDesk (plain self.old.desk.now) self.old.slots.now.items }
        ensures mirrors { Mirrors (K.told self.new.keeper.now) (tables self.new.desk.now) }
        ensures of_desk { AreOfDesk (plain self.new.desk.now) self.new.slots.now.items }
        ensures keeps { Keeps (K.told self.old.keeper.now) (K.told self.new.keeper.now) (K.faults self.old.keeper.now) (K.faults self.new.keeper.now) }
        ensures name { self.new.desk.ghost_name ≡ self.old.desk.ghost_name }
        ensures keeper_name { self.new.keeper.ghost_name ≡ self.old.keeper.ghost_name }
        ensures room { length (line_bytes out.new) ≤ REPLY_LIMIT }
        ensures replies { OnOk result
            (HasReplied self.old.desk.now self.old.slots.now.items self.new.desk.now self.new.slots.now.items (K.faults self.old.keeper.now) (K.faults self.new.keeper.now) (Ok (request_view request)) (line_bytes out.new)) }
        ensures refuses { OnErr result
            (((o : Opening) (s : State) → IsAt self.old.desk.now self.old.slots.now.items o s → IsAt self.new.desk.now self.new.slots.now.items o s)
            × (K.faults self.new.keeper.now ≡ K.faults self.old.keeper.now)) }
        ensures memory { OnErr result (TakesRoom request) }
    {
        match request {
            Request::Edit(edit) => make(self.desk, self.keeper, alloc, &edit, out),
            Request::Tick(at) => {
                tick(self.desk, at, out);
                Ok(())
            }
            Request::Assess(ask) => {
                assess(self.desk, &ask, out);
                Ok(())
            }
            Request::Begin(number, ask) => begin(self.desk, self.slots, number, &ask, out),
            Request::Finish(number) => {
                finish_number(self.desk, self.slots, number, out);
                Ok(())
            }
            Request::Status => {
                status(self.desk, out);
                Ok(())
            }
        }
    }

    /// The refusal of a line; none where memory ran out.
    fn refuse(&self, fault: LineFault, out: &mut LineText) -> Result<(), AllocError>
        requires { line_bytes out.old ≡ [] }
        ensures room { length (line_bytes out.new) ≤ REPLY_LIMIT }
        ensures replies { OnOk result ((fault ≢ OutOfMemory)
            × ((n : ℕ) → HasReplied self.now.desk.now self.now.slots.now.items self.now.desk.now self.now.slots.now.items n n (Err (fault_of fault)) (line_bytes out.new))) }
        ensures memory { OnErr result (fault ≡ OutOfMemory) }
    {
        if is_out_of_memory(&fault) {
            return Err(AllocError);
        }
        fault.line_into(out);
        Ok(())
    }
}

fn is_out_of_memory(fault: &LineFault) -> bool
    ensures { IsTrue result ↔ (fault.now ≡ OutOfMemory) }
{
    matches!(fault, LineFault::OutOfMemory)
}
