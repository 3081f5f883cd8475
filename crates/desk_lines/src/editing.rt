//! An edit that a line asks for, made by a desk whose tables a keeper keeps, with its reply.

ghost use Rattle.std.specs.Prelude.{◌≡◌, ◌≢◌, ◌≤◌, [], List, length, Ok, OnOk, OnErr};
ghost use Rattle.line_text.specs.LineText.{line_bytes};
ghost use Rattle.policy_model.specs.History.{Opening};
ghost use Rattle.session_model.specs.Slots.{State};
ghost use Rattle.session_model.specs.Lines as model;
ghost use Rattle.line_session.specs.declared.limits.TheConstants.{REPLY_LIMIT};
ghost use Rattle.rule_edits.specs.Edit.{edit_of};
ghost use Rattle.policy_keeper.specs.Mirror.{Mirrors};
ghost use Rattle.object_model.specs.OfDesk.{KeepsOf};
ghost use Rattle.desk_state.specs.declared.fault.EditFault.TheVariants.{OutOfMemory};
ghost use Rattle.desk_state.specs.Answer.{fault_text};
ghost use Rattle.desk_state.specs.Stands.{tables, plain, Stands};
ghost use Rattle.desk_lines.specs.declared.slots.OpenSlot as code;
ghost use Rattle.desk_lines.specs.Answered.{HasReplied};
ghost use Rattle.desk_state.specs.Failures.{Keeps};

use desk_state::{Desk, EditFault};
use line_text::LineText;
use object_model::laws::a_ticket_is_enough;
use policy_keeper::Keeper;
use rule_edits::Edit;
use std::alloc::{AllocError, Global};

pub fn make<K: Keeper>(
    desk: &mut Desk,
    keeper: &mut K,
    alloc: Global,
    edit: &Edit,
    out: &mut LineText,
) -> Result<(), AllocError>
    requires text { line_bytes out.old ≡ [] }
    requires mirrors { Mirrors (K.told keeper.old) (tables desk.old) }
    ensures mirrors { Mirrors (K.told keeper.new) (tables desk.new) }
    ensures of_desk { KeepsOf (plain desk.old) (plain desk.new) }
    ensures keeps { Keeps (K.told keeper.old) (K.told keeper.new) (K.faults keeper.old) (K.faults keeper.new) }
    ensures room { length (line_bytes out.new) ≤ REPLY_LIMIT }
    ensures replies { OnOk result
        ((held : List code.OpenSlot) → HasReplied desk.old held desk.new held (K.faults keeper.old) (K.faults keeper.new) (Ok (model.edit (edit_of edit.now))) (line_bytes out.new)) }
    ensures refuses { OnErr result
        (((o : Opening) (s : State) → Stands desk.old o s.history → Stands desk.new o s.history) × (K.faults keeper.new ≡ K.faults keeper.old)) }
{
    a_ticket_is_enough();
    match desk.edit(alloc, keeper, edit) {
        Ok(answer) => {
            answer.line_into(out);
            Ok(())
        }
        Err(fault) => refuse(fault, out),
    }
}

/// The refusal of an edit; none where memory ran out.
fn refuse(fault: EditFault, out: &mut LineText) -> Result<(), AllocError>
    requires { line_bytes out.old ≡ [] }
    ensures room { length (line_bytes out.new) ≤ REPLY_LIMIT }
    ensures told { OnOk result ((fault ≢ OutOfMemory) × (line_bytes out.new ≡ fault_text fault)) }
    ensures starved { OnErr result (fault ≡ OutOfMemory) }
{
    match fault {
        EditFault::OutOfMemory => Err(AllocError),
        _ => {
            fault.line_into(out);
            Ok(())
        }
    }
}
