//! `add`, `remove`, `enable`, `disable`, `expire` and `switch`: one edit.

ghost use Rattle.std.specs.Prelude.{◌≡◌, ◌≤◌, ℕ, List, IfOk, IsSome, OnErr};
ghost use Rattle.policy_model.specs.History.{Event, Opening};
ghost use Rattle.line_model.specs.LineFaults.{line_fault_text};
ghost use Rattle.line_words.specs.Faults.{fault_of};
ghost use Rattle.rule_edits.specs.Edit.{edit_of};
ghost use Rattle.desk_state.specs.Stands.{tables, Stands};
ghost use Rattle.desk_state.specs.Failures.{Shows};
ghost use Rattle.policy_keeper.specs.Mirror.{Mirrors};
ghost use Rattle.table_commands.specs.Replies.{EditReplies};
ghost use Rattle.table_commands.specs.EditSays.{SaysReply, SaysEdit};

use crate::replies::{is_refusal, refused_when, reply_onto};
use desk_state::{Desk, Edit};
use line_text::{Bytes, LineText};
use policy_keeper::Keeper;
use rule_edits::{LineFault, read_edit_line};
use run_status::Said;
use std::alloc::{AllocError, Global};

/// What is said of the line of an edit, once it is made and kept, or refused. Where there is no memory nothing is done.
pub fn edit_line<K: Keeper>(
    alloc: Global,
    desk: &mut Desk,
    keeper: &mut K,
    line: &[u8],
) -> Result<Said, AllocError>
    requires mirrors { Mirrors (K.told keeper.old) (tables desk.old) }
    ensures says { (o : Opening) (h : List Event) → Stands desk.old o h → IfOk result (λ said. (after : List Event) × SaysEdit o h line.now said.status said.text after × Stands desk.new o after × Shows h after (K.faults keeper.old) (K.faults keeper.new)) }
    ensures unchanged { (o : Opening) (h : List Event) → Stands desk.old o h → OnErr result (Stands desk.new o h) }
    ensures mirrors { Mirrors (K.told keeper.new) (tables desk.new) }
    ensures telling { IsSome (K.told keeper.new) → IsSome (K.told keeper.old) }
    ensures later { K.faults keeper.old ≤ K.faults keeper.new }
{
    match read_edit_line(alloc, line) {
        Ok(edit) => edited(alloc, desk, keeper, &edit),
        Err(LineFault::OutOfMemory) => Err(AllocError),
        Err(fault) => refused(alloc, &fault),
    }
}

/// What is said of an edit, whose reply has its room before it is made.
fn edited<K: Keeper>(
    alloc: Global,
    desk: &mut Desk,
    keeper: &mut K,
    edit: &Edit,
) -> Result<Said, AllocError>
    requires mirrors { Mirrors (K.told keeper.old) (tables desk.old) }
    ensures says { (o : Opening) (h : List Event) → Stands desk.old o h
        → IfOk result (λ said. (after : List Event) × SaysReply (λ reply. EditReplies o h (edit_of edit.now) reply after) said.status said.text × Stands desk.new o after × Shows h after (K.faults keeper.old) (K.faults keeper.new)) }
    ensures unchanged { (o : Opening) (h : List Event) → Stands desk.old o h → OnErr result (Stands desk.new o h) }
    ensures mirrors { Mirrors (K.told keeper.new) (tables desk.new) }
    ensures telling { IsSome (K.told keeper.new) → IsSome (K.told keeper.old) }
    ensures later { K.faults keeper.old ≤ K.faults keeper.new }
{
    let mut text = Vec::new(alloc);
    let refused = reply_onto(alloc, desk, keeper, edit, &mut text)?;
    Ok(Said {
        status: refused_when(refused),
        text: Bytes::from_vec(text),
    })
}

/// What is said of a line that asks for no edit.
fn refused(alloc: Global, fault: &LineFault) -> Result<Said, AllocError>
    ensures { IfOk result (λ said. SaysReply (λ (reply : List ℕ). reply ≡ line_fault_text (fault_of fault.now)) said.status said.text) }
{
    let mut line = LineText::new();
    fault.line_into(&mut line);
    let refused = is_refusal(line.as_slice());
    line.push(b'\n');
    Ok(Said {
        status: refused_when(refused),
        text: Bytes::copy_of(alloc, line.as_slice())?,
    })
}
