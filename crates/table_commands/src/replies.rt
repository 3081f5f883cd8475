//! The reply to an edit, for which there is room before the edit acts.

ghost use Rattle.std.specs.Prelude.{◌≡◌, ◌+◌, ◌<◌, ◌≤◌, ◌++◌, List, length, [], IfOk, IsSome, OnOk, OnErr, vec_len, vec_capacity};
ghost use Rattle.line_text.specs.LineText.{line_bytes};
ghost use Rattle.line_reader.specs.Lines.{with_lf};
ghost use Rattle.policy_model.specs.History.{Event, Opening};
ghost use Rattle.rule_edits.specs.Edit.{edit_of};
ghost use Rattle.desk_state.specs.Stands.{tables, Stands};
ghost use Rattle.policy_keeper.specs.Mirror.{Mirrors};
ghost use Rattle.table_commands.specs.declared.limits.TheConstants.{REPLY_ROOM};
ghost use Rattle.table_commands.specs.Replies.{is_refusal, refused_when};
ghost use Rattle.table_commands.specs.Steps.{Came, Replies};

use crate::limits::REPLY_ROOM;
use desk_state::{Desk, EditFault};
use line_text::LineText;
use policy_keeper::Keeper;
use rule_edits::Edit;
use run_status::Status;
use std::alloc::{AllocError, Global};

/// Makes an edit and appends its reply with LF, whose room is taken before. Answers whether it is a refusal; where there
/// is no memory nothing is done.
pub(crate) fn reply_onto<K: Keeper>(
    alloc: Global,
    desk: &mut Desk,
    keeper: &mut K,
    edit: &Edit,
    out: &mut Vec<u8>,
) -> Result<bool, AllocError>
    requires mirrors { Mirrors (K.told keeper.old) (tables desk.old) }
    ensures replies { (o : Opening) (h : List Event) → Stands desk.old o h → IfOk result (λ refused. Replies o h (edit_of edit.now) desk.new (K.faults keeper.old) (K.faults keeper.new) out.old.items out.new.items refused) }
    ensures unchanged { (o : Opening) (h : List Event) → Stands desk.old o h → OnErr result (Stands desk.new o h) }
    ensures kept { OnErr result (out.new.items ≡ out.old.items) }
    ensures mirrors { Mirrors (K.told keeper.new) (tables desk.new) }
    ensures telling { IsSome (K.told keeper.new) → IsSome (K.told keeper.old) }
    ensures later { K.faults keeper.old ≤ K.faults keeper.new }
{
    out.reserve(REPLY_ROOM)?;
    let mut reply = LineText::new();
    reply_into(alloc, desk, keeper, edit, &mut reply)?;
    Ok(line_onto(&mut reply, out))
}

/// Makes an edit, and says what came of it.
fn reply_into<K: Keeper>(
    alloc: Global,
    desk: &mut Desk,
    keeper: &mut K,
    edit: &Edit,
    reply: &mut LineText,
) -> Result<(), AllocError>
    requires mirrors { Mirrors (K.told keeper.old) (tables desk.old) }
    requires empty { line_bytes reply.old ≡ [] }
    ensures replies { (o : Opening) (h : List Event) → Stands desk.old o h → OnOk result (Came o h (edit_of edit.now) desk.new (K.faults keeper.old) (K.faults keeper.new) (line_bytes reply.new)) }
    ensures unchanged { (o : Opening) (h : List Event) → Stands desk.old o h → OnErr result (Stands desk.new o h) }
    ensures short { length (line_bytes reply.new) < REPLY_ROOM }
    ensures mirrors { Mirrors (K.told keeper.new) (tables desk.new) }
    ensures telling { IsSome (K.told keeper.new) → IsSome (K.told keeper.old) }
    ensures later { K.faults keeper.old ≤ K.faults keeper.new }
{
    match desk.edit(alloc, keeper, edit) {
        Ok(answer) => {
            answer.line_into(reply);
            Ok(())
        }
        Err(EditFault::OutOfMemory) => Err(AllocError),
        Err(fault) => {
            fault.line_into(reply);
            Ok(())
        }
    }
}

/// Appends a line with LF, for which there is room, and answers whether it is a refusal.
pub(crate) fn line_onto(line: &mut LineText, out: &mut Vec<u8>) -> bool
    requires short { length (line_bytes line.old) < REPLY_ROOM }
    requires room { vec_len out.old + REPLY_ROOM ≤ vec_capacity out.old }
    ensures text { out.new.items ≡ out.old.items ++ with_lf (line_bytes line.old) }
    ensures refused { result ≡ is_refusal (line_bytes line.old) }
{
    let refused = is_refusal(line.as_slice());
    line.push(b'\n');
    let _ = out.extend_from_slice(line.as_slice());
    refused
}

pub(crate) fn is_refusal(line: &[u8]) -> bool
    ensures { result ≡ is_refusal line.now }
{
    line.starts_with(b"refused")
}

/// The status of a run that wrote a refusal, or none.
pub(crate) fn refused_when(refused: bool) -> Status
    ensures { result ≡ refused_when refused }
{
    if refused {
        Status::Refused
    } else {
        Status::Fine
    }
}
