//! A desk over a keeper, and edits with the replies that are wanted.

ghost use Rattle.std.specs.Prelude.{IfSome};
ghost use Rattle.policy_keeper.specs.Mirror.{Mirrors};
ghost use Rattle.desk_state.specs.Stands.{tables};

use code_facts::FactTable;
use desk_state::Desk;
use line_text::LineText;
use policy_keeper::Keeper;
use rule_edits::read_edit_line;
use std::alloc::Global;
use std::sync::Arc;

/// An edit's line and its reply.
#[derive(Drop)]
pub(crate) struct Row {
    pub(crate) line: &'static [u8],
    pub(crate) reply: &'static [u8],
}

/// Edits of every kind, each of which is accepted.
#[rattlefmt::skip]
pub(crate) const ROWS: [Row; 8] = [
    Row { line: b"add k1 install allow 20.5 4000000000 Own%20%FF default always", reply: b"ok edit=1 rules=1" },
    Row { line: b"add k2 execute deny -1 never L - never", reply: b"ok edit=2 rules=1" },
    Row { line: b"disable k3 label L any", reply: b"ok edit=3 rules=1" },
    Row { line: b"expire k4 id 1 any 17", reply: b"ok edit=4 rules=1" },
    Row { line: b"switch k5 off", reply: b"ok edit=5 rules=0" },
    Row { line: b"enable k6 id 2 any", reply: b"ok edit=6 rules=1" },
    Row { line: b"remove k7 label Own%20%FF install", reply: b"ok edit=7 rules=1" },
    Row { line: b"add k8 open allow 0 never - inhibit always", reply: b"ok edit=8 rules=1" },
];

/// A desk over what a keeper has, which knows no code.
pub(crate) fn opened<K: Keeper>(alloc: Global, keeper: &mut K) -> Option<Desk>
    ensures { IfSome result (λ desk. Mirrors (K.told keeper.new) (tables desk)) }
{
    let Ok(facts) = Arc::new(alloc, FactTable::empty(alloc)) else {
        return None;
    };
    match Desk::load(alloc, keeper, facts) {
        Ok(desk) => Some(desk),
        Err(fault) => {
            drop(fault);
            None
        }
    }
}

/// Whether the edit of a line has this reply.
pub(crate) fn is_replied<K: Keeper>(
    alloc: Global,
    desk: &mut Desk,
    keeper: &mut K,
    line: &[u8],
    reply: &[u8],
) -> bool
    requires { Mirrors (K.told keeper.old) (tables desk.old) }
    ensures { Mirrors (K.told keeper.new) (tables desk.new) }
{
    let edit = match read_edit_line(alloc, line) {
        Ok(edit) => edit,
        Err(fault) => {
            drop(fault);
            return false;
        }
    };
    let mut out = LineText::new();
    match desk.edit(alloc, keeper, &edit) {
        Ok(answer) => answer.line_into(&mut out),
        Err(fault) => fault.line_into(&mut out),
    }
    out.as_slice() == reply
}

/// Whether each of the edits has its reply.
pub(crate) fn all_replied<K: Keeper>(
    alloc: Global,
    desk: &mut Desk,
    keeper: &mut K,
    rows: &[Row],
) -> bool
    requires { Mirrors (K.told keeper.old) (tables desk.old) }
    ensures { Mirrors (K.told keeper.new) (tables desk.new) }
{
    let mut all = true;
    for row in rows {
        let is = is_replied(alloc, desk, keeper, row.line, row.reply);
        all = all && is;
    }
    all
}

/// Whether two desks say the same of their rules, their receipts and their switch.
pub(crate) fn are_alike(alloc: Global, one: &Desk, other: &Desk) -> bool {
    let Ok(first) = one.list_text(alloc) else {
        return false;
    };
    let Ok(second) = other.list_text(alloc) else {
        return false;
    };
    let rules = first.as_slice() == second.as_slice();
    let (one, other) = (one.status(), other.status());
    let receipts = one.receipts == other.receipts;
    let switch = one.enabled == other.enabled;
    rules && receipts && switch
}
