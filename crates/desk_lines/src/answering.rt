//! What a line asks for, done by a desk, with its reply.

ghost use Rattle.std.specs.Prelude.{◌≡◌, ◌≤◌, [], ℕ, List, length, Ok, OnOk, OnErr};
ghost use Rattle.line_text.specs.LineText.{line_bytes};
ghost use Rattle.session_model.specs.Lines as model;
ghost use Rattle.line_session.specs.declared.limits.TheConstants.{REPLY_LIMIT};
ghost use Rattle.assess.specs.Ask.{ask_of};
ghost use Rattle.object_model.specs.OfDesk.{KeepsOf};
ghost use Rattle.desk_state.specs.Stands.{tables, plain};
ghost use Rattle.desk_lines.specs.declared.slots.OpenSlot as code;
ghost use Rattle.desk_lines.specs.Answered.{HasReplied, BeginsAnew};
ghost use Rattle.desk_lines.specs.Slots.{AreOfDesk};

use crate::finishing::finish;
use crate::slots::{OpenSlot, is_open, take_slot};
use crate::status::status_into;
use assess::Ask;
use desk_state::Desk;
use line_text::LineText;
use object_model::laws::a_ticket_is_enough;
use rule_values::Moment;
use session_model::limits::MOST_SLOTS;
use std::alloc::AllocError;

pub fn tick(desk: &mut Desk, at: Moment, out: &mut LineText)
    requires { line_bytes out.old ≡ [] }
    ensures tables { tables desk.new ≡ tables desk.old }
    ensures of_desk { KeepsOf (plain desk.old) (plain desk.new) }
    ensures room { length (line_bytes out.new) ≤ REPLY_LIMIT }
    ensures replies { (held : List code.OpenSlot) (n : ℕ) → HasReplied desk.old held desk.new held n n (Ok (model.tick at)) (line_bytes out.new) }
{
    a_ticket_is_enough();
    let now = desk.tick(at);
    out.push_all(b"now=");
    out.push_number(now.get());
}

pub fn status(desk: &Desk, out: &mut LineText)
    requires { line_bytes out.old ≡ [] }
    ensures room { length (line_bytes out.new) ≤ REPLY_LIMIT }
    ensures replies { (held : List code.OpenSlot) (n : ℕ) → HasReplied desk.now held desk.now held n n (Ok model.status) (line_bytes out.new) }
{
    a_ticket_is_enough();
    let standing = desk.status();
    status_into(&standing, out);
}

pub fn assess(desk: &mut Desk, ask: &Ask, out: &mut LineText)
    requires { line_bytes out.old ≡ [] }
    ensures tables { tables desk.new ≡ tables desk.old }
    ensures of_desk { KeepsOf (plain desk.old) (plain desk.new) }
    ensures room { length (line_bytes out.new) ≤ REPLY_LIMIT }
    ensures replies { (held : List code.OpenSlot) (n : ℕ) → HasReplied desk.old held desk.new held n n (Ok (model.assess (ask_of ask.now))) (line_bytes out.new) }
{
    a_ticket_is_enough();
    let looked = desk.judge(ask);
    finish(desk, looked, out);
}

pub fn begin(
    desk: &Desk,
    slots: &mut Vec<OpenSlot>,
    number: u32,
    ask: &Ask,
    out: &mut LineText,
) -> Result<(), AllocError>
    requires text { line_bytes out.old ≡ [] }
    requires of_desk { AreOfDesk (plain desk.now) slots.old.items }
    ensures of_desk { AreOfDesk (plain desk.now) slots.new.items }
    ensures room { length (line_bytes out.new) ≤ REPLY_LIMIT }
    ensures replies { OnOk result ((n : ℕ) → HasReplied desk.now slots.old.items desk.now slots.new.items n n
        (Ok (model.begin number (ask_of ask.now))) (line_bytes out.new)) }
    ensures refuses { OnErr result (slots.new.items ≡ slots.old.items) }
{
    if is_open(slots.as_slice(), number) {
        out.push_all(b"refused session 21 SlotBusy");
        Ok(())
    } else if MOST_SLOTS <= slots.len() {
        out.push_all(b"refused session 23 SlotsFull");
        Ok(())
    } else {
        begin_now(desk, slots, number, ask, out)
    }
}

fn begin_now(
    desk: &Desk,
    slots: &mut Vec<OpenSlot>,
    number: u32,
    ask: &Ask,
    out: &mut LineText,
) -> Result<(), AllocError>
    requires text { line_bytes out.old ≡ [] }
    requires of_desk { AreOfDesk (plain desk.now) slots.old.items }
    ensures of_desk { AreOfDesk (plain desk.now) slots.new.items }
    ensures room { length (line_bytes out.new) ≤ REPLY_LIMIT }
    ensures replies { OnOk result (BeginsAnew desk.now slots.old.items slots.new.items number (ask_of ask.now) (line_bytes out.new)) }
    ensures refuses { OnErr result (slots.new.items ≡ slots.old.items) }
{
    a_ticket_is_enough();
    let looked = desk.judge(ask);
    slots.push(OpenSlot { number, looked })?;
    let standing = desk.status();
    out.push_field(b"begun ", u64::from(number));
    out.push_field(b" at=", standing.now.get());
    Ok(())
}

pub fn finish_number(desk: &mut Desk, slots: &mut Vec<OpenSlot>, number: u32, out: &mut LineText)
    requires text { line_bytes out.old ≡ [] }
    requires of_desk { AreOfDesk (plain desk.old) slots.old.items }
    ensures tables { tables desk.new ≡ tables desk.old }
    ensures of_desk { AreOfDesk (plain desk.new) slots.new.items }
    ensures room { length (line_bytes out.new) ≤ REPLY_LIMIT }
    ensures replies { (n : ℕ) → HasReplied desk.old slots.old.items desk.new slots.new.items n n (Ok (model.finish number)) (line_bytes out.new) }
{
    a_ticket_is_enough();
    match take_slot(slots, number) {
        None => out.push_all(b"refused session 22 SlotEmpty"),
        Some(slot) => finish(desk, slot.looked, out),
    }
}
