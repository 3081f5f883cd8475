//! What a desk answers to edits and assessments, as it is printed.

ghost use Rattle.std.specs.Prelude.{IfSome};
ghost use Rattle.object_model.specs.OfDesk.{KeepsOf};
ghost use Rattle.desk_state.specs.Stands.{plain};
ghost use Rattle.desk_state.specs.Judged.{IsJudgedOfDesk};

use crate::kept_desk::{KeptDesk, fresh_desk};
use crate::made::{ask, edit, new_rule, subject};
use desk_state::{Answer, Ask, Begun, Content, Edit, EditFault, Judged, Looked};
use req_tree::LineText;
use rule_edits::{content_is, content_text};
use rule_values::Moment;
use std::alloc::Global;
use std::test::Fail;

pub fn answers(answer: &Result<Answer, EditFault>, text: &[u8]) -> bool {
    let mut out = LineText::new();
    match answer {
        Ok(answer) => answer.line_into(&mut out),
        Err(fault) => fault.line_into(&mut out),
    }
    out.as_slice() == text
}

/// Whether this is the line of an assessment that is finished as it begins.
pub fn assesses(alloc: Global, desk: &mut KeptDesk, ask: &Ask, text: &[u8]) -> bool {
    let mut out = LineText::new();
    match desk.begin(alloc, ask) {
        Err(_) => return false,
        Ok(Begun::Known(verdict)) => verdict.line_into(None, &mut out),
        Ok(Begun::Pending(ticket)) => {
            let finished = desk.finish(ticket);
            finished.verdict.line_into(Some(finished.offered), &mut out);
        }
    }
    out.as_slice() == text
}

fn refusal_prints(fault: EditFault, text: &[u8]) -> bool {
    let mut out = LineText::new();
    fault.line_into(&mut out);
    out.as_slice() == text
}

fn made(alloc: Global, desk: &mut KeptDesk, edit: &Edit, text: &[u8]) -> bool
    ensures { KeepsOf (plain desk.old.desk) (plain desk.new.desk) }
{
    let answer = desk.edit(alloc, edit);
    answers(&answer, text)
}

// a key acts once, and other contents under it are refused
fn one_key(alloc: Global) -> Option<bool> {
    let mut desk = fresh_desk(alloc)?;
    let allow = edit(alloc, b"k1", true)?;
    let deny = edit(alloc, b"k1", false)?;
    let first = made(alloc, &mut desk, &allow, b"ok edit=1 rules=1");
    let again = made(alloc, &mut desk, &allow, b"repeated edit=1 rules=1");
    let other = made(
        alloc,
        &mut desk,
        &deny,
        b"refused edit 12 KeyReused edit=1 rules=1",
    );
    Some(first && again && other)
}

// the rule that an edit added decides until it ends
fn one_rule(alloc: Global) -> Option<bool> {
    let mut desk = fresh_desk(alloc)?;
    let none = assesses(
        alloc,
        &mut desk,
        &ask(subject()),
        b"rejected at=0 rule=none latent=none label=no%20matching%20rule override=none source=rules cache=kept",
    );
    let added = made(
        alloc,
        &mut desk,
        &edit(alloc, b"k1", true)?,
        b"ok edit=1 rules=1",
    );
    let first = desk.tick(Moment::of(999)?).get() == 999;
    let decides = assesses(
        alloc,
        &mut desk,
        &ask(subject()),
        b"accepted at=999 rule=1 latent=none label=a%20b override=none source=rules cache=inhibited",
    );
    let second = desk.tick(Moment::of(1000)?).get() == 1000;
    let ended = assesses(
        alloc,
        &mut desk,
        &ask(subject()),
        b"rejected at=1000 rule=none latent=none label=no%20matching%20rule override=none source=rules cache=kept",
    );
    let unsigned = assesses(
        alloc,
        &mut desk,
        &ask(None),
        b"rejected at=1000 rule=none latent=none label=no%20usable%20signature override=none source=unsigned cache=none",
    );
    Some(none && added && first && decides && second && ended && unsigned)
}

fn judged(desk: &KeptDesk, ask: &Ask) -> Option<Judged>
    ensures { IfSome result (λ judged. IsJudgedOfDesk (plain desk.now.desk) judged) }
{
    match desk.judge(ask) {
        Looked::Known(_) => None,
        Looked::Open(judged) => Some(judged),
    }
}

fn settles(desk: &mut KeptDesk, judged: Judged, text: &[u8]) -> bool
    requires { IsJudgedOfDesk (plain desk.old.desk) judged }
    ensures { KeepsOf (plain desk.old.desk) (plain desk.new.desk) }
{
    let finished = desk.settle(judged);
    let mut out = LineText::new();
    finished.verdict.line_into(Some(finished.offered), &mut out);
    out.as_slice() == text
}

// what was judged before an edit is as of its beginning, and isn't kept
fn one_judged(alloc: Global) -> Option<bool> {
    let mut desk = fresh_desk(alloc)?;
    let before = judged(&desk, &ask(subject()))?;
    let added = made(
        alloc,
        &mut desk,
        &edit(alloc, b"k1", true)?,
        b"ok edit=1 rules=1",
    );
    let after = judged(&desk, &ask(subject()))?;
    let moved = settles(
        &mut desk,
        before,
        b"rejected at=0 rule=none latent=none label=no%20matching%20rule override=none source=rules cache=moved",
    );
    let inhibited = settles(
        &mut desk,
        after,
        b"accepted at=0 rule=1 latent=none label=a%20b override=none source=rules cache=inhibited",
    );
    let unsigned = judged(&desk, &ask(None)).is_none();
    Some(added && moved && inhibited && unsigned)
}

#[test]
fn what_was_judged_is_as_of_its_beginning(rt: HostRuntime) -> Result<(), Fail> {
    assert!(rt; one_judged(rt.alloc()) == Some(true));
    Ok(())
}

// the canonical text of an edit, which is told again
fn one_text(alloc: Global) -> Option<bool> {
    let content = Content::Add(new_rule(alloc, true)?);
    let text = content_text(alloc, &content).ok()?;
    let line = b"add execute allow 20.5 1000 a%20b default+inhibit always";
    Some(text.as_slice() == line.as_slice() && content_is(&content, line))
}

#[test]
fn a_key_acts_once(rt: HostRuntime) -> Result<(), Fail> {
    assert!(rt; one_key(rt.alloc()) == Some(true));
    Ok(())
}

#[test]
fn an_added_rule_decides_until_it_ends(rt: HostRuntime) -> Result<(), Fail> {
    assert!(rt; one_rule(rt.alloc()) == Some(true));
    Ok(())
}

#[test]
fn an_edit_has_its_canonical_text(rt: HostRuntime) -> Result<(), Fail> {
    assert!(rt; one_text(rt.alloc()) == Some(true));
    Ok(())
}

#[test]
fn refusals_are_printed(rt: HostRuntime) -> Result<(), Fail> {
    assert!(rt;
        refusal_prints(EditFault::TableFull, b"refused edit 13 TableFull")
            && refusal_prints(EditFault::ReceiptsFull, b"refused edit 14 ReceiptsFull")
            && refusal_prints(EditFault::KeeperFault, b"refused edit 16 KeeperFault")
            && refusal_prints(EditFault::OutOfMemory, b"")
    );
    Ok(())
}
