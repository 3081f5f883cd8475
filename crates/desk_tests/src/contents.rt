//! What each kind of edit does, as it is printed.
use crate::edits::{answers, assesses};
use crate::kept_desk::{KeptDesk, fresh_desk};
use crate::made::{ask, ask_of, by_id, by_label, rule_of, subject};
use desk_state::{Begun, Content, DeskStatus, Edit, EditKey};
use rule_edits::{content_is, content_text};
use rule_values::{Kind, Moment, Outcome, Selector};
use std::alloc::Global;
use std::test::Fail;

fn add(alloc: Global, kind: Kind, allow: bool, label: &[u8]) -> Option<Content> {
    rule_of(alloc, kind, allow, label).map(Content::Add)
}

fn remove(selector: Option<Selector>) -> Option<Content> {
    selector.map(Content::Remove)
}

fn enable(selector: Option<Selector>) -> Option<Content> {
    selector.map(Content::Enable)
}

fn disable(selector: Option<Selector>) -> Option<Content> {
    selector.map(Content::Disable)
}

fn expire(selector: Option<Selector>, end: Option<Moment>) -> Option<Content> {
    match selector {
        None => None,
        Some(selector) => Some(Content::Expire(selector, end)),
    }
}

fn switch(on: bool) -> Option<Content> {
    Some(Content::Switch(on))
}

// the edit of this content under this key is answered by this line
fn says(
    alloc: Global,
    desk: &mut KeptDesk,
    key: &[u8],
    content: Option<Content>,
    text: &[u8],
) -> bool {
    match (EditKey::of(key), content) {
        (Some(key), Some(content)) => {
            let edit = Edit { key, content };
            let answer = desk.edit(alloc, &edit);
            answers(&answer, text)
        }
        _ => false,
    }
}

// three rules of one label, one for each kind
fn has_three_kinds(alloc: Global, desk: &mut KeptDesk) -> bool {
    says(
        alloc,
        desk,
        b"k1",
        add(alloc, Kind::Execute, true, b"a"),
        b"ok edit=1 rules=1",
    ) && says(
        alloc,
        desk,
        b"k2",
        add(alloc, Kind::Install, true, b"a"),
        b"ok edit=2 rules=1",
    ) && says(
        alloc,
        desk,
        b"k3",
        add(alloc, Kind::Document, false, b"a"),
        b"ok edit=3 rules=1",
    )
}

// what the rules say now of code of this kind, which nothing is kept of
fn judges(alloc: Global, desk: &KeptDesk, kind: Kind) -> Option<bool> {
    match desk.begin(alloc, &ask_of(kind, subject())).ok()? {
        Begun::Known(_) => None,
        Begun::Pending(ticket) => match ticket.judge() {
            Outcome::Governed { allow, .. } => Some(allow),
            Outcome::Default { .. } => Some(false),
        },
    }
}

fn accepts(alloc: Global, desk: &KeptDesk, kind: Kind) -> bool {
    judges(alloc, desk, kind) == Some(true)
}

fn rejects(alloc: Global, desk: &KeptDesk, kind: Kind) -> bool {
    judges(alloc, desk, kind) == Some(false)
}

fn has(status: DeskStatus, enabled: bool, rules: u32, receipts: u32, now: u64) -> bool {
    status.enabled == enabled
        && status.rules == rules
        && status.receipts == receipts
        && status.objects == 0
        && status.now.get() == now
}

fn ticks(desk: &mut KeptDesk, seconds: u64) -> bool {
    match Moment::of(seconds) {
        None => false,
        Some(moment) => desk.tick(moment).get() == seconds,
    }
}

// counts go up by one and down to 0, in all kinds at once and in one
fn counted(alloc: Global, desk: &mut KeptDesk) -> bool {
    has_three_kinds(alloc, desk)
        && says(
            alloc,
            desk,
            b"k4",
            disable(by_label(b"a", None)),
            b"ok edit=4 rules=3",
        )
        && rejects(alloc, desk, Kind::Execute)
        && rejects(alloc, desk, Kind::Install)
        && says(
            alloc,
            desk,
            b"k5",
            disable(by_label(b"a", Some(Kind::Execute))),
            b"ok edit=5 rules=1",
        )
        && says(
            alloc,
            desk,
            b"k6",
            enable(by_id(1, None)),
            b"ok edit=6 rules=1",
        )
        && accepts(alloc, desk, Kind::Execute)
        && rejects(alloc, desk, Kind::Install)
        && says(
            alloc,
            desk,
            b"k7",
            enable(by_label(b"a", None)),
            b"ok edit=7 rules=3",
        )
        && accepts(alloc, desk, Kind::Execute)
        && accepts(alloc, desk, Kind::Install)
        && has(desk.status(), true, 3, 7, 0)
}

// a selector names rules by number or label, in one kind or in any
fn selected(alloc: Global, desk: &mut KeptDesk) -> bool {
    has_three_kinds(alloc, desk)
        && says(
            alloc,
            desk,
            b"k4",
            remove(by_id(3, Some(Kind::Install))),
            b"refused edit 11 NoRule",
        )
        && says(
            alloc,
            desk,
            b"k4",
            enable(by_id(4, None)),
            b"refused edit 11 NoRule",
        )
        && says(
            alloc,
            desk,
            b"k4",
            expire(by_label(b"ab", None), None),
            b"refused edit 11 NoRule",
        )
        && says(
            alloc,
            desk,
            b"k4",
            remove(by_id(3, Some(Kind::Document))),
            b"ok edit=4 rules=1",
        )
        && says(
            alloc,
            desk,
            b"k4",
            remove(by_id(3, Some(Kind::Document))),
            b"repeated edit=4 rules=1",
        )
        && says(
            alloc,
            desk,
            b"k5",
            remove(by_label(b"a", None)),
            b"ok edit=5 rules=2",
        )
        && has(desk.status(), true, 0, 5, 0)
}

// rules end at the moment that an edit gives them, and one without an end stays
fn expiring(alloc: Global, desk: &mut KeptDesk) -> bool {
    has_three_kinds(alloc, desk)
        && says(
            alloc,
            desk,
            b"k4",
            expire(by_id(1, None), Moment::of(5)),
            b"ok edit=4 rules=1",
        )
        && says(
            alloc,
            desk,
            b"k5",
            expire(by_id(2, Some(Kind::Install)), None),
            b"ok edit=5 rules=1",
        )
        && ticks(desk, 4)
        && accepts(alloc, desk, Kind::Execute)
        && accepts(alloc, desk, Kind::Install)
        && ticks(desk, 2_000)
        && rejects(alloc, desk, Kind::Execute)
        && accepts(alloc, desk, Kind::Install)
        && has(desk.status(), true, 3, 5, 2_000)
}

fn overrides(alloc: Global, desk: &mut KeptDesk) -> bool {
    assesses(
        alloc,
        desk,
        &ask(subject()),
        b"accepted at=0 rule=1 latent=none label=Blocked override=security%20disabled source=rules cache=inhibited",
    )
}

fn denies(alloc: Global, desk: &mut KeptDesk) -> bool {
    assesses(
        alloc,
        desk,
        &ask(subject()),
        b"rejected at=0 rule=1 latent=none label=Blocked override=none source=rules cache=inhibited",
    )
}

// a desk that is switched off overrides a denial, and still names the rule
fn switched(alloc: Global, desk: &mut KeptDesk) -> bool {
    says(
        alloc,
        desk,
        b"d",
        add(alloc, Kind::Execute, false, b"Blocked"),
        b"ok edit=1 rules=1",
    ) && says(alloc, desk, b"s1", switch(false), b"ok edit=2 rules=0")
        && overrides(alloc, desk)
        && has(desk.status(), false, 1, 2, 0)
        && says(alloc, desk, b"s2", switch(true), b"ok edit=3 rules=0")
        && denies(alloc, desk)
        && says(
            alloc,
            desk,
            b"s1",
            switch(true),
            b"refused edit 12 KeyReused edit=2 rules=0",
        )
}

fn bytes_from(first: u8) -> [u8; 128] {
    let mut bytes = [0; 128];
    for place in 0..128 {
        bytes[place] = first.wrapping_add(place as u8);
    }
    bytes
}

fn all_but_last(bytes: &[u8]) -> &[u8] {
    match bytes.split_last() {
        Some((_, front)) => front,
        None => bytes,
    }
}

// a label of any bytes is told from every other one
fn labelled(alloc: Global, desk: &mut KeptDesk) -> bool {
    let low = bytes_from(0);
    let high = bytes_from(128);
    says(
        alloc,
        desk,
        b"a",
        add(alloc, Kind::Execute, true, &low),
        b"ok edit=1 rules=1",
    ) && says(
        alloc,
        desk,
        b"b",
        add(alloc, Kind::Execute, true, &high),
        b"ok edit=2 rules=1",
    ) && says(
        alloc,
        desk,
        b"c",
        remove(by_label(all_but_last(&low), None)),
        b"refused edit 11 NoRule",
    ) && says(
        alloc,
        desk,
        b"c",
        remove(by_label(&low, None)),
        b"ok edit=3 rules=1",
    ) && says(
        alloc,
        desk,
        b"d",
        disable(by_label(&high, None)),
        b"ok edit=4 rules=1",
    )
}

fn is_text(alloc: Global, content: &Content, line: &[u8]) -> bool {
    let same = content_is(content, line);
    match content_text(alloc, content) {
        Ok(text) => same && text.as_slice() == line,
        Err(_) => false,
    }
}

fn has_text(alloc: Global, content: Option<Content>, line: &[u8]) -> bool {
    match content {
        None => false,
        Some(content) => is_text(alloc, &content, line),
    }
}

fn hasnt_text(content: Option<Content>, line: &[u8]) -> bool {
    match content {
        None => false,
        Some(content) => !content_is(&content, line),
    }
}

// each content has its canonical text, and no other one's
fn have_texts(alloc: Global) -> bool {
    has_text(alloc, remove(by_id(7, None)), b"remove id 7 any")
        && has_text(
            alloc,
            enable(by_label(b"-", Some(Kind::Install))),
            b"enable label %2D install",
        )
        && has_text(
            alloc,
            disable(by_label(b"a b%", Some(Kind::Execute))),
            b"disable label a%20b%25 execute",
        )
        && has_text(
            alloc,
            expire(by_id(100_000, Some(Kind::Document)), Moment::of(60)),
            b"expire id 100000 open 60",
        )
        && has_text(
            alloc,
            expire(by_id(1, None), None),
            b"expire id 1 any never",
        )
        && has_text(alloc, switch(true), b"switch on")
        && has_text(alloc, switch(false), b"switch off")
        && hasnt_text(remove(by_id(7, None)), b"remove id 7 an")
        && hasnt_text(remove(by_id(7, None)), b"remove id 7 any ")
}

fn counts(alloc: Global) -> bool {
    match fresh_desk(alloc) {
        None => false,
        Some(mut desk) => counted(alloc, &mut desk),
    }
}

fn selects(alloc: Global) -> bool {
    match fresh_desk(alloc) {
        None => false,
        Some(mut desk) => selected(alloc, &mut desk),
    }
}

fn expires(alloc: Global) -> bool {
    match fresh_desk(alloc) {
        None => false,
        Some(mut desk) => expiring(alloc, &mut desk),
    }
}

fn switches(alloc: Global) -> bool {
    match fresh_desk(alloc) {
        None => false,
        Some(mut desk) => switched(alloc, &mut desk),
    }
}

fn labels(alloc: Global) -> bool {
    match fresh_desk(alloc) {
        None => false,
        Some(mut desk) => labelled(alloc, &mut desk),
    }
}

#[test]
fn counts_go_up_and_to_0(rt: HostRuntime) -> Result<(), Fail> {
    assert!(rt; counts(rt.alloc()));
    Ok(())
}

#[test]
fn selectors_name_rules(rt: HostRuntime) -> Result<(), Fail> {
    assert!(rt; selects(rt.alloc()));
    Ok(())
}

#[test]
fn rules_end_when_they_are_told_to(rt: HostRuntime) -> Result<(), Fail> {
    assert!(rt; expires(rt.alloc()));
    Ok(())
}

#[test]
fn a_switched_off_desk_overrides_denials(rt: HostRuntime) -> Result<(), Fail> {
    assert!(rt; switches(rt.alloc()));
    Ok(())
}

#[test]
fn labels_have_any_bytes(rt: HostRuntime) -> Result<(), Fail> {
    assert!(rt; labels(rt.alloc()));
    Ok(())
}

#[test]
fn each_content_has_its_text(rt: HostRuntime) -> Result<(), Fail> {
    assert!(rt; have_texts(rt.alloc()));
    Ok(())
}
