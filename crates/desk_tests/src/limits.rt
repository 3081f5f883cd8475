//! Edits past the limits of a desk.
use crate::edits::answers;
use crate::kept_desk::{KeptDesk, fresh_desk};
use crate::made::{by_id, rule_of};
use desk_state::{Content, Edit, EditKey};
use req_tree::LineText;
use rule_values::Kind;
use std::alloc::Global;
use std::test::Fail;

fn number_key(number: u64) -> Option<EditKey> {
    let mut key = LineText::new();
    key.push_number(number);
    EditKey::of(key.as_slice())
}

// the edit of this content, under a key of this number, is answered by this line
fn says(
    alloc: Global,
    desk: &mut KeptDesk,
    number: u64,
    content: Option<Content>,
    text: &[u8],
) -> bool {
    match (number_key(number), content) {
        (Some(key), Some(content)) => {
            let edit = Edit { key, content };
            let answer = desk.edit(alloc, &edit);
            answers(&answer, text)
        }
        _ => false,
    }
}

fn is_disabled(alloc: Global, desk: &mut KeptDesk, number: u64) -> bool {
    match (number_key(number), by_id(1, None)) {
        (Some(key), Some(selector)) => {
            let edit = Edit {
                key,
                content: Content::Disable(selector),
            };
            desk.edit(alloc, &edit).is_ok()
        }
        _ => false,
    }
}

// a rule is disabled a thousand times and no more
fn most_disables(alloc: Global, desk: &mut KeptDesk) -> bool {
    let rule = rule_of(alloc, Kind::Execute, true, b"a").map(Content::Add);
    let mut all = says(alloc, desk, 0, rule, b"ok edit=1 rules=1");
    for number in 1..1_001 {
        all = is_disabled(alloc, desk, number) && all;
    }
    all && says(
        alloc,
        desk,
        2_000,
        by_id(1, None).map(Content::Disable),
        b"refused edit 15 DisableFull rule=1",
    ) && says(
        alloc,
        desk,
        2_000,
        by_id(1, None).map(Content::Enable),
        b"ok edit=1002 rules=1",
    )
}

fn disables(alloc: Global) -> bool {
    match fresh_desk(alloc) {
        None => false,
        Some(mut desk) => most_disables(alloc, &mut desk),
    }
}

#[test]
fn a_rule_is_disabled_a_thousand_times(rt: HostRuntime) -> Result<(), Fail> {
    assert!(rt; disables(rt.alloc()));
    Ok(())
}

// an edit under a key of this number is accepted
fn is_made(alloc: Global, desk: &mut KeptDesk, number: u64, content: Option<Content>) -> bool {
    match (number_key(number), content) {
        (Some(key), Some(content)) => {
            let edit = Edit { key, content };
            desk.edit(alloc, &edit).is_ok()
        }
        _ => false,
    }
}

fn add(alloc: Global) -> Option<Content> {
    rule_of(alloc, Kind::Execute, true, b"a").map(Content::Add)
}

// ten thousand rules and no more
fn most_rules(alloc: Global, desk: &mut KeptDesk) -> bool {
    let mut all = true;
    for number in 0..10_000 {
        all = is_made(alloc, desk, number, add(alloc)) && all;
    }
    all && says(
        alloc,
        desk,
        10_000,
        add(alloc),
        b"refused edit 13 TableFull",
    )
}

// A hundred thousand edits and no more, on a desk that has ten thousand; what the rules refuse is still told first.
fn most_edits(alloc: Global, desk: &mut KeptDesk) -> bool {
    let mut all = true;
    for number in 10_000..100_000 {
        all = is_made(alloc, desk, number, Some(Content::Switch(true))) && all;
    }
    all && says(
        alloc,
        desk,
        100_000,
        Some(Content::Switch(true)),
        b"refused edit 14 ReceiptsFull",
    ) && says(
        alloc,
        desk,
        100_000,
        by_id(10_001, None).map(Content::Remove),
        b"refused edit 11 NoRule",
    ) && says(
        alloc,
        desk,
        99_999,
        Some(Content::Switch(true)),
        b"repeated edit=100000 rules=0",
    )
}

fn fills(alloc: Global) -> bool {
    match fresh_desk(alloc) {
        None => false,
        Some(mut desk) => most_rules(alloc, &mut desk) && most_edits(alloc, &mut desk),
    }
}

#[test]
fn a_desk_has_ten_thousand_rules_and_takes_a_hundred_thousand_edits(
    rt: HostRuntime,
) -> Result<(), Fail> {
    assert!(rt; fills(rt.alloc()));
    Ok(())
}
