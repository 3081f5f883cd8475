//! Rules, edits and asks that the tests hand in.
use desk_state::{Ask, Content, Edit, EditKey, NewRule};
use req_parser::parse;
use req_tree::{Bytes, Hash20, Identifier, SharedReq, Subject};
use rule_values::{Kind, Label, Moment, Priority, RuleId, Selector, Which};
use std::alloc::Global;

/// A rule for what is executed that always means true.
pub fn new_rule(alloc: Global, allow: bool) -> Option<NewRule> {
    rule_of(alloc, Kind::Execute, allow, b"a b")
}

/// A rule of this kind and label that always means true.
pub fn rule_of(alloc: Global, kind: Kind, allow: bool, label: &[u8]) -> Option<NewRule> {
    let priority = Priority::of(20_500_000)?;
    let expires = Moment::of(1000)?;
    let label = Label::of(label)?;
    let req = parse(alloc, b"always").ok()?;
    let tree = SharedReq::new(alloc, req).ok()?;
    let text = Bytes::copy_of(alloc, b"always").ok()?;
    Some(NewRule {
        kind,
        allow,
        priority,
        expires: Some(expires),
        label,
        is_default: true,
        inhibit: true,
        text,
        tree,
    })
}

/// The edit that adds it.
pub fn edit(alloc: Global, key: &[u8], allow: bool) -> Option<Edit> {
    let key = EditKey::of(key)?;
    let rule = new_rule(alloc, allow)?;
    Some(Edit {
        key: key.copied(),
        content: Content::Add(rule),
    })
}

pub fn subject() -> Option<Subject> {
    let identifier = Identifier::of(b"com.example.app")?;
    Some(Subject {
        cdhash: Hash20 { bytes: [17; 20] },
        identifier,
        platform: 0,
    })
}

pub fn ask(subject: Option<Subject>) -> Ask {
    ask_of(Kind::Execute, subject)
}

pub fn ask_of(kind: Kind, subject: Option<Subject>) -> Ask {
    let ask = Ask {
        kind,
        subject,
        keep: true,
    };
    ask.copied()
}

/// The rule of a number, in one kind or in any.
pub fn by_id(number: u32, kind: Option<Kind>) -> Option<Selector> {
    let selector = Selector::by_id(RuleId::of(number)?, kind);
    Some(selector.copied())
}

/// The rules of a label, in one kind or in any.
pub fn by_label(label: &[u8], kind: Option<Kind>) -> Option<Selector> {
    Selector::of(Which::Label(Label::of(label)?), kind)
}
