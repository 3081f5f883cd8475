//! The canonical text of what an edit asks for: the edit's line without its key.

ghost use Rattle.std.specs.Prelude.{◌≡◌, ◌+◌, ◌≤◌, ◌↔◌, ◌++◌, length, IsTrue, IfOk};
ghost use Rattle.line_text.specs.LineText.{line_bytes};
ghost use Rattle.line_text.specs.declared.limits.TheConstants.{FRONT_LIMIT, LINE_ROOM};
ghost use Rattle.policy_model.specs.Texts.{selector_text, which_text, any_kind_text};
ghost use Rattle.policy_model.specs.Texts as words;
ghost use Rattle.rule_values.specs.Selector.{which_of, selector_of};
ghost use Rattle.rule_edits.specs.Edit.{content_of};
ghost use Rattle.rule_edits.specs.Fronts.{front_of, rest_of};

use crate::edit::Content;
use crate::new_rule::expiry_into;
use req_tree::{Bytes, LineText};
use rule_values::{Kind, Selector, Which};
use std::alloc::{AllocError, Global};

/// The canonical text of a content.
pub fn content_text(alloc: Global, content: &Content) -> Result<Bytes, AllocError>
    ensures { IfOk result (λ text. text ≡ words.content_text (content_of content.now)) }
{
    let mut front = LineText::new();
    front_into(content, &mut front);
    joined(alloc, front.as_slice(), rest(content))
}

/// Whether this is the canonical text of the content; it takes no memory.
pub fn content_is(content: &Content, text: &[u8]) -> bool
    ensures { IsTrue result ↔ (words.content_text (content_of content.now) ≡ text.now) }
{
    let mut front = LineText::new();
    front_into(content, &mut front);
    is_joined(front.as_slice(), rest(content), text)
}

/// Appends the words of a content, up to an added rule's requirement.
fn front_into(content: &Content, out: &mut LineText)
    requires { length (line_bytes out.old) ≤ FRONT_LIMIT }
    ensures { line_bytes out.new ≡ line_bytes out.old ++ front_of (content_of content.now) }
{
    match content {
        Content::Add(rule) => rule.front_into(out),
        Content::Remove(selector) => change_into(b"remove ", selector, out),
        Content::Enable(selector) => change_into(b"enable ", selector, out),
        Content::Disable(selector) => change_into(b"disable ", selector, out),
        Content::Expire(selector, end) => {
            change_into(b"expire ", selector, out);
            out.push(b' ');
            expiry_into(*end, out);
        }
        Content::Switch(on) => out.push_all(switch_words(*on)),
    }
}

/// An added rule's requirement, and nothing for other contents.
fn rest(content: &Content) -> &[u8]
    ensures { result.now ≡ rest_of (content_of content.now) }
{
    match content {
        Content::Add(rule) => rule.text.as_slice(),
        Content::Remove(_)
        | Content::Enable(_)
        | Content::Disable(_)
        | Content::Expire(_, _)
        | Content::Switch(_) => b"",
    }
}

fn change_into(word: &[u8], selector: &Selector, out: &mut LineText)
    requires room { length (line_bytes out.old) ≤ FRONT_LIMIT }
    requires word { length word.now ≤ 8 }
    ensures text { line_bytes out.new ≡ line_bytes out.old ++ (word.now ++ selector_text (selector_of selector.now)) }
    ensures length { length (line_bytes out.new) ≤ length (line_bytes out.old) + 450 }
{
    out.push_all(word);
    which_into(&selector.which, out);
    out.push(b' ');
    out.push_all(kind_word(selector.kind));
}

fn which_into(which: &Which, out: &mut LineText)
    requires { length (line_bytes out.old) + 400 ≤ LINE_ROOM }
    ensures text { line_bytes out.new ≡ line_bytes out.old ++ which_text (which_of which.now) }
    ensures length { length (line_bytes out.new) ≤ length (line_bytes out.old) + 400 }
{
    match which {
        Which::Id(id) => {
            out.push_all(b"id ");
            out.push_number(id.get() as u64);
        }
        Which::Label(label) => {
            out.push_all(b"label ");
            out.push_word(label.as_slice());
        }
    }
}

ghost use Rattle.std.specs.Prelude.{option_map};
ghost use Rattle.rule_values.specs.Kind.{kind_of};
ghost use Rattle.policy_model.specs.Contents.{switch};

fn kind_word(kind: Option<Kind>) -> &'static [u8]
    ensures word { result.now ≡ any_kind_text (option_map kind_of kind) }
    ensures length { length result.now ≤ 8 }
{
    match kind {
        None => b"any",
        Some(kind) => kind.word(),
    }
}

fn switch_words(on: bool) -> &'static [u8]
    ensures words { result.now ≡ words.content_text (switch on) }
    ensures length { length result.now ≤ 10 }
{
    if on { b"switch on" } else { b"switch off" }
}

fn joined(alloc: Global, front: &[u8], rest: &[u8]) -> Result<Bytes, AllocError>
    ensures { IfOk result (λ text. text ≡ front.now ++ rest.now) }
{
    let mut text = Vec::from_slice(alloc, front)?;
    text.extend_from_slice(rest)?;
    Ok(Bytes::from_vec(text))
}

fn is_joined(front: &[u8], rest: &[u8], text: &[u8]) -> bool
    ensures { IsTrue result ↔ (front.now ++ rest.now ≡ text.now) }
{
    match text.split_at_checked(front.len()) {
        None => false,
        Some((first, second)) => {
            let begins = first == front;
            let ends = second == rest;
            begins && ends
        }
    }
}
