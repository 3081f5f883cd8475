//! What the words behind an edit's key ask for.

ghost use Rattle.rule_values.specs.Selector.{selector_of};
ghost use Rattle.line_model.specs.Contents.{operands_at, add_at, selected_at, remove_verb, enable_verb, disable_verb, expire_verb, switch_verb};
ghost use Rattle.line_words.specs.Left.{left, Gives};
ghost use Rattle.rule_edits.specs.Reads.{ReadsContent};
ghost use Rattle.rule_edits.specs.Verb.{verb_of};

use crate::edit::Content;
use crate::front::read_front;
use crate::requirement::{read_requirement, read_text};
use crate::verb::Verb;
use line_words::{Cursor, LineFault};
use rule_values::Selector;
use std::alloc::Global;

/// The content of a verb and the words behind it.
pub fn read_operands(alloc: Global, verb: Verb, words: &mut Cursor) -> Result<Content, LineFault>
    ensures { ReadsContent result (operands_at (verb_of verb) (left words.old)) }
{
    match verb {
        Verb::Add => read_add(alloc, words),
        Verb::Remove => read_remove(words),
        Verb::Enable => read_enable(words),
        Verb::Disable => read_disable(words),
        Verb::Expire => read_expire(words),
        Verb::Switch => read_switch(words),
    }
}

/// KIND VERDICT PRIORITY EXPIRY LABEL FLAGS REQUIREMENT
fn read_add(alloc: Global, words: &mut Cursor) -> Result<Content, LineFault>
    ensures { ReadsContent result (add_at (left words.old)) }
{
    let front = read_front(words)?;
    let text = read_text(words)?;
    let req = read_requirement(alloc, text)?;
    let rule = front.with_requirement(alloc, text, req)?;
    Ok(Content::Add(rule))
}

/// SELECTOR
fn read_remove(words: &mut Cursor) -> Result<Content, LineFault>
    ensures { ReadsContent result (operands_at remove_verb (left words.old)) }
{
    let selector = read_selected(words)?;
    Ok(Content::Remove(selector))
}

/// SELECTOR
fn read_enable(words: &mut Cursor) -> Result<Content, LineFault>
    ensures { ReadsContent result (operands_at enable_verb (left words.old)) }
{
    let selector = read_selected(words)?;
    Ok(Content::Enable(selector))
}

/// SELECTOR
fn read_disable(words: &mut Cursor) -> Result<Content, LineFault>
    ensures { ReadsContent result (operands_at disable_verb (left words.old)) }
{
    let selector = read_selected(words)?;
    Ok(Content::Disable(selector))
}

/// SELECTOR EXPIRY
fn read_expire(words: &mut Cursor) -> Result<Content, LineFault>
    ensures { ReadsContent result (operands_at expire_verb (left words.old)) }
{
    let selector = words.selector()?;
    let expires = words.expiry()?;
    words.end()?;
    Ok(Content::Expire(selector, expires))
}

/// `on` or `off`
fn read_switch(words: &mut Cursor) -> Result<Content, LineFault>
    ensures { ReadsContent result (operands_at switch_verb (left words.old)) }
{
    let on = words.switch()?;
    words.end()?;
    Ok(Content::Switch(on))
}

/// SELECTOR and the end of the line
fn read_selected(words: &mut Cursor) -> Result<Selector, LineFault>
    ensures { Gives selector_of result (selected_at (left words.old)) }
{
    let selector = words.selector()?;
    words.end()?;
    Ok(selector)
}
