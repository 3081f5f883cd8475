//! An edit of the rules, and what it asks for.

use crate::edit_key::EditKey;
use crate::new_rule::NewRule;
use rule_values::{Moment, Selector};
use std::alloc::{AllocError, Global};

/// A change of the rules under a key, by which a repeat is known.
#[derive(Drop)]
pub struct Edit {
    pub key: EditKey,
    pub content: Content,
}

impl Edit {
    ghost use Rattle.std.specs.Prelude.{◌≡◌, IfOk};
    ghost use Rattle.rule_edits.specs.Edit.{edit_of};

    /// The same edit; it shares an added rule's tree.
    pub fn copied(&self, alloc: Global) -> Result<Edit, AllocError>
        ensures { IfOk result (λ copy. edit_of copy ≡ edit_of self.now) }
    {
        let content = self.content.copied(alloc)?;
        Ok(Edit {
            key: self.key.copied(),
            content,
        })
    }
}

/// What an edit does to the rules.
#[derive(Drop)]
pub enum Content {
    /// Makes a rule, enabled, whose number is the edit's.
    Add(NewRule),
    /// Takes the selected rules out.
    Remove(Selector),
    /// Enables the selected rules, however often they were disabled.
    Enable(Selector),
    /// Disables the selected rules once more.
    Disable(Selector),
    /// Gives the selected rules an end, or none.
    Expire(Selector, Option<Moment>),
    /// Switches assessments on or off.
    Switch(bool),
}

impl Content {
    ghost use Rattle.std.specs.Prelude.{◌≡◌, IfOk};
    ghost use Rattle.rule_edits.specs.Edit.{content_of};

    /// The same content; it shares an added rule's tree.
    pub fn copied(&self, alloc: Global) -> Result<Content, AllocError>
        ensures { IfOk result (λ copy. content_of copy ≡ content_of self.now) }
    {
        match self {
            Content::Add(rule) => Ok(Content::Add(rule.copied(alloc)?)),
            Content::Remove(selector) => Ok(Content::Remove(selector.copied())),
            Content::Enable(selector) => Ok(Content::Enable(selector.copied())),
            Content::Disable(selector) => Ok(Content::Disable(selector.copied())),
            Content::Expire(selector, end) => Ok(Content::Expire(selector.copied(), *end)),
            Content::Switch(on) => Ok(Content::Switch(*on)),
        }
    }
}
