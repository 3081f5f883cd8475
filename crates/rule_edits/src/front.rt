//! The words of an added rule in front of its requirement.

ghost use Rattle.std.specs.Prelude.{◌≡◌, IfOk};
ghost use Rattle.req_tree.specs.Tree.{tree_of};
ghost use Rattle.req_grammar.specs.Readings.{IsRequirementText};
ghost use Rattle.policy_model.specs.Contents.{IsRuleText};
ghost use Rattle.line_model.specs.Fronts.{front_at, terms_at};
ghost use Rattle.line_model.specs.Fronts as model;
ghost use Rattle.line_words.specs.Left.{left, Takes};
ghost use Rattle.rule_edits.specs.Edit.{new_row};
ghost use Rattle.rule_edits.specs.NewFront.{added_front, terms_of};

use crate::new_rule::NewRule;
use line_words::{Cursor, Flags, LineFault};
use req_tree::{Bytes, Req, SharedReq};
use rule_values::{Kind, Label, Moment, Priority};
use std::alloc::{AllocError, Global};

/// When a rule is tried, until when it is in force, its name and its flags.
#[derive(Drop)]
pub struct Terms {
    pub priority: Priority,
    pub expires: Option<Moment>,
    pub label: Label,
    pub flags: Flags,
}

/// The rule that is added, but for its requirement.
#[derive(Drop)]
pub struct Front {
    pub kind: Kind,
    pub allow: bool,
    pub terms: Terms,
}

/// Takes the words up to the requirement.
pub fn read_front(words: &mut Cursor) -> Result<Front, LineFault>
    ensures { Takes added_front (left words.new) result (front_at (left words.old)) }
{
    let kind = words.kind()?;
    let allow = words.allow()?;
    let terms = read_terms(words)?;
    Ok(Front { kind, allow, terms })
}

/// PRIORITY EXPIRY LABEL FLAGS
fn read_terms(words: &mut Cursor) -> Result<Terms, LineFault>
    ensures { Takes terms_of (left words.new) result (terms_at (left words.old)) }
{
    let priority = words.priority()?;
    let expires = words.expiry()?;
    let label = words.label()?;
    let flags = words.flags()?;
    Ok(Terms {
        priority,
        expires,
        label,
        flags,
    })
}

impl Front {
    /// The rule with this requirement, given as this text.
    pub fn with_requirement(
        self,
        alloc: Global,
        text: &[u8],
        req: Req,
    ) -> Result<NewRule, AllocError>
        requires reads { IsRequirementText text.now (tree_of req) }
        requires text_is { IsRuleText text.now }
        ensures { IfOk result (λ rule. new_row rule ≡ model.new_row (added_front self) text.now (tree_of req)) }
    {
        let tree = SharedReq::new(alloc, req)?;
        let text = Bytes::copy_of(alloc, text)?;
        let Terms {
            priority,
            expires,
            label,
            flags,
        } = self.terms;
        Ok(NewRule {
            kind: self.kind,
            allow: self.allow,
            priority,
            expires,
            label,
            is_default: flags.is_default,
            inhibit: flags.inhibit,
            text,
            tree,
        })
    }
}
