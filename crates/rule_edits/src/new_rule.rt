//! The rule that an edit adds.

ghost use Rattle.std.specs.Prelude.{◌≡◌, ◌+◌, ◌≤◌, ◌++◌, [], ◌∷◌, length, Some, IfOk};
ghost use Rattle.line_text.specs.LineText.{line_bytes};
ghost use Rattle.line_text.specs.declared.limits.TheConstants.{FRONT_LIMIT, LINE_ROOM};
ghost use Rattle.req_grammar.specs.Readings.{IsRequirementText};
ghost use Rattle.policy_model.specs.Contents.{IsRuleText};
ghost use Rattle.policy_model.specs.Texts.{add_front, verdict_word, expiry_text, flags_text};

use req_tree::{Bytes, LineText, SharedReq};
use rule_values::{Kind, Label, Moment, Priority, Rule, RuleId, ShortReq};
use std::alloc::{AllocError, Global};

/// All that an added rule has but its number.
#[derive(Drop)]
pub struct NewRule {
    pub kind: Kind,
    pub allow: bool,
    pub priority: Priority,
    pub expires: Option<Moment>,
    pub label: Label,
    pub is_default: bool,
    pub inhibit: bool,
    /// The requirement as it was given.
    pub text: Bytes,
    pub tree: SharedReq,
    pub ghost text_is: { IsRuleText text },
    pub ghost reads: { ∥ IsRequirementText text tree ∥₁ },
}

impl NewRule {
    ghost use Rattle.rule_values.specs.Rule.{row_of};
    ghost use Rattle.policy_model.specs.Changes as model;
    ghost use Rattle.rule_edits.specs.Edit.{new_row};

    /// The rule of this number; it shares the requirement's tree.
    pub fn rule(&self, alloc: Global, id: RuleId) -> Result<Rule, AllocError>
        ensures { IfOk result (λ rule. row_of rule ≡ model.added_row id (new_row self.now)) }
    {
        let text = Bytes::copy_of(alloc, self.text.as_slice())?;
        let tree = self.tree.share()?;
        Ok(Rule {
            kind: self.kind,
            allow: self.allow,
            is_default: self.is_default,
            inhibit: self.inhibit,
            disabled: 0,
            expires: self.expires,
            short: ShortReq::of(&tree),
            id,
            priority: self.priority,
            tree,
            text,
            label: self.label.copied(),
        })
    }

    /// The same rule; it shares the requirement's tree.
    pub fn copied(&self, alloc: Global) -> Result<NewRule, AllocError>
        ensures { IfOk result (λ rule. new_row rule ≡ new_row self.now) }
    {
        let text = Bytes::copy_of(alloc, self.text.as_slice())?;
        let tree = self.tree.share()?;
        Ok(NewRule {
            kind: self.kind,
            allow: self.allow,
            priority: self.priority,
            expires: self.expires,
            label: self.label.copied(),
            is_default: self.is_default,
            inhibit: self.inhibit,
            text,
            tree,
        })
    }

    /// Appends `add`, the kind, verdict, priority, expiry, label and flags, each with a space behind it.
    pub fn front_into(&self, out: &mut LineText)
        requires { length (line_bytes out.old) ≤ FRONT_LIMIT }
        ensures text { line_bytes out.new ≡ line_bytes out.old ++ add_front (new_row self.now) }
        ensures length { length (line_bytes out.new) ≤ length (line_bytes out.old) + 500 }
    {
        out.push_all(b"add ");
        out.push_all(self.kind.word());
        out.push(b' ');
        out.push_all(verdict_word(self.allow));
        out.push(b' ');
        self.priority.line_into(out);
        out.push(b' ');
        expiry_into(self.expires, out);
        out.push(b' ');
        out.push_word(self.label.as_slice());
        out.push(b' ');
        out.push_all(flags_word(self.is_default, self.inhibit));
        out.push(b' ');
    }
}

fn verdict_word(allow: bool) -> &'static [u8]
    ensures word { result.now ≡ verdict_word allow }
    ensures length { length result.now ≤ 5 }
{
    if allow { b"allow" } else { b"deny" }
}

pub(crate) fn expiry_into(expires: Option<Moment>, out: &mut LineText)
    requires { length (line_bytes out.old) + 20 ≤ LINE_ROOM }
    ensures text { line_bytes out.new ≡ line_bytes out.old ++ expiry_text expires }
    ensures length { length (line_bytes out.new) ≤ length (line_bytes out.old) + 20 }
{
    match expires {
        None => out.push_all(b"never"),
        Some(moment) => out.push_number(moment.get()),
    }
}

fn flags_word(is_default: bool, inhibit: bool) -> &'static [u8]
    ensures word { result.now ≡ flags_text is_default inhibit }
    ensures length { length result.now ≤ 15 }
{
    match (is_default, inhibit) {
        (true, true) => b"default+inhibit",
        (true, false) => b"default",
        (false, true) => b"inhibit",
        (false, false) => b"-",
    }
}
