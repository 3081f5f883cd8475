//! A rule's line.

ghost use Rattle.std.specs.Prelude.{◌≡◌, ◌+◌, ◌≤◌, ◌++◌, [], ◌∷◌, length, OnOk};
ghost use Rattle.line_text.specs.LineText.{line_bytes};
ghost use Rattle.line_text.specs.declared.limits.TheConstants.{LINE_ROOM};
ghost use Rattle.policy_model.specs.Texts.{verdict_word, expiry_text, flags_text};
ghost use Rattle.rule_values.specs.Rule.{row_of};
ghost use Rattle.rule_list.specs.ListText.{rule_head, rule_terms, rule_front, rule_line};

use crate::word::word_onto;
use line_text::LineText;
use rule_values::{Moment, Rule};
use std::alloc::AllocError;

/// Appends a rule's line with its LF.
pub(crate) fn rule_onto(rule: &Rule, out: &mut Vec<u8>) -> Result<(), AllocError>
    ensures { OnOk result (out.new.items ≡ out.old.items ++ rule_line (row_of rule.now)) }
{
    let mut front = LineText::new();
    front_into(rule, &mut front);
    out.extend_from_slice(front.as_slice())?;
    word_onto(rule.text.as_slice(), out)?;
    out.push(b'\n')?;
    Ok(())
}

/// Appends a rule's line up to its requirement, which may be longer than a line of text under construction.
fn front_into(rule: &Rule, out: &mut LineText)
    requires { line_bytes out.old ≡ [] }
    ensures { line_bytes out.new ≡ rule_front (row_of rule.now) }
{
    head_into(rule, out);
    terms_into(rule, out);
    out.push_all(b" require=");
}

fn head_into(rule: &Rule, out: &mut LineText)
    requires { length (line_bytes out.old) + 200 ≤ LINE_ROOM }
    ensures text { line_bytes out.new ≡ line_bytes out.old ++ rule_head (row_of rule.now) }
    ensures length { length (line_bytes out.new) ≤ length (line_bytes out.old) + 200 }
{
    out.push_field(b"rule=", u64::from(rule.id.get()));
    out.push_all(b" type=");
    out.push_all(rule.kind.word());
    out.push_all(b" verdict=");
    out.push_all(verdict_word(rule.allow));
    out.push_all(b" priority=");
    rule.priority.line_into(out);
}

fn terms_into(rule: &Rule, out: &mut LineText)
    requires { length (line_bytes out.old) + 600 ≤ LINE_ROOM }
    ensures text { line_bytes out.new ≡ line_bytes out.old ++ rule_terms (row_of rule.now) }
    ensures length { length (line_bytes out.new) ≤ length (line_bytes out.old) + 600 }
{
    out.push_field(b" disabled=", u64::from(rule.disabled));
    out.push_all(b" expires=");
    expiry_into(rule.expires, out);
    out.push_all(b" flags=");
    out.push_all(flags_word(rule.is_default, rule.inhibit));
    out.push_all(b" label=");
    out.push_word(rule.label.as_slice());
}

fn verdict_word(allow: bool) -> &'static [u8]
    ensures word { result.now ≡ verdict_word allow }
    ensures length { length result.now ≤ 5 }
{
    if allow { b"allow" } else { b"deny" }
}

fn expiry_into(expires: Option<Moment>, out: &mut LineText)
    requires { length (line_bytes out.old) + 20 ≤ LINE_ROOM }
    ensures text { line_bytes out.new ≡ line_bytes out.old ++ expiry_text expires }
    ensures length { length (line_bytes out.new) ≤ length (line_bytes out.old) + 20 }
{
    match expires {
        None => out.push_all(b"never"),
        Some(moment) => out.push_number(moment.get()),
    }
}

fn flags_word(is_default: bool, inhibit: bool) -> &'static [u8]
    ensures word { result.now ≡ flags_text is_default inhibit }
    ensures length { length result.now ≤ 15 }
{
    match (is_default, inhibit) {
        (true, true) => b"default+inhibit",
        (true, false) => b"default",
        (false, true) => b"inhibit",
        (false, false) => b"-",
    }
}
