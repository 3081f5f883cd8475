//! The verdict on an assessment.

ghost use Rattle.std.specs.Prelude.{◌≡◌, ◌+◌, ◌≤◌, ◌++◌, length, option_map};
ghost use Rattle.line_text.specs.LineText.{line_bytes};
ghost use Rattle.line_text.specs.declared.limits.TheConstants.{FRONT_LIMIT, LINE_ROOM};
ghost use Rattle.policy_model.specs.ReplyTexts.{Fate, verdict_text, number_text, accepted_text, override_text, origin_text, fate_text};
ghost use Rattle.object_model.specs.Origins.{fate_of};
ghost use Rattle.object_cache.specs.Offered.{offered_of};

use object_cache::Offered;
use req_tree::LineText;
use rule_values::{Label, Moment, RuleId};

/// What is answered to an assessment.
#[derive(Drop)]
pub struct Verdict {
    pub allow: bool,
    /// The moment of the assessment.
    pub at: Moment,
    /// The rule that decided.
    pub rule: Option<RuleId>,
    /// Where no rule decided: the disabled rule that would have.
    pub latent: Option<RuleId>,
    /// The label of the rule or of the latent one, or why there is none.
    pub label: Label,
    /// A denial that is answered as acceptance, since assessments are switched off.
    pub overridden: bool,
    pub origin: Origin,
}

/// Where a verdict comes from.
#[derive(Clone, Copy, Drop)]
pub enum Origin {
    /// The rules were looked at.
    Rules,
    /// A kept outcome.
    Cache,
    /// The code has no usable signature.
    Unsigned,
}

impl Verdict {
    ghost use Rattle.desk_state.specs.Verdict.{verdict_of, origin_of};

    /// Appends the reply's line, without its end; its last word says what became of the outcome that was offered, or
    /// that none was.
    pub fn line_into(&self, offered: Option<Offered>, out: &mut LineText)
        requires { length (line_bytes out.old) ≤ FRONT_LIMIT }
        ensures text { line_bytes out.new ≡ line_bytes out.old ++ verdict_text (verdict_of self.now) (origin_of self.now.origin) (fate_of (option_map offered_of offered)) }
        ensures length { length (line_bytes out.new) ≤ length (line_bytes out.old) + 620 }
    {
        self.line_with(fate_word(offered), out)
    }

    fn line_with(&self, fate: &[u8], out: &mut LineText)
        requires room { length (line_bytes out.old) ≤ FRONT_LIMIT }
        requires fate { length fate.now ≤ 9 }
        ensures text { (told : Fate) → fate_text told ≡ fate.now
            → line_bytes out.new ≡ line_bytes out.old ++ verdict_text (verdict_of self.now) (origin_of self.now.origin) told }
        ensures length { length (line_bytes out.new) ≤ length (line_bytes out.old) + 620 }
    {
        out.push_all(accepted_word(self.allow));
        out.push_all(b" at=");
        out.push_number(self.at.get());
        out.push_all(b" rule=");
        number_into(self.rule, out);
        out.push_all(b" latent=");
        number_into(self.latent, out);
        out.push_all(b" label=");
        out.push_word(self.label.as_slice());
        out.push_all(b" override=");
        out.push_all(override_word(self.overridden));
        out.push_all(b" source=");
        out.push_all(self.origin.word());
        out.push_all(b" cache=");
        out.push_all(fate);
    }
}

impl Origin {
    ghost use Rattle.desk_state.specs.Verdict.{origin_of};

    fn word(self) -> &'static [u8]
        ensures word { result.now ≡ origin_text (origin_of self) }
        ensures length { length result.now ≤ 8 }
    {
        match self {
            Origin::Rules => b"rules",
            Origin::Cache => b"cache",
            Origin::Unsigned => b"unsigned",
        }
    }
}

/// What became of an offered outcome.
fn fate_word(offered: Option<Offered>) -> &'static [u8]
    ensures word { result.now ≡ fate_text (fate_of (option_map offered_of offered)) }
    ensures length { length result.now ≤ 9 }
{
    match offered {
        None => b"none",
        Some(Offered::Kept) => b"kept",
        Some(Offered::Inhibited) => b"inhibited",
        Some(Offered::Moved) => b"moved",
        Some(Offered::Expired) => b"expired",
        Some(Offered::Twice) => b"twice",
        Some(Offered::Full) => b"full",
    }
}

fn accepted_word(allow: bool) -> &'static [u8]
    ensures word { result.now ≡ accepted_text allow }
    ensures length { length result.now ≤ 8 }
{
    if allow { b"accepted" } else { b"rejected" }
}

fn override_word(overridden: bool) -> &'static [u8]
    ensures word { result.now ≡ override_text overridden }
    ensures length { length result.now ≤ 19 }
{
    if overridden {
        b"security%20disabled"
    } else {
        b"none"
    }
}

fn number_into(id: Option<RuleId>, out: &mut LineText)
    requires { length (line_bytes out.old) + 20 ≤ LINE_ROOM }
    ensures text { line_bytes out.new ≡ line_bytes out.old ++ number_text id }
    ensures length { length (line_bytes out.new) ≤ length (line_bytes out.old) + 20 }
{
    match id {
        None => out.push_all(b"none"),
        Some(id) => out.push_number(id.get() as u64),
    }
}
