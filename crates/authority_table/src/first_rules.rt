//! A search of the rules, one look at each: the rule that decides an assessment, and the one that would were it enabled.

ghost use Rattle.std.specs.Prelude.{◌≡◌, ℕ, List, [], ◌∷◌, ◌++◌, nat_lt};
ghost use Rattle.req_tree.specs.Facts as f;
ghost use Rattle.req_tree.specs.Facts.{known_of};
ghost use Rattle.req_tree.specs.Subject as plain;
ghost use Rattle.req_tree.specs.Subject.{subject_of};
ghost use Rattle.policy_model.specs.Rules as model;
ghost use Rattle.fact_values.specs.Knowledge.{known_in};
ghost use Rattle.rule_values.specs.Kind.{kind_of};

use crate::ends::{default_until, governed_until};
use crate::found::Found;
use fact_values::Facts;
use held_rules::HeldRule;
use policy_model::laws::search_goes_on;
use req_tree::Subject;
use rule_values::{Kind, Moment, Rule};

/// Of the rules that were looked at so far and apply, those that are tried first.
#[derive(Clone, Copy, Drop)]
pub struct FirstRules<'a> {
    /// The first of the enabled ones.
    pub governing: Option<&'a Rule>,
    /// The first of the disabled ones.
    pub latent: Option<&'a Rule>,
}

impl<'a> FirstRules<'a> {
    ghost use Rattle.rule_values.specs.Rule.{row_of};
    ghost use Rattle.authority_table.specs.FirstRules.{AreFirst};
    ghost use Rattle.authority_table.specs.Found.{IsFound};

    /// With a look at this rule too, if its requirement can hold.
    pub(crate) fn with_held(
        self,
        rule: &'a HeldRule,
        kind: Kind,
        subject: &Subject,
        facts: Option<&Facts>,
        at: Moment,
    ) -> FirstRules<'a>
        ensures { (all : f.Facts) → known_of all (subject_of subject.now).cdhash ≡ known_in facts.entry
            → (rows : List model.Row) → AreFirst rows (kind_of kind) (subject_of subject.now) all at self.entry
            → AreFirst (rows ++ row_of rule.now ∷ []) (kind_of kind) (subject_of subject.now) all at result }
    {
        search_goes_on();
        if rule.may_hold(subject) {
            self.with(rule.get(), kind, subject, facts, at)
        } else {
            self
        }
    }

    /// With a look at this rule too.
    fn with(
        self,
        rule: &'a Rule,
        kind: Kind,
        subject: &Subject,
        facts: Option<&Facts>,
        at: Moment,
    ) -> FirstRules<'a>
        ensures { (all : f.Facts) → known_of all (subject_of subject.now).cdhash ≡ known_in facts.entry
            → (rows : List model.Row) → AreFirst rows (kind_of kind) (subject_of subject.now) all at self.entry
            → AreFirst (rows ++ row_of rule.now ∷ []) (kind_of kind) (subject_of subject.now) all at result }
    {
        search_goes_on();
        if rule.is_enabled() {
            FirstRules {
                governing: first_of(self.governing, rule, kind, subject, facts, at),
                latent: self.latent,
            }
        } else {
            FirstRules {
                governing: self.governing,
                latent: first_of(self.latent, rule, kind, subject, facts, at),
            }
        }
    }

    /// What was found once each rule was looked at, with its end.
    pub(crate) fn found(self, at: Moment) -> Found<'a>
        ensures { (rows : List model.Row) (kind : model.Kind) (subject : plain.Subject) (all : f.Facts)
            → AreFirst rows kind subject all at self.entry → IsFound rows kind subject all at result }
    {
        match self.governing {
            Some(rule) => Found::Governed {
                rule,
                until: governed_until(rule),
                latent: self.latent,
            },
            None => Found::Default {
                latent: self.latent,
                until: default_until(self.latent, at),
            },
        }
    }
}

ghost use Rattle.rule_values.specs.Rule.{row_of};
ghost use Rattle.authority_table.specs.Found.{row_found};

/// The one that is tried first, of a rule that was found before and this one, if it applies. Whether it
/// does is only asked where it would be tried before the other.
fn first_of<'a>(
    found: Option<&'a Rule>,
    rule: &'a Rule,
    kind: Kind,
    subject: &Subject,
    facts: Option<&Facts>,
    at: Moment,
) -> Option<&'a Rule>
    ensures { (all : f.Facts) → known_of all (subject_of subject.now).cdhash ≡ known_in facts.entry → (rows : List model.Row)
        → model.IsFirstOf (model.Meets (nat_lt 0 rule.now.disabled) (kind_of kind) (subject_of subject.now) all at) rows (row_found found.entry)
        → model.IsFirstOf (model.Meets (nat_lt 0 rule.now.disabled) (kind_of kind) (subject_of subject.now) all at) (rows ++ row_of rule.now ∷ []) (row_found result) }
{
    search_goes_on();
    match found {
        Some(best) if !rule.is_before(best) => found,
        _ => if rule.applies(kind, subject, facts, at) {
            Some(rule)
        } else {
            found
        },
    }
}
