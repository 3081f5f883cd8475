//! The outcome of an assessment, by the rules of its kind in the order in which they are tried.

ghost use Rattle.std.specs.Prelude.{◌≡◌, Some, None, Option, List, ℕ};
ghost use Rattle.std.specs.List.{find};
ghost use Rattle.req_tree.specs.Facts as f;
ghost use Rattle.req_tree.specs.Facts.{known_of};
ghost use Rattle.req_tree.specs.Subject.{subject_of};
ghost use Rattle.policy_model.specs.Rules as model;
ghost use Rattle.policy_model.specs.Rules.{Row, is_below};
ghost use Rattle.policy_model.specs.Outcomes as policy;
ghost use Rattle.fact_values.specs.Knowledge.{known_in};
ghost use Rattle.rule_values.specs.Kind.{kind_of};
ghost use Rattle.rule_values.specs.Rule.{row_of, rows_of};
ghost use Rattle.authority_table.specs.Found.{row_found};
ghost use Rattle.rule_values.specs.Outcome.{outcome_of};
ghost use Rattle.authority_table.specs.Snapshot.{IsByRank};
ghost use Rattle.assess.specs.Tests.{holds, AllOfKind};

use crate::deciding::{default_denial, governed};
use authority_table::{default_until, governed_until};
use fact_values::Facts;
use req_eval::eval;
use req_tree::Subject;
use rule_values::{Kind, Moment, Outcome, Rule};

/// What the rules of a kind say of a subject at a moment, of whose hash these facts are known, or none.
pub fn judge(
    rules: &[Rule],
    kind: Kind,
    subject: &Subject,
    at: Moment,
    facts: Option<&Facts>,
) -> Outcome
    requires kind { AllOfKind (kind_of kind) (rows_of rules.now) }
    requires ranked { IsByRank (rows_of rules.now) }
    ensures { (all : f.Facts) → known_of all (subject_of subject.now).cdhash ≡ known_in facts.entry
        → outcome_of result ≡ policy.outcome (rows_of rules.now) (kind_of kind) (subject_of subject.now) all at }
{
    match first_rule(rules, false, subject, at, facts) {
        Some(rule) => governed(rule, governed_until(rule)),
        None => {
            let latent = first_rule(rules, true, subject, at, facts);
            default_denial(latent, default_until(latent, at))
        }
    }
}

/// The first of the rules that is live and true of the subject, and is disabled or enabled as asked.
fn first_rule<'a>(
    rules: &'a [Rule],
    disabled: bool,
    subject: &Subject,
    at: Moment,
    facts: Option<&Facts>,
) -> Option<&'a Rule>
    ensures { row_found result ≡ find (holds disabled at (subject_of subject.now) (known_in facts.entry)) (rows_of rules.now) }
{
    for rule in rules {
        if rule_holds(rule, disabled, subject, at, facts) {
            return Some(rule);
        }
    }
    None
}

fn rule_holds(
    rule: &Rule,
    disabled: bool,
    subject: &Subject,
    at: Moment,
    facts: Option<&Facts>,
) -> bool
    ensures { result ≡ holds disabled at (subject_of subject.now) (known_in facts.entry) (row_of rule.now) }
{
    is_live(rule, at) && is_counted(rule, disabled) && eval(rule.tree.req(), subject, facts)
}

/// Whether it is disabled or enabled, as asked.
fn is_counted(rule: &Rule, disabled: bool) -> bool
    ensures { result ≡ model.is_counted disabled rule.now.disabled }
{
    let counted = 0 < rule.disabled;
    if disabled { counted } else { !counted }
}

fn is_live(rule: &Rule, at: Moment) -> bool
    ensures { result ≡ is_below at rule.now.expires }
{
    match rule.expires {
        None => true,
        Some(end) => at < end,
    }
}
