//! The outcome of the rules that were found, with the end that was found for it.

ghost use Rattle.std.specs.Prelude.{◌≡◌, Some, None, Option, List, ℕ};
ghost use Rattle.policy_model.specs.Rules.{Row};
ghost use Rattle.policy_model.specs.Rules as model;
ghost use Rattle.policy_model.specs.Outcomes as policy;
ghost use Rattle.rule_values.specs.Rule.{row_of};
ghost use Rattle.authority_table.specs.Found.{row_found, governing_row, latent_row, StandsUntil};
ghost use Rattle.rule_values.specs.Outcome.{outcome_of};

use authority_table::Found;
use rule_values::{Label, Moment, Outcome, Rule};

/// The outcome of what was found.
pub fn decided_by(found: &Found<'_>) -> Outcome
    ensures { (rows : List Row) (kind : model.Kind) (m : ℕ) → StandsUntil rows kind m found.now
        → outcome_of result ≡ policy.outcome_by rows kind m (governing_row found.now) (latent_row found.now) }
{
    match found {
        Found::Governed { rule, until, .. } => governed(rule, *until),
        Found::Default { latent, until } => default_denial(*latent, *until),
    }
}

/// The outcome that this rule decides, with this end.
pub(crate) fn governed(rule: &Rule, until: Option<Moment>) -> Outcome
    ensures { (rows : List Row) (kind : model.Kind) (m : ℕ) (latent : Option Row) → until ≡ policy.governed_until rows kind m (row_of rule.now)
        → outcome_of result ≡ policy.outcome_by rows kind m (Some (row_of rule.now)) latent }
{
    Outcome::Governed {
        rank: rule.rank(),
        allow: rule.allow,
        label: rule.label.copied(),
        until,
        inhibit: rule.inhibit,
    }
}

/// The outcome where no rule decides, and this one would, or none, were it enabled, with this end.
pub(crate) fn default_denial(latent: Option<&Rule>, until: u64) -> Outcome
    ensures { (rows : List Row) (kind : model.Kind) (m : ℕ) → until ≡ policy.default_until rows kind m (row_found latent.entry)
        → outcome_of result ≡ policy.outcome_by rows kind m None (row_found latent.entry) }
{
    match latent {
        None => Outcome::Default {
            latent: None,
            label: Label::holding(b"no matching rule"),
            until,
        },
        Some(rule) => Outcome::Default {
            latent: Some(rule.id),
            label: rule.label.copied(),
            until,
        },
    }
}
