//! The verdict of an outcome.

ghost use Rattle.std.specs.Prelude.{◌≡◌, Some, None, false, codes};
ghost use Rattle.policy_model.specs.Outcomes as policy;
ghost use Rattle.rule_values.specs.Label.{label_bytes};
ghost use Rattle.rule_values.specs.Outcome.{outcome_of};
ghost use Rattle.desk_state.specs.Verdict.{verdict_of};
ghost use Rattle.desk_state.specs.declared.verdict.Origin.TheVariants.{Unsigned};

use crate::verdict::{Origin, Verdict};
use rule_values::{Label, Moment, Outcome, RuleId};

/// The verdict of an outcome; a denial is overridden where assessments are switched off.
pub(crate) fn answered(enabled: bool, at: Moment, outcome: &Outcome, origin: Origin) -> Verdict
    ensures verdict { verdict_of result ≡ policy.verdict_by enabled at (outcome_of outcome.now) }
    ensures origin { result.origin ≡ origin }
{
    match outcome {
        Outcome::Governed {
            rank,
            allow,
            label,
            ..
        } => decided(
            enabled,
            at,
            *allow,
            Some(rank.id),
            None,
            label.copied(),
            origin,
        ),
        Outcome::Default { latent, label, .. } => {
            decided(enabled, at, false, None, *latent, label.copied(), origin)
        }
    }
}

/// The verdict on code without a usable signature.
pub(crate) fn unsigned(enabled: bool, at: Moment) -> Verdict
    ensures verdict { verdict_of result ≡ policy.decided enabled at false None None (codes "no usable signature") }
    ensures origin { result.origin ≡ Unsigned }
{
    decided(
        enabled,
        at,
        false,
        None,
        None,
        Label::holding(b"no usable signature"),
        Origin::Unsigned,
    )
}

fn decided(
    enabled: bool,
    at: Moment,
    allow: bool,
    rule: Option<RuleId>,
    latent: Option<RuleId>,
    label: Label,
    origin: Origin,
) -> Verdict
    ensures verdict { verdict_of result ≡ policy.decided enabled at allow rule latent (label_bytes label) }
    ensures origin { result.origin ≡ origin }
{
    Verdict {
        allow: allow || !enabled,
        at,
        rule,
        latent,
        label,
        overridden: !allow && !enabled,
        origin,
    }
}
