//! Until when what the rules decide stands.

ghost use Rattle.std.specs.Prelude.{◌≡◌, ℕ, List};
ghost use Rattle.policy_model.specs.Rules.{Row};
ghost use Rattle.policy_model.specs.Rules as model;
ghost use Rattle.policy_model.specs.Outcomes as policy;
ghost use Rattle.rule_values.specs.Rule.{row_of};
ghost use Rattle.authority_table.specs.Found.{row_found};

use policy_model::limits::DEFAULT_SECONDS;
use rule_values::{Moment, Rule};

/// Until when it stands that this rule decides, or for good.
pub fn governed_until(rule: &Rule) -> Option<Moment>
    ensures { (rows : List Row) (kind : model.Kind) (m : ℕ) → result ≡ policy.governed_until rows kind m (row_of rule.now) }
{
    rule.expires
}

/// Until when a denial by default at this moment stands, where this rule would decide, or none, were it enabled. In
/// seconds; it may be past the greatest moment, by at most 60.
pub fn default_until(latent: Option<&Rule>, at: Moment) -> u64
    ensures { (rows : List Row) (kind : model.Kind) → result ≡ policy.default_until rows kind at (row_found latent.entry) }
{
    let hold = at.get() + DEFAULT_SECONDS;
    match latent {
        None => hold,
        Some(rule) => earlier(hold, rule.expires),
    }
}

/// The lesser of a number of seconds and a moment, if there is one.
fn earlier(seconds: u64, end: Option<Moment>) -> u64
    ensures { result ≡ policy.at_most seconds end }
{
    match end {
        None => seconds,
        Some(end) => seconds.min(end.get()),
    }
}
