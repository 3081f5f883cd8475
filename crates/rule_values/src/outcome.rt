//! What the rules say of an assessment.

use crate::label::Label;
use crate::moment::Moment;
use crate::rank::Rank;
use crate::rule_id::RuleId;

/// What is decided, and until when that stands.
#[derive(Drop)]
pub enum Outcome {
    /// A rule decides.
    Governed {
        rank: Rank,
        allow: bool,
        label: Label,
        /// The end of the rule.
        until: Option<Moment>,
        /// The outcome isn't kept.
        inhibit: bool,
    },
    /// No rule does, so that the code is denied.
    Default {
        /// The rule that would decide were it enabled.
        latent: Option<RuleId>,
        label: Label,
        /// In seconds; it may be past the greatest moment, by at most 60.
        until: u64,
    },
}
