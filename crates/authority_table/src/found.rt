//! What a search of the rules found.

use rule_values::{Moment, Rule};

/// What decides an assessment, and until when that stands.
#[derive(Clone, Copy, Drop)]
pub enum Found<'a> {
    /// A rule does.
    Governed {
        /// The first of the enabled rules that apply.
        rule: &'a Rule,
        /// Without an end it stands for good.
        until: Option<Moment>,
        /// The first of the disabled rules that apply.
        latent: Option<&'a Rule>,
    },
    /// No enabled rule applies, so that the code is denied.
    Default {
        /// The first of the disabled rules that apply.
        latent: Option<&'a Rule>,
        /// In seconds; it may be past the greatest moment, by at most 60.
        until: u64,
    },
}
