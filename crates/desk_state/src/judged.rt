//! An assessment that is judged as it begins, by the rules where they lie.

use crate::verdict::Verdict;
use req_tree::Subject;
use rule_values::{Kind, Moment, Outcome};

/// An assessment that is answered at once, or one that is judged and may be finished later.
#[derive(Drop)]
pub enum Looked {
    /// The code has no usable signature, or an outcome is kept for it.
    Known(Verdict),
    /// The rules were asked.
    Open(Judged),
}

/// What the rules said of some code as its assessment began, with all that is needed to finish it.
#[derive(Drop)]
pub struct Judged {
    pub(crate) kind: Kind,
    pub(crate) subject: Subject,
    /// Whether the outcome may be kept.
    pub(crate) keep: bool,
    pub(crate) at: Moment,
    /// Whether assessments were switched on.
    pub(crate) enabled: bool,
    /// How many edits had touched the kind.
    pub(crate) mark: u64,
    pub(crate) outcome: Outcome,
}
