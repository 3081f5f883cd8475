//! What a desk says of itself.

use rule_values::Moment;

/// The state of a desk in numbers.
#[derive(Clone, Copy, Drop)]
pub struct DeskStatus {
    /// Whether assessments are switched on.
    pub enabled: bool,
    /// How many rules there are.
    pub rules: u32,
    /// How many edits were accepted.
    pub receipts: u32,
    /// How many outcomes are kept that haven't ended.
    pub objects: u32,
    /// The desk's moment.
    pub now: Moment,
}
