//! What an edit does to the rules that it selects.

use crate::moment::Moment;

/// A change of each selected rule.
#[derive(Clone, Copy, Drop)]
pub enum RowChange {
    /// The rule is taken out of the table.
    Remove,
    /// It is enabled, however often it was disabled.
    Enable,
    /// It is disabled once more.
    Disable,
    /// It is in force until this moment, or for ever.
    Expire(Option<Moment>),
}
