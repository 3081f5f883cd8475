//! What becomes of an offered outcome.

/// Kept, or why it is not: the first of these, in this order.
#[derive(Clone, Copy, Debug, Drop, PartialEq)]
pub enum Offered {
    /// It is kept.
    Kept,
    /// The asker forbids keeping, or the rule that decided does.
    Inhibited,
    /// Edits since the assessment began may have changed it.
    Moved,
    /// Its end is reached.
    Expired,
    /// There is an entry for that kind and subject.
    Twice,
    /// There is room for no more entries.
    Full,
}
