//! The flags of a rule.

/// What a rule's flags say.
#[derive(Clone, Copy, Drop)]
pub struct Flags {
    /// It is a default rule.
    pub is_default: bool,
    /// What it governs isn't kept.
    pub inhibit: bool,
}
