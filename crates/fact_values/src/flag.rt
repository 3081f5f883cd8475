//! The flags of code.

/// What is known of code as a whole.
#[derive(Clone, Copy, Debug, Drop, PartialEq, Eq)]
pub enum FactFlag {
    /// It is Apple's own.
    AppleAnchor,
    /// Its chain ends at Apple's anchor.
    AppleGeneric,
    /// A ticket of notarisation is there.
    Notarized,
    /// It was signed before notarisation was asked for.
    LegacyDevId,
}
