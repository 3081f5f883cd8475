//! The limits of what is kept; each stands here alone, for definitions and for code.

/// A desk keeps at most so many entries that haven't ended.
pub const MOST_ENTRIES: usize = 16_384;

/// An outcome that a rule decided is kept although up to so many later edits touched its kind, each behind that rule.
pub const LATE_EDITS: u64 = 64;
