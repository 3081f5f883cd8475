//! How many bytes a requirement may have.

/// The most bytes that a blob of a requirement, or of a set of them, may have.
pub const MOST_BYTES: usize = 1_048_576;
