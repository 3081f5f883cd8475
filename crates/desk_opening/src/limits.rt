//! How long a facts file may be.

/// How many bytes a facts file may have.
pub const MOST_FACTS_BYTES: usize = 67_108_864;
