//! How much is known of one hash.

/// How many certificates a chain may have.
pub const MOST_CERTIFICATES: u32 = 100_000;
