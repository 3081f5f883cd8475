//! The limit of a rehearsal.

/// How many steps a rehearsal has at most.
pub const MOST_STEPS: u32 = 10_000;
