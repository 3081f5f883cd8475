//! How long a facts file may be.

/// How many rows may follow the header.
pub const MOST_ROWS: u32 = 100_000;
