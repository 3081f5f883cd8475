//! The number that says how a store is laid out; it stands here alone, for definitions and for code.

/// The format of the stores that are written and accepted.
pub const STORE_FORMAT: i64 = 1;
