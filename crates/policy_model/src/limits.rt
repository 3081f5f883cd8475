//! The limits of rules and edits; each stands here alone, for definitions and for code.

/// A table holds at most so many rules.
pub const MOST_RULES: usize = 10_000;

/// At most so many edits are ever accepted; so it is the greatest number of an edit and of a rule.
pub const MOST_RECEIPTS: u32 = 100_000;

/// A rule is disabled at most so many times before it is enabled again.
pub const MOST_DISABLES: u32 = 1_000;

/// The last second of the year 9999.
pub const GREATEST_MOMENT: u64 = 253_402_300_799;

/// For so many seconds a default outcome stands at most.
pub const DEFAULT_SECONDS: u64 = 60;

/// So many millionths are one unit of priority.
pub const UNIT: u64 = 1_000_000;

/// The greatest priority, in millionths.
pub const GREATEST_PRIORITY: i64 = 1_000_000_000_000;

/// The least priority, in millionths.
pub const LEAST_PRIORITY: i64 = -1_000_000_000_000;

/// A label has at most so many bytes.
pub const MOST_LABEL_BYTES: usize = 128;

/// The key of an edit has at most so many bytes.
pub const MOST_KEY_BYTES: usize = 64;

/// The text of a rule's requirement has at most so many bytes.
pub const MOST_TEXT_BYTES: usize = 4_096;
