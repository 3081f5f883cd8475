//! How long a session may be.

/// How many lines a session may have. A last line without LF counts.
pub const SESSION_LINES: usize = 1_000_000;

/// How many bytes a session may have.
pub const SESSION_BYTES: usize = 268_435_456;
