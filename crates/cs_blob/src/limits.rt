//! How large a super-blob may be.

/// How many parts a super-blob has at most.
pub const MOST_PARTS: usize = 64;

/// How many bytes a super-blob has at most that is written.
pub const GREATEST_SIZE: usize = 16_777_216;
