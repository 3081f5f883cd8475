//! How long a reply may be.

/// How many bytes a reply may have, without its LF.
pub const REPLY_LIMIT: usize = 1_000;
