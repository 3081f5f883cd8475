//! How long lines may be.

/// How many bytes a line of text under construction holds at most.
pub const LINE_ROOM: usize = 1_024;

/// How many bytes may stand in a line before an answer or a refusal is appended to it.
pub const FRONT_LIMIT: usize = 400;

/// How many bytes a line that is read may have, without its LF. A longer one is no request.
pub const LINE_LIMIT: usize = 8_192;

/// How many bytes of a line that is read are kept: one more than it may have, so that a longer one shows.
pub const LINE_HELD: usize = LINE_LIMIT + 1;
