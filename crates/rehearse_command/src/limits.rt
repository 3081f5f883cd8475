//! The room for the replies of a rehearsal.

/// More bytes than a reply has, so that all replies find room; where they didn't, memory would count as run out.
pub const REPLY_ROOM: usize = 256;
