//! How long an import file and a reply may be.

/// How many bytes an import file may have.
pub const MOST_IMPORT_BYTES: usize = 67_108_864;

/// How many bytes are set aside for the reply to an edit and its LF, before the edit acts.
pub const REPLY_ROOM: usize = 128;
