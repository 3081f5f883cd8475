//! How long the files of an assessment may be.

/// How many bytes a signature file may have.
pub const MOST_SIGNATURE_BYTES: usize = 16_777_216;

/// How many bytes a code file may have.
pub const MOST_CODE_BYTES: usize = 268_435_456;
