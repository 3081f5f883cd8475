//! How large a requirement and an identifier may be.

/// How deep a requirement may nest; one without subtrees has depth 1.
pub const MOST_DEPTH: u32 = 256;

/// How many bytes an identifier may have; it has one at least.
pub const MOST_IDENTIFIER_BYTES: usize = 256;
