//! How long a text may be, and how many parentheses may be open in it.

/// How many bytes the text of a requirement or of a set may have.
pub const MOST_TEXT_BYTES: usize = 65536;

/// By how many the left parentheses before a place may outnumber the right ones.
pub const MOST_OPEN_PARENTHESES: usize = 256;
