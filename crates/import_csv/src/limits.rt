//! How large an import file may be.

/// How many rows may follow the header.
pub const MOST_IMPORTED: u32 = 10_000;

/// How many fields a row has.
pub const COLUMNS: usize = 8;
