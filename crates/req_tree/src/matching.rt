//! The test that a requirement makes of a value.

use line_text::Bytes;

/// What has to hold of the value of a key: that it is there, or how its text stands to another.
#[derive(Drop, PartialEq, Eq)]
pub enum Match {
    Exists,
    Absent,
    Equal(Bytes),
    Contains(Bytes),
    Begins(Bytes),
    Ends(Bytes),
    Less(Bytes),
    Greater(Bytes),
    LessEqual(Bytes),
    GreaterEqual(Bytes),
}
