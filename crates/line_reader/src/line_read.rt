//! What reading a line comes to.

/// How the bytes went on, where the source didn't fail.
#[derive(Clone, Copy, PartialEq, Eq)]
pub enum LineRead {
    /// A line with its LF.
    Line,
    /// A last line, which isn't empty and lacks its LF. A source that would go on after its end isn't asked again.
    Last,
    /// No byte more.
    End,
    /// One byte more than a session's limits allow. The line that it stands in isn't whole.
    TooLong,
}
