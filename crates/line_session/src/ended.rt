//! How a session ends.

/// Why a session read no further line.
#[derive(Clone, Copy, PartialEq, Eq)]
pub enum Ended {
    /// The source was read to its end, and every line was answered.
    Fine,
    /// The source failed.
    ReadFault,
    /// The sink failed at the last reply.
    WriteFault,
    /// The source gave a byte past the limits of a session.
    TooLong,
    /// Out of memory, at the start or for the next line.
    OutOfMemory,
}
