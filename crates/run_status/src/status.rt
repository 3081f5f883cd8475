//! How a run ends.

/// The end of a run. Each but `Fine`, `Denied`, `WriteFault` and `OutOfMemory` ends the output with a line of its
/// own.
#[derive(Clone, Copy, Drop, PartialEq, Eq)]
pub enum Status {
    /// All was done: every line of a session was answered, or a command wrote what it was asked for.
    Fine,
    /// The code that was assessed is rejected.
    Denied,
    /// The words of the command line are no command.
    Usage,
    /// The source failed.
    ReadFault,
    /// The sink failed.
    WriteFault,
    /// The shelf failed.
    ShelfFault,
    /// The clock failed.
    ClockFault,
    /// The keeper failed as its tables were loaded.
    KeeperFault,
    /// There is no file of a name that a command asked for.
    FileMissing,
    /// A file has more bytes than its command takes.
    FileTooLong,
    /// A row of the facts file is wrong.
    BadFacts,
    /// A row of the store is wrong.
    BadStore,
    /// A command wrote a line that begins with `refused`.
    Refused,
    /// The source gave one byte past the limits of a session.
    SessionTooLong,
    /// Memory ran out.
    OutOfMemory,
}

impl Status {
    ghost use Rattle.std.specs.Prelude.{◌≡◌};
    ghost use Rattle.run_status.specs.Status.{status_code};

    /// The exit status of the program.
    pub fn code(&self) -> u8
        ensures { result ≡ status_code self.now }
    {
        match self {
            Status::Fine => 0,
            Status::Denied => 3,
            Status::Usage => 2,
            Status::OutOfMemory => 4,
            _ => 1,
        }
    }
}
