//! Files by name.

ghost use Rattle.std.specs.Prelude.{◌≡◌, ◌≢◌, ◌≤◌, ℕ, List, [], Option, Ok, Err, length};
ghost use Rattle.gk_io.specs.Faults.{Rose};
ghost use Rattle.gk_io.specs.Shelf.{File, IsFetched, KeepsFiles};

use crate::fault::Failed;
use std::alloc::{AllocError, Global};

/// What became of a file that was asked for.
#[derive(Clone, Copy, PartialEq, Eq)]
pub enum Fetched {
    /// Its bytes were handed over.
    Found,
    /// There is no file of that name.
    Missing,
    /// It has more bytes than the limit allows.
    TooLong,
}

/// Why a file couldn't be fetched.
#[derive(Clone, Copy, Drop, PartialEq, Eq)]
pub enum ShelfFault {
    /// The shelf failed: the file is there and can't be read, or the system doesn't say.
    Failed,
    OutOfMemory,
}

impl From<Failed> for ShelfFault {
    ghost use Rattle.std.specs.Prelude.{◌≡◌};
    ghost use Rattle.gk_io.specs.declared.shelf.ShelfFault.TheVariants.{Failed};

    ghost from_gives = { λ _ fault. fault ≡ Failed };

    fn from(_: Failed) -> ShelfFault {
        ShelfFault::Failed
    }
}

impl From<AllocError> for ShelfFault {
    ghost use Rattle.std.specs.Prelude.{◌≡◌};
    ghost use Rattle.gk_io.specs.declared.shelf.ShelfFault.TheVariants.{OutOfMemory};

    ghost from_gives = { λ _ fault. fault ≡ OutOfMemory };

    fn from(_: AllocError) -> ShelfFault {
        ShelfFault::OutOfMemory
    }
}

/// What holds files by their names.
pub trait Shelf {
    // The files, where the shelf tells them.
    ghost files: { Self → Option (List File) };

    // How many of its calls failed, up to the greatest u64.
    ghost faults: { Self → ℕ };

    /// Appends the bytes of the file of that name, where it has at most `limit`. But for `Found`, what `into`
    /// then holds isn't told.
    fn fetch(
        &mut self,
        alloc: Global,
        name: &str,
        limit: usize,
        into: &mut Vec<u8>,
    ) -> Result<Fetched, ShelfFault>
        requires { into.old.items ≡ [] }
        ensures fetched { IsFetched (files self.old) name.now limit into.new.items result }
        ensures within { result ≡ Ok Fetched.Found → length into.new.items ≤ limit }
        ensures kept { KeepsFiles (files self.old) (files self.new) }

        // A failure shows in the count, which never falls, and nothing else moves it.
        ensures later { faults self.old ≤ faults self.new }
        ensures cause { result ≡ Err ShelfFault.Failed → Rose (faults self.old) (faults self.new) }
        ensures steady { result ≢ Err ShelfFault.Failed → faults self.new ≡ faults self.old };
}
