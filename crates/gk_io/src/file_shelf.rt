//! A shelf over the files of the system. It tells nothing of them.

ghost use Rattle.std.specs.Prelude.{◌≡◌, ◌≢◌, ◌≤◌, [], None, Ok, Err, length};
ghost use Rattle.gk_io.specs.Faults.{Rose};
ghost use Rattle.gk_io.specs.Shelf.{IsFetched, KeepsFiles};

use crate::shelf::{Fetched, Shelf, ShelfFault};
use crate::std_source::StdSource;
use crate::whole_file::read_whole;
use std::alloc::Global;
use std::fs;
use std::fs::Files;
use std::io::ErrorKind;

/// Opens real files by their paths.
#[derive(Drop)]
pub struct FileShelf<R> {
    runtime: R,
    faults: u64,
}

impl<R: Files> FileShelf<R> {
    pub fn new(runtime: R) -> FileShelf<R>
        ensures faults { result.faults ≡ 0 }
    {
        FileShelf { runtime, faults: 0 }
    }

    // One failure more.
    fn fail(&mut self) -> ShelfFault
        ensures rose { Rose self.old.faults self.new.faults }
        ensures later { self.old.faults ≤ self.new.faults }
        ensures fault { result ≡ ShelfFault.Failed }
    {
        self.faults = self.faults.saturating_add(1);
        ShelfFault::Failed
    }
}

impl<R: Files> Shelf for FileShelf<R> {
    ghost files = { λ _. None };

    ghost faults = { λ s. s.faults };

    fn fetch(
        &mut self,
        _alloc: Global,
        name: &str,
        limit: usize,
        into: &mut Vec<u8>,
    ) -> Result<Fetched, ShelfFault>
        requires { into.old.items ≡ [] }
        ensures fetched { IsFetched None name.now limit into.new.items result }
        ensures within { result ≡ Ok Fetched.Found → length into.new.items ≤ limit }
        ensures kept { KeepsFiles None None }
        ensures later { self.old.faults ≤ self.new.faults }
        ensures cause { result ≡ Err ShelfFault.Failed → Rose self.old.faults self.new.faults }
        ensures steady { result ≢ Err ShelfFault.Failed → self.new.faults ≡ self.old.faults }
    {
        match read_named(&self.runtime, name, limit, into) {
            Err(ShelfFault::Failed) => Err(self.fail()),
            fetched => fetched,
        }
    }
}

// Opens the file and reads it. There is none where no file has the name, or where a part of the path that
// ought to be a folder is a file.
fn read_named<R: Files>(
    files: &R,
    name: &str,
    limit: usize,
    into: &mut Vec<u8>,
) -> Result<Fetched, ShelfFault>
    requires { into.old.items ≡ [] }
    ensures { result ≡ Ok Fetched.Found → length into.new.items ≤ limit }
{
    match fs::open(files, name) {
        Ok(file) => {
            if read_whole(&mut StdSource::new(file), limit, into)? {
                Ok(Fetched::Found)
            } else {
                Ok(Fetched::TooLong)
            }
        }
        Err(error) => match error.kind() {
            ErrorKind::NotFound | ErrorKind::NotADirectory => Ok(Fetched::Missing),
            _ => Err(ShelfFault::Failed),
        },
    }
}
