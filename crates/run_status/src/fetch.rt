//! The files that a command asks for.

ghost use Rattle.std.specs.Prelude.{◌≡◌, ◌≢◌, Err, IfOk};
ghost use Rattle.gk_io.specs.Devices.{PassesShelf};
ghost use Rattle.run_status.specs.FileTexts.{file_missing_text, file_too_long_text};
ghost use Rattle.run_status.specs.Files.{IsAsked};
ghost use Rattle.line_reader.specs.Lines.{with_lf};

use crate::name_line::name_line;
use crate::said::Said;
use crate::status::Status;
use crate::stop::Stop;
use gk_io::{Fetched, Shelf};
use std::alloc::{AllocError, Global};

/// A file, or what the command says without it.
pub enum Asked {
    File(Vec<u8>),
    Said(Said),
}

/// The bytes of the file of that name, where it has at most `limit`; else what is said of it.
pub fn fetch_file<H: Shelf>(
    alloc: Global,
    shelf: &mut H,
    name: &str,
    limit: usize,
) -> Result<Asked, Stop>
    ensures asked { IfOk result (λ asked. IsAsked (H.files shelf.old) name.now limit asked) }
    ensures shelf { PassesShelf (result ≡ Err Stop.ShelfFault) (result ≡ Err Stop.ShelfFault) (H.files shelf.old) (H.files shelf.new) (H.faults shelf.old) (H.faults shelf.new) }
    ensures unasked { result ≢ Err Stop.ClockFault }
{
    let mut bytes = Vec::new(alloc);
    match shelf.fetch(alloc, name, limit, &mut bytes)? {
        Fetched::Found => Ok(Asked::File(bytes)),
        Fetched::Missing => Ok(Asked::Said(missing(alloc, name)?)),
        Fetched::TooLong => Ok(Asked::Said(too_long(alloc, name)?)),
    }
}

fn missing(alloc: Global, name: &str) -> Result<Said, AllocError>
    ensures status { IfOk result (λ said. said.status ≡ Status.FileMissing) }
    ensures text { IfOk result (λ said. said.text ≡ with_lf (file_missing_text name.now)) }
{
    Ok(Said {
        status: Status::FileMissing,
        text: name_line(alloc, b"fault FileMissing name=", name.as_bytes())?,
    })
}

fn too_long(alloc: Global, name: &str) -> Result<Said, AllocError>
    ensures status { IfOk result (λ said. said.status ≡ Status.FileTooLong) }
    ensures text { IfOk result (λ said. said.text ≡ with_lf (file_too_long_text name.now)) }
{
    Ok(Said {
        status: Status::FileTooLong,
        text: name_line(alloc, b"fault FileTooLong name=", name.as_bytes())?,
    })
}
