//! A reader of all records of a text, whatever their numbers of fields.

ghost use Rattle.std.specs.Prelude.{◌≡◌, [], ℕ, List, IfOk};
ghost use Rattle.csv.specs.Records.{fields_of};
ghost use Rattle.csv_records.specs.Reading.{HasTaken, IsBegun, IsOfMemory, Takes};

use csv::{ByteRecord, ErrorKind, Reader, ReaderBuilder};
use std::alloc::{AllocError, Global};

/// A reader that stands before the first record of a text, a header or not.
pub fn records_of(alloc: Global, text: &[u8]) -> Reader<&[u8]>
    ensures { HasTaken result text.now [] }
{
    ReaderBuilder::new()
        .has_headers(false)
        .flexible(true)
        .from_reader(alloc, text)
}

/// Reads the next record into `fields`, and answers whether there was one. A read of bytes in memory fails
/// for memory alone, and after that gives no more records.
pub fn next_record<'a>(
    reader: &mut Reader<&'a [u8]>,
    fields: &mut ByteRecord,
) -> Result<bool, AllocError>
    requires { IsBegun reader.old }
    ensures { (text : List ℕ) (front : List (List (List ℕ))) → HasTaken reader.old text front → IfOk result (λ found. Takes reader.new text front (fields_of fields.new) found) }
{
    match reader.read_byte_record(fields) {
        Ok(found) => Ok(found),
        Err(error) => {
            let fault = memory_alone(error.kind());
            drop(error);
            Err(fault)
        }
    }
}

/// No record has another number of fields than it should, and none has to be text.
fn memory_alone(kind: &ErrorKind) -> AllocError
    requires { IsOfMemory kind.now }
{
    match kind {
        ErrorKind::Io(_) | ErrorKind::OutOfMemory => AllocError,
        _ => unreachable!(),
    }
}
