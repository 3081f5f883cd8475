//! A whole import file.

ghost use Rattle.std.specs.Prelude.{◌≢◌, IfOk, IfErr};
ghost use Rattle.import_csv.specs.declared.fault.ImportFault.{ImportFault};
ghost use Rattle.import_csv.specs.ImportFile.{IsImport, IsFirstFault};
ghost use Rattle.csv.specs.Records.{fields_of};
ghost use Rattle.import_csv.specs.RowCode.{edits_of, TakesRow};

use crate::fault::ImportFault;
use crate::limits::MOST_IMPORTED;
use crate::list::Edits;
use crate::row::{is_header, read_row};
use csv_records::laws::a_text_has_one_list_of_records;
use csv_records::{ByteRecord, next_record, records_of};
use std::alloc::Global;

/// The edits that the rows of a file ask for, one a row, or what is wrong first.
pub fn read_rules(alloc: Global, bytes: &[u8]) -> Result<Edits, ImportFault>
    ensures found { IfOk result (λ edits. IsImport bytes.now (edits_of edits)) }
    ensures first { IfErr result (λ fault. fault ≢ ImportFault.OutOfMemory → IsFirstFault bytes.now fault) }
{
    a_text_has_one_list_of_records();
    let mut reader = records_of(alloc, bytes);
    let mut fields = ByteRecord::new(alloc);
    if !next_record(&mut reader, &mut fields)? {
        return Err(ImportFault::BadHeader);
    }
    if !is_header(&fields) {
        return Err(ImportFault::BadHeader);
    }
    let mut edits = Edits::new(alloc);
    for row in 2..MOST_IMPORTED + 2 {
        if !next_record(&mut reader, &mut fields)? {
            return Ok(edits);
        }
        match take_row(alloc, row, &fields, &mut edits) {
            Ok(()) => {}
            Err(fault) => return Err(fault),
        }
    }
    if next_record(&mut reader, &mut fields)? {
        Err(ImportFault::TooMany)
    } else {
        Ok(edits)
    }
}

/// Reads a row, and adds its edit behind the others.
fn take_row(
    alloc: Global,
    row: u32,
    fields: &ByteRecord,
    edits: &mut Edits,
) -> Result<(), ImportFault>
    ensures { TakesRow row (fields_of fields.now) (edits_of edits.old) (edits_of edits.new) result }
{
    let edit = read_row(alloc, row, fields)?;
    edits.push(edit)?;
    Ok(())
}
