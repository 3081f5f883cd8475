//! Why a file of imports is refused.

use crate::noted::Seen;
use crate::shown::quoted;
use crate::text_faults::push_fault;
use csv::{ByteRecord, ReaderBuilder};
use import_csv::{ImportFault, read_rules};
use req_parser::parse;
use std::alloc::{AllocError, Global};

/// The column of a row's requirement.
const REQUIREMENT: u32 = 8;

/// Appends what is wrong with the file; nothing where all of its rows are edits, of which the desk refused some.
pub(crate) fn push_import(alloc: Global, out: &mut String, seen: &Seen) -> Result<(), AllocError> {
    let name = quoted(alloc, seen.name.as_str())?;
    match read_rules(alloc, seen.bytes.as_slice()) {
        Ok(edits) => {
            drop(edits);
            Ok(())
        }
        Err(ImportFault::BadRow { row, column }) => {
            let called = format!(in alloc; "{}, row {row}", name.as_str())?;
            push_row(
                alloc,
                out,
                called.as_str(),
                seen.bytes.as_slice(),
                row,
                column,
            )
        }
        Err(ImportFault::BadHeader) => {
            let head = format!(in alloc;
                "gatekeeper: {}: its first row isn't key,type,verdict,priority,expires,label,flags,requirement\n",
                name.as_str()
            )?;
            out.push_str(head.as_str())
        }
        Err(ImportFault::TooMany) => {
            let head = format!(in alloc;
                "gatekeeper: {}: more than 10,000 rows stand behind its header\n",
                name.as_str()
            )?;
            out.push_str(head.as_str())
        }
        Err(ImportFault::OutOfMemory) => Ok(()),
    }
}

fn push_row(
    alloc: Global,
    out: &mut String,
    called: &str,
    bytes: &[u8],
    row: u32,
    column: u32,
) -> Result<(), AllocError> {
    let head = format!(in alloc; "gatekeeper: {called}: {}\n", words_of(column))?;
    if column != REQUIREMENT {
        return out.push_str(head.as_str());
    }
    let Some(record) = record_at(alloc, bytes, row) else {
        return out.push_str(head.as_str());
    };
    let text = record.get(7).unwrap_or(b"");
    match parse(alloc, text) {
        Ok(req) => {
            drop(req);
            out.push_str(head.as_str())
        }
        Err(fault) => {
            let called = format!(in alloc; "{called}, its requirement")?;
            push_fault(alloc, out, called.as_str(), text, &fault)
        }
    }
}

/// The record of this number, from 1.
fn record_at(alloc: Global, bytes: &[u8], number: u32) -> Option<ByteRecord> {
    let mut reader = ReaderBuilder::new()
        .has_headers(false)
        .flexible(true)
        .from_reader(alloc, bytes);
    let mut record = ByteRecord::new(alloc);
    for _ in 0..number {
        match reader.read_byte_record(&mut record) {
            Ok(true) => {}
            Ok(false) => return None,
            Err(error) => {
                drop(error);
                return None;
            }
        }
    }
    Some(record)
}

fn words_of(column: u32) -> &'static str {
    match column {
        1 => "its key isn't 1 to 64 letters, digits, dots, underscores and dashes",
        2 => "its type isn't execute, install or open",
        3 => "its verdict isn't allow or deny",
        4 => "its priority isn't from -1000000 to 1000000, with at most six digits behind its dot",
        5 => "its expiry isn't never, or seconds since 1970 up to 253402300799",
        6 => "its label has more than 128 bytes",
        7 => "its flags aren't -, default, inhibit or default+inhibit",
        8 => "its requirement has more than 4,096 bytes, or more than one line",
        _ => "it hasn't eight fields",
    }
}
