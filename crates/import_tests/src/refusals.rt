//! Files that are refused: each field wrong in turn, headers, numbers of fields. The faults are worked by hand from the
//! forms of a row.

use import_csv::{ImportFault, read_rules};
use line_text::LineText;
use std::alloc::{AllocError, Global};
use std::test::Fail;

const HEADER: &[u8] = b"key,type,verdict,priority,expires,label,flags,requirement\n";

#[derive(Clone, Copy, Drop)]
struct Row {
    row: &'static [u8],
    column: u32,
}

#[rattlefmt::skip]
const ROWS: [Row; 34] = [
    Row { row: b",execute,allow,0,never,,-,always", column: 1 },
    Row { row: b"a b,execute,allow,0,never,,-,always", column: 1 },
    Row { row: b"01234567890123456789012345678901234567890123456789012345678901234,execute,allow,0,never,,-,always", column: 1 },
    Row { row: b" k,execute,allow,0,never,,-,always", column: 1 },
    Row { row: b"k,document,allow,0,never,,-,always", column: 2 },
    Row { row: b"k,any,allow,0,never,,-,always", column: 2 },
    Row { row: b"k,,allow,0,never,,-,always", column: 2 },
    Row { row: b"k,execute,Allow,0,never,,-,always", column: 3 },
    Row { row: b"k,execute,,0,never,,-,always", column: 3 },
    Row { row: b"k,execute,allow,+1,never,,-,always", column: 4 },
    Row { row: b"k,execute,allow,1000000.000001,never,,-,always", column: 4 },
    Row { row: b"k,execute,allow,,never,,-,always", column: 4 },
    Row { row: b"k,execute,allow,0,253402300800,,-,always", column: 5 },
    Row { row: b"k,execute,allow,0,,,-,always", column: 5 },
    Row { row: b"k,execute,allow,0,Never,,-,always", column: 5 },
    Row { row: b"k,execute,allow,0,never,,,always", column: 7 },
    Row { row: b"k,execute,allow,0,never,,inhibit+default,always", column: 7 },
    Row { row: b"k,execute,allow,0,never,,-,", column: 8 },
    Row { row: b"k,execute,allow,0,never,,-,always always", column: 8 },
    Row { row: b"k,execute,allow,0,never,,-,\"always\n\"", column: 8 },
    Row { row: b"k,execute,allow,0,never,,-,\"identifier \"\"\"", column: 8 },
    Row { row: b"k,execute,allow,0,never,,-", column: 9 },
    Row { row: b"k,execute,allow,0,never,,-,always,", column: 9 },
    Row { row: b"k", column: 9 },
    Row { row: b",", column: 9 },
    Row { row: b"k/,any,Allow,+1,Never,,?,", column: 1 },
    Row { row: b"k,any,Allow,+1,Never,,?,", column: 2 },
    Row { row: b"k,open,Allow,+1,Never,,?,", column: 3 },
    Row { row: b"k,open,deny,+1,Never,,?,", column: 4 },
    Row { row: b"k,open,deny,1,Never,,?,", column: 5 },
    Row { row: b"k,open,deny,1,never,,?,", column: 7 },
    Row { row: b"k,open,deny,1,never,,-,", column: 8 },
    Row { row: b"k/,any,Allow,+1,Never,,?", column: 9 },
    Row { row: b"k/,any,Allow,+1,Never,,?,,", column: 9 },
];

fn is_refused(alloc: Global, bytes: &[u8], wanted: ImportFault) -> Result<bool, AllocError> {
    match read_rules(alloc, bytes) {
        Ok(_) => Ok(false),
        Err(ImportFault::OutOfMemory) => Err(AllocError),
        Err(fault) => Ok(fault == wanted),
    }
}

fn is_refused_at(alloc: Global, row: &Row) -> Result<bool, AllocError> {
    let mut bytes = Vec::from_slice(alloc, HEADER)?;
    bytes.extend_from_slice(b"k,execute,allow,0,never,,-,always\n")?;
    bytes.extend_from_slice(row.row)?;
    let fault = ImportFault::BadRow {
        row: 3,
        column: row.column,
    };
    is_refused(alloc, &bytes, fault)
}

#[derive(Clone, Copy, Drop)]
struct File {
    bytes: &'static [u8],
    fault: ImportFault,
}

#[rattlefmt::skip]
const FILES: [File; 10] = [
    File { bytes: b"", fault: ImportFault::BadHeader },
    File { bytes: b"\n\n", fault: ImportFault::BadHeader },
    File { bytes: b"k,execute,allow,0,never,,-,always\n", fault: ImportFault::BadHeader },
    File { bytes: b"key,type,verdict,priority,expires,flags,requirement\n", fault: ImportFault::BadHeader },
    File { bytes: b"key,type,verdict,priority,expires,label,flags,requirement,\n", fault: ImportFault::BadHeader },
    File { bytes: b"key,type,verdict,priority,expires,label,flags, requirement\n", fault: ImportFault::BadHeader },
    File { bytes: b"Key,type,verdict,priority,expires,label,flags,requirement\n", fault: ImportFault::BadHeader },
    File { bytes: b"key;type;verdict;priority;expires;label;flags;requirement\n", fault: ImportFault::BadHeader },
    File { bytes: b"key,type,verdict,priority,expires,flags,requirement\nk/", fault: ImportFault::BadHeader },
    File { bytes: b"key,type,verdict,priority,expires,label,flags,requirement\n\nk/\n", fault: ImportFault::BadRow { row: 2, column: 9 } },
];

#[test]
fn each_field_is_refused_in_its_column(rt: HostRuntime) -> Result<(), Fail> {
    for row in ROWS {
        assert!(rt; is_refused_at(rt.alloc(), &row)?);
    }
    Ok(())
}

#[test]
fn a_file_begins_with_the_header(rt: HostRuntime) -> Result<(), Fail> {
    for file in FILES {
        assert!(rt; is_refused(rt.alloc(), file.bytes, file.fault)?);
    }
    Ok(())
}

/// A row with its label and requirement of so many bytes, the requirement in a comment.
fn sized(alloc: Global, label: usize, requirement: usize) -> Result<Vec<u8>, AllocError> {
    let mut bytes = Vec::from_slice(alloc, HEADER)?;
    bytes.extend_from_slice(b"k,execute,allow,0,never,")?;
    for _ in 0..label {
        bytes.push(b'l')?;
    }
    bytes.extend_from_slice(b",-,always/*")?;
    for _ in 0..requirement {
        bytes.push(b'r')?;
    }
    bytes.extend_from_slice(b"*/")?;
    Ok(bytes)
}

fn is_sized_right(alloc: Global) -> Result<bool, AllocError> {
    let long_label = ImportFault::BadRow { row: 2, column: 6 };
    let long_text = ImportFault::BadRow { row: 2, column: 8 };
    let fits = read_rules(alloc, &sized(alloc, 128, 4_086)?).is_ok();
    let label = is_refused(alloc, &sized(alloc, 129, 4_087)?, long_label)?;
    let text = is_refused(alloc, &sized(alloc, 128, 4_087)?, long_text)?;
    Ok(fits & label & text)
}

#[test]
fn labels_have_128_bytes_and_requirements_4096(rt: HostRuntime) -> Result<(), Fail> {
    assert!(rt; is_sized_right(rt.alloc())?);
    Ok(())
}

/// A header and so many rows, and then the bytes.
fn rows(alloc: Global, count: u32, behind: &[u8]) -> Result<Vec<u8>, AllocError> {
    let mut bytes = Vec::from_slice(alloc, HEADER)?;
    for number in 0..count {
        let mut key = LineText::new();
        key.push_number(u64::from(number));
        bytes.extend_from_slice(key.as_slice())?;
        bytes.extend_from_slice(b",execute,allow,0,never,,-,always\n")?;
    }
    bytes.extend_from_slice(behind)?;
    Ok(bytes)
}

fn count_of(alloc: Global, bytes: &[u8]) -> Result<usize, AllocError> {
    match read_rules(alloc, bytes) {
        Ok(edits) => Ok(edits.as_slice().len()),
        Err(_) => Err(AllocError),
    }
}

fn are_counted(alloc: Global) -> Result<bool, AllocError> {
    let last = ImportFault::BadRow {
        row: 10_001,
        column: 9,
    };
    let most = count_of(alloc, &rows(alloc, 10_000, b"\n\n")?)? == 10_000;
    let bad = is_refused(alloc, &rows(alloc, 9_999, b"k/")?, last)?;
    let more = is_refused(alloc, &rows(alloc, 10_001, b"")?, ImportFault::TooMany)?;
    let more_and_bad = is_refused(alloc, &rows(alloc, 10_000, b"k/")?, ImportFault::TooMany)?;
    Ok(most & bad & more & more_and_bad)
}

#[test]
fn a_file_has_ten_thousand_rows(rt: HostRuntime) -> Result<(), Fail> {
    assert!(rt; are_counted(rt.alloc())?);
    Ok(())
}

#[derive(Clone, Copy, Drop)]
struct Refusal {
    fault: ImportFault,
    line: &'static [u8],
}

#[rattlefmt::skip]
const REFUSALS: [Refusal; 4] = [
    Refusal { fault: ImportFault::BadHeader, line: b"refused import 1 BadHeader" },
    Refusal { fault: ImportFault::BadRow { row: 2, column: 9 }, line: b"refused import 2 BadRow row=2 column=9" },
    Refusal { fault: ImportFault::TooMany, line: b"refused import 3 TooMany" },
    Refusal { fault: ImportFault::OutOfMemory, line: b"" },
];

fn reads(refusal: &Refusal) -> bool {
    let mut line = LineText::new();
    refusal.fault.line_into(&mut line);
    line.as_slice() == refusal.line
}

#[test]
fn a_refusal_reads_as_its_line(rt: HostRuntime) {
    for refusal in REFUSALS {
        assert!(rt; reads(&refusal));
    }
}
