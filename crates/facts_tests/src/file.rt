//! Facts files, and what they are refused for.

ghost use Rattle.std.specs.Prelude.{◌<◌};

use code_facts::{FactFlag, FactTable, Facts, Value};
use line_text::LineText;
use req_tree::{Hash20, oid_from_text};
use std::alloc::{AllocError, Global};

const HEADER: &[u8] = b"cdhash,scope,slot,key,kind,value\n";

const ONES: &[u8] = b"1111111111111111111111111111111111111111";

// Rows behind the header with `|` between them, each about the hash of forty digits 1, and what the file is refused
// for. `@` stands for forty digits a.
#[rattlefmt::skip]
const FILES: &[u8] = b"> ok
flag,,anchor-apple,,|flag,,anchor-apple-generic,,|flag,,notarized,,|flag,,legacy,,> ok
flag,,other,,> 1 BadRow row=2
flag,0,legacy,,> 1 BadRow row=2
flag,,legacy,text,> 1 BadRow row=2
flag,,legacy,,x> 1 BadRow row=2
flag,,legacy,,|flag,,legacy,,> 2 Twice row=3
flag,,legacy,,|flag,,notarized,,|flag,,legacy,,> 2 Twice row=4
Flag,,legacy,,> 1 BadRow row=2
 flag,,legacy,,> 1 BadRow row=2
flag,,legacy,> 1 BadRow row=2
flag,,legacy,,,> 1 BadRow row=2
anchor-name,,,,|anchor-name,,a,,|code-name,,a,,> ok
anchor-name,,a,,|anchor-name,,a,,> 2 Twice row=3
code-name,,,,|code-name,,,,> 2 Twice row=3
anchor-name,0,a,,> 1 BadRow row=2
code-name,,a,true,> 1 BadRow row=2
cert,0,,hash,@|cert,1,,hash,@> ok
cert,1,,hash,@> 1 BadRow row=2
cert,0,,hash,@|cert,0,,hash,@> 1 BadRow row=3
cert,0,,hash,@|cert,2,,hash,@> 1 BadRow row=3
cert,00,,hash,@> 1 BadRow row=2
cert,,,hash,@> 1 BadRow row=2
cert,0,k,hash,@> 1 BadRow row=2
cert,0,,text,@> 1 BadRow row=2
cert,0,,hash,12> 1 BadRow row=2
cert,0,,hash,@|cert-trusted,0,,,> ok
cert-trusted,0,,,> 1 BadRow row=2
cert,0,,hash,@|cert-trusted,1,,,> 1 BadRow row=3
cert,0,,hash,@|cert-trusted,0,k,,> 1 BadRow row=3
cert,0,,hash,@|cert-trusted,0,,,|cert-trusted,0,,,> 2 Twice row=4
cert,0,,hash,@|cert-field,0,k,text,v|cert-field,0,l,true,> ok
cert-field,0,k,text,v> 1 BadRow row=2
cert,0,,hash,@|cert-field,000000,k,text,v> 1 BadRow row=3
cert,0,,hash,@|cert-field,100000,k,text,v> 1 BadRow row=3
cert,0,,hash,@|cert-field,0,k,text,v|cert-field,0,k,false,> 2 Twice row=4
cert,0,,hash,@|cert,1,,hash,@|cert-field,0,k,text,v|cert-field,1,k,text,v> ok
cert,0,,hash,@|cert-oid,0,1.2.3,true,|cert-policy,0,1.2.3,true,> ok
cert,0,,hash,@|cert-oid,0,1.2.3,true,|cert-oid,0,1.2.3,text,v> 2 Twice row=4
cert,0,,hash,@|cert-oid,0,1.40,true,> 1 BadRow row=3
cert,0,,hash,@|cert-oid,0,,true,> 1 BadRow row=3
cert,0,,hash,@|cert-policy,0,1.2.4294967296,true,> 1 BadRow row=3
cert,0,,hash,@|cert-policy,0,2.999,item,a|cert-policy,0,2.999,item,a> ok
info,,k,text,v|entitlement,,k,text,v> ok
info,,,text,> ok
info,0,k,text,v> 1 BadRow row=2
info,,k,,v> 1 BadRow row=2
info,,k,true,v> 1 BadRow row=2
info,,k,hash,@> 1 BadRow row=2
info,,k,item,a|info,,k,item,a|info,,k,item,> ok
info,,k,item,a|info,,k,text,b> 2 Twice row=3
info,,k,text,a|info,,k,item,b> 2 Twice row=3
info,,k,true,|info,,k,true,> 2 Twice row=3
entitlement,,k,false,|entitlement,,K,false,> ok
other,,k,text,v> 1 BadRow row=2
flag,,legacy,,|flag,,legacy,,|x,,,,> 2 Twice row=3
info,,\"a,b\",text,\"x\"\"y\"> ok";

// The rows of a file as the file's bytes.
fn file_of(alloc: Global, rows: &[u8]) -> Result<Vec<u8>, AllocError> {
    let mut file = Vec::from_slice(alloc, HEADER)?;
    if rows.is_empty() {
        return Ok(file);
    }
    for row in rows.split(|byte| *byte == b'|') {
        file.extend_from_slice(ONES)?;
        file.push(b',')?;
        push_row(&mut file, row)?;
        file.push(b'\n')?;
    }
    Ok(file)
}

fn push_row(file: &mut Vec<u8>, row: &[u8]) -> Result<(), AllocError> {
    for byte in row {
        if *byte == b'@' {
            file.extend_from_slice(b"aaaaaaaaaaaaaaaaaaaaaaaaaaaaaaaaaaaaaaaa")?;
        } else {
            file.push(*byte)?;
        }
    }
    Ok(())
}

fn tells(alloc: Global, file: &[u8], want: &[u8]) -> bool {
    let mut line = LineText::new();
    match FactTable::read(alloc, file) {
        Ok(_) => line.push_all(b"ok"),
        Err(fault) => fault.line_into(&mut line),
    }
    line.as_slice() == want
}

// What stands before the `>` of a row, and what stands behind it and a space.
fn parts(row: &[u8]) -> (&[u8], &[u8]) {
    for (at, byte) in row.iter().enumerate() {
        if *byte == b'>' {
            let (front, back) = row.split_at(at);
            return (front, back.split_at(back.len().min(2)).1);
        }
    }
    (row, b"")
}

fn is_right(alloc: Global, row: &[u8]) -> bool {
    let (rows, want) = parts(row);
    match file_of(alloc, rows) {
        Ok(file) => tells(alloc, file.as_slice(), want),
        Err(_) => false,
    }
}

fn all_right(alloc: Global, table: &[u8]) -> bool {
    let mut all = true;
    for row in table.split(|byte| *byte == b'\n') {
        all = all && is_right(alloc, row);
    }
    all
}

#[test]
fn rows_and_their_faults(rt: HostRuntime) {
    assert!(rt; all_right(rt.alloc(), FILES));
}

// Whole files: no bytes, a wrong header, a byte order mark, a quoted header, blank lines and CR LF, a line feed in a
// quoted key, an open quote at the end, capitals in a hash, and a last line without LF.
#[rattlefmt::skip]
const WHOLE: [(&[u8], &[u8]); 10] = [
    (b"", b"1 BadRow row=1"),
    (b"hash,scope,slot,key,kind,value\n", b"1 BadRow row=1"),
    (b"\xef\xbb\xbfcdhash,scope,slot,key,kind,value\n", b"ok"),
    (b"\"cdhash\",scope,slot,key,kind,value", b"ok"),
    (b"cdhash,scope,slot,key,kind,value\n\n\r\n1111111111111111111111111111111111111111,flag,,legacy,,\r\n\n1111111111111111111111111111111111111111,flag,,legacy,,\n", b"2 Twice row=3"),
    (b"cdhash,scope,slot,key,kind,value\n1111111111111111111111111111111111111111,info,,\"a\nb\",text,x\n1111111111111111111111111111111111111111,info,,\"a\nb\",true,\n", b"2 Twice row=3"),
    (b"cdhash,scope,slot,key,kind,value\n1111111111111111111111111111111111111111,info,,a,text,\"x\n", b"ok"),
    (b"cdhash,scope,slot,key,kind,value\naaaaaaaaaaaaaaaaaaaaaaaaaaaaaaaaaaaaaaaa,flag,,legacy,,\nAAAAAAAAAAAAAAAAAAAAAAAAAAAAAAAAAAAAAAAA,flag,,legacy,,\n", b"2 Twice row=3"),
    (b"cdhash,scope,slot,key,kind,value\n1111111111111111111111111111111111111111,flag,,legacy,,", b"ok"),
    (b"cdhash,scope,slot,key,kind,value\n11111111111111111111111111111111111111111,flag,,legacy,,\n", b"1 BadRow row=2"),
];

fn all_whole(alloc: Global) -> bool {
    let mut all = true;
    for (file, want) in WHOLE {
        all = all && tells(alloc, file, want);
    }
    all
}

#[test]
fn whole_files_and_their_faults(rt: HostRuntime) {
    assert!(rt; all_whole(rt.alloc()));
}

// The facts of one hash, as `examples/facts.csv` has them.
const EXAMPLE: &[u8] =
    b"flag,,anchor-apple-generic,,|cert,0,,hash,@|cert,1,,hash,bbbbbbbbbbbbbbbbbbbbbbbbbbbbbbbbbbbbbbbb|cert,2,,hash,cccccccccccccccccccccccccccccccccccccccc|cert-oid,1,1.2.840.113635.100.6.2.6,true,|cert-oid,0,1.2.840.113635.100.6.1.13,true,|cert-field,0,subject.OU,text,2DC432GLL2|info,,Version,text,10.9|info,,Build,text,007|info,,Tags,item,red|info,,Tags,item,blue|info,,Off,false,";

fn is_text(value: Option<&Value>, want: &[u8]) -> bool {
    match value {
        Some(Value::Text(bytes)) => bytes.as_slice() == want,
        _ => false,
    }
}

fn is_two(value: Option<&Value>, first: &[u8], second: &[u8]) -> bool {
    match value {
        Some(Value::Many(texts)) => match texts.as_slice() {
            [a, b] => a.as_slice() == first && b.as_slice() == second,
            _ => false,
        },
        _ => false,
    }
}

fn is_truth(value: Option<&Value>, want: bool) -> bool {
    match value {
        Some(Value::Flag(truth)) => *truth == want,
        _ => false,
    }
}

fn has_extension(alloc: Global, facts: &Facts, place: u32, arcs: &[u8]) -> bool {
    match oid_from_text(alloc, arcs) {
        Ok(oid) => { place < facts.cert_count() && is_truth(facts.cert_oid(place, &oid), true) }
        Err(_) => false,
    }
}

fn flags_are(facts: &Facts) -> bool {
    facts.flag(FactFlag::AppleGeneric)
        && !facts.flag(FactFlag::AppleAnchor)
        && !facts.flag(FactFlag::Notarized)
        && !facts.flag(FactFlag::LegacyDevId)
}

fn chain_is(alloc: Global, facts: &Facts) -> bool {
    if facts.cert_count() != 3 {
        return false;
    }
    let anchor = facts.cert_hash(2);
    let trusted = facts.cert_trusted(0);
    let unit = is_text(facts.cert_field(0, b"subject.OU"), b"2DC432GLL2");
    let other = facts.cert_field(1, b"subject.OU").is_none();
    anchor == (Hash20 { bytes: [0xcc; 20] })
        && !trusted
        && unit
        && other
        && extensions_are(alloc, facts)
}

fn extensions_are(alloc: Global, facts: &Facts) -> bool {
    has_extension(alloc, facts, 1, b"1.2.840.113635.100.6.2.6")
        && has_extension(alloc, facts, 0, b"1.2.840.113635.100.6.1.13")
        && !has_extension(alloc, facts, 2, b"1.2.840.113635.100.6.1.13")
}

fn values_are(facts: &Facts) -> bool {
    is_text(facts.info(b"Version"), b"10.9")
        && is_text(facts.info(b"Build"), b"007")
        && is_two(facts.info(b"Tags"), b"red", b"blue")
        && is_truth(facts.info(b"Off"), false)
        && facts.info(b"Nope").is_none()
        && facts.entitlement(b"Version").is_none()
        && !facts.anchor_name(b"Version")
        && !facts.code_name(b"Version")
}

fn example_is_read(alloc: Global) -> Result<bool, AllocError> {
    let file = file_of(alloc, EXAMPLE)?;
    let Ok(table) = FactTable::read(alloc, file.as_slice()) else {
        return Ok(false);
    };
    let other = Hash20 { bytes: [0x22; 20] };
    let own = Hash20 { bytes: [0x11; 20] };
    Ok(match table.facts_of(&own) {
        Some(facts) => flags_are(facts)
            && chain_is(alloc, facts)
            && values_are(facts)
            && table.facts_of(&other).is_none(),
        None => false,
    })
}

fn is_read(alloc: Global) -> bool {
    match example_is_read(alloc) {
        Ok(read) => read,
        Err(_) => false,
    }
}

#[test]
fn the_facts_of_the_example(rt: HostRuntime) {
    assert!(rt; is_read(rt.alloc()));
}

#[test]
fn no_facts_are_those_of_the_empty_table(rt: HostRuntime) {
    let table = FactTable::empty(rt.alloc());
    let none = table.facts_of(&Hash20 { bytes: [0x11; 20] }).is_none();
    assert!(rt; none);
}

// Rows of an entry each, with so many hashes.
fn many_rows(alloc: Global, count: u32, hashes: u32) -> Result<Vec<u8>, AllocError>
    requires { 0 < hashes }
{
    let mut file = Vec::from_slice(alloc, HEADER)?;
    for number in 0..count {
        let mut line = LineText::new();
        line.push_all(b"1111111111111111111111111111111");
        line.push_number(100_000_000 + u64::from(number % hashes));
        line.push_all(b",info,,");
        line.push_number(u64::from(number));
        line.push_all(b",true,\n");
        file.extend_from_slice(line.as_slice())?;
    }
    Ok(file)
}

fn many_tell(alloc: Global, count: u32, hashes: u32, want: &[u8]) -> bool
    requires { 0 < hashes }
{
    match many_rows(alloc, count, hashes) {
        Ok(file) => tells(alloc, file.as_slice(), want),
        Err(_) => false,
    }
}

#[test]
fn as_many_rows_as_may_be(rt: HostRuntime) {
    assert!(rt; many_tell(rt.alloc(), 100_000, 20_000, b"ok"));
}

#[test]
fn as_many_rows_of_one_hash(rt: HostRuntime) {
    assert!(rt; many_tell(rt.alloc(), 100_000, 1, b"ok"));
}

#[test]
fn a_row_too_many(rt: HostRuntime) {
    assert!(rt; many_tell(rt.alloc(), 100_001, 20_000, b"3 TooMany"));
}
