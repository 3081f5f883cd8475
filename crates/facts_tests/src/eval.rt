//! Requirements of code of which some facts are known.

use fact_values::{FactFlag, Facts, Place, Value};
use req_eval::eval;
use req_tree::{Bytes, Hash20, Identifier, Match, Req, Subject, is_encodable, oid_from_text};
use std::alloc::{AllocError, Global};

const EXTENSION: &[u8] = b"1.2.840.113635.100.6.2.6";

const MARK: &[u8] = b"1.2.840.113635.100.6.1.13";

// The facts: three certificates, and some values.

fn chain(alloc: Global, facts: &mut Facts) -> Result<(), AllocError> {
    for digits in [0xaa, 0xbb, 0xcc] {
        if facts.cert_count() < 3 {
            facts.push_cert(
                alloc,
                Hash20 {
                    bytes: [digits; 20],
                },
            )?;
        }
    }
    Ok(())
}

fn set(
    alloc: Global,
    facts: &mut Facts,
    place: Place,
    key: &[u8],
    value: Value,
) -> Result<(), AllocError> {
    if facts.has_place(place) {
        facts.put_value(alloc, place, key, value)
    } else {
        drop(value);
        Ok(())
    }
}

fn text(alloc: Global, bytes: &[u8]) -> Result<Value, AllocError> {
    let text = Bytes::copy_of(alloc, bytes)?;
    Ok(Value::Text(text))
}

fn extension(alloc: Global, facts: &mut Facts, place: u32, arcs: &[u8]) -> Result<(), AllocError> {
    match oid_from_text(alloc, arcs) {
        Ok(oid) => set(
            alloc,
            facts,
            Place::CertOid(place),
            oid.as_slice(),
            Value::Flag(true),
        ),
        Err(_) => Ok(()),
    }
}

fn info(alloc: Global, facts: &mut Facts) -> Result<(), AllocError> {
    set(alloc, facts, Place::Info, b"Version", text(alloc, b"10.9")?)?;
    set(alloc, facts, Place::Info, b"Build", text(alloc, b"007")?)?;
    set(alloc, facts, Place::Info, b"Off", Value::Flag(false))?;
    facts.put_item(alloc, Place::Info, b"Tags", b"red")?;
    facts.put_item(alloc, Place::Info, b"Tags", b"blue")
}

fn facts(alloc: Global) -> Result<Facts, AllocError> {
    let mut facts = Facts::empty(alloc);
    facts.set_flag(FactFlag::AppleGeneric);
    chain(alloc, &mut facts)?;
    extension(alloc, &mut facts, 1, EXTENSION)?;
    extension(alloc, &mut facts, 0, MARK)?;
    let unit = text(alloc, b"2DC432GLL2")?;
    set(alloc, &mut facts, Place::CertField(0), b"subject.OU", unit)?;
    info(alloc, &mut facts)?;
    Ok(facts)
}

fn subject() -> Option<Subject> {
    let identifier = Identifier::of(b"com.example.app")?;
    Some(Subject {
        cdhash: Hash20 { bytes: [0x11; 20] },
        identifier,
        platform: 0,
    })
}

/// Whether a requirement is true of the code, by its facts or without.
fn holds(alloc: Global, req: &Req, known: bool) -> Result<bool, AllocError> {
    let facts = facts(alloc)?;
    match subject() {
        Some(subject) if is_encodable(req) => {
            Ok(eval(req, &subject, if known { Some(&facts) } else { None }))
        }
        _ => Err(AllocError),
    }
}

// Rows on single values.

#[derive(Clone, Copy)]
enum Test {
    Exists,
    Absent,
    Equal,
    Less,
    AtMost,
    AtLeast,
}

fn test_of(alloc: Global, test: Test, datum: &[u8]) -> Result<Match, AllocError> {
    let datum = Bytes::copy_of(alloc, datum)?;
    Ok(match test {
        Test::Exists => Match::Exists,
        Test::Absent => Match::Absent,
        Test::Equal => Match::Equal(datum),
        Test::Less => Match::Less(datum),
        Test::AtMost => Match::LessEqual(datum),
        Test::AtLeast => Match::GreaterEqual(datum),
    })
}

#[rattlefmt::skip]
const INFO: [(&[u8], Test, &[u8], bool); 11] = [
    (b"Off",     Test::Exists,  b"",      false),
    (b"Off",     Test::Absent,  b"",      false),
    (b"Nope",    Test::Exists,  b"",      false),
    (b"Nope",    Test::Absent,  b"",      true),
    (b"Tags",    Test::Equal,   b"blue",  true),
    (b"Tags",    Test::Equal,   b"green", false),
    (b"Build",   Test::Equal,   b"7",     false),
    (b"Version", Test::Less,    b"10.10", true),
    (b"Build",   Test::AtMost,  b"7",     true),
    (b"Build",   Test::AtLeast, b"7",     true),
    (b"Build",   Test::Less,    b"7",     false),
];

fn info_rows(alloc: Global) -> Result<bool, AllocError> {
    let mut all = true;
    for (key, test, datum, want) in INFO {
        let key = Bytes::copy_of(alloc, key)?;
        let req = Req::InfoField {
            key,
            test: test_of(alloc, test, datum)?,
        };
        all = all && holds(alloc, &req, true)? == want;
    }
    Ok(all)
}

#[rattlefmt::skip]
const FIELDS: [(i32, &[u8], Test, bool); 8] = [
    (0,  b"subject.OU", Test::Exists, true),
    (0,  b"subject.CN", Test::Absent, true),
    (-3, b"subject.OU", Test::Exists, true),
    (2,  b"subject.OU", Test::Absent, true),
    (3,  b"subject.OU", Test::Exists, false),
    (3,  b"subject.OU", Test::Absent, false),
    (-4, b"subject.OU", Test::Absent, false),
    (-2147483648, b"subject.OU", Test::Absent, false),
];

fn field_rows(alloc: Global) -> Result<bool, AllocError> {
    let mut all = true;
    for (slot, key, test, want) in FIELDS {
        let key = Bytes::copy_of(alloc, key)?;
        let test = test_of(alloc, test, b"")?;
        let req = Req::CertField { slot, key, test };
        all = all && holds(alloc, &req, true)? == want;
    }
    Ok(all)
}

#[rattlefmt::skip]
const ANCHORS: [(i32, u8, bool); 6] = [
    (-1, 0xcc, true),
    (2,  0xcc, true),
    (0,  0xaa, true),
    (-3, 0xaa, true),
    (3,  0xcc, false),
    (-4, 0xaa, false),
];

fn anchor_rows(alloc: Global) -> Result<bool, AllocError> {
    let mut all = true;
    for (slot, digits, want) in ANCHORS {
        let hash = Hash20 {
            bytes: [digits; 20],
        };
        all = all && holds(alloc, &Req::AnchorHash { slot, hash }, true)? == want;
    }
    Ok(all)
}

#[test]
fn values_are_matched(rt: HostRuntime) {
    assert!(rt; info_rows(rt.alloc()) == Ok(true));
    assert!(rt; field_rows(rt.alloc()) == Ok(true));
    assert!(rt; anchor_rows(rt.alloc()) == Ok(true));
}

// The requirement of a developer's signature: identifier, anchor, two extensions and the team.

fn both(alloc: Global, left: Req, right: Req) -> Result<Req, AllocError> {
    let left = Box::new(alloc, left)?;
    let right = Box::new(alloc, right)?;
    Ok(Req::Both { left, right })
}

fn has_extension(alloc: Global, slot: i32, arcs: &[u8]) -> Result<Req, AllocError> {
    match oid_from_text(alloc, arcs) {
        Ok(oid) => Ok(Req::CertOid {
            slot,
            oid,
            test: Match::Exists,
        }),
        Err(_) => Err(AllocError),
    }
}

fn developer(alloc: Global) -> Result<Req, AllocError> {
    let value = Bytes::copy_of(alloc, b"com.example.app")?;
    let signed = both(alloc, Req::Ident { value }, Req::AppleGeneric)?;
    let marked = both(alloc, signed, has_extension(alloc, 1, EXTENSION)?)?;
    let leaf = both(alloc, marked, has_extension(alloc, 0, MARK)?)?;
    let key = Bytes::copy_of(alloc, b"subject.OU")?;
    let test = test_of(alloc, Test::Equal, b"2DC432GLL2")?;
    both(alloc, leaf, Req::CertField { slot: 0, key, test })
}

fn is_decided(alloc: Global) -> Result<bool, AllocError> {
    let req = developer(alloc)?;
    Ok(holds(alloc, &req, true)? && !holds(alloc, &req, false)?)
}

#[test]
fn a_developers_requirement_is_decided_by_the_facts(rt: HostRuntime) {
    assert!(rt; is_decided(rt.alloc()) == Ok(true));
}
