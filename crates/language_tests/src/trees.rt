//! Trees that are built, shared and kept, and the small values that they speak of.

use req_eval::eval;
use req_tree::{
    Bytes, Hash20, Identifier, LineText, Match, Req, ReqSet, SharedReq, Subject, depth,
    is_encodable, is_spoken, read_hash,
};
use std::alloc::{AllocError, Global};
use std::test::Fail;

fn ident(alloc: Global) -> Result<Req, AllocError> {
    Ok(Req::Ident {
        value: Bytes::copy_of(alloc, b"com.example.app")?,
    })
}

fn absent(alloc: Global) -> Result<Req, AllocError> {
    Ok(Req::InfoField {
        key: Bytes::copy_of(alloc, b"Debug")?,
        test: Match::Absent,
    })
}

fn both(alloc: Global, left: Req, right: Req) -> Result<Req, AllocError> {
    let left = Box::new(alloc, left)?;
    let right = Box::new(alloc, right)?;
    Ok(Req::Both { left, right })
}

fn has_shape(req: &Req, deep: usize, spoken: bool) -> bool {
    is_encodable(req) && depth(req) == deep && is_spoken(req) == spoken
}

fn is_shared(alloc: Global, req: Req) -> Result<bool, AllocError> {
    if !is_encodable(&req) {
        return Ok(false);
    }
    let shared = SharedReq::new(alloc, req)?;
    let again = shared.share()?;
    match subject() {
        Some(subject) => {
            let same = subject.copied() == subject;
            Ok(eval(again.req(), &subject, None) && same)
        }
        None => Ok(false),
    }
}

fn subject() -> Option<Subject> {
    let identifier = Identifier::of(b"com.example.app")?;
    Some(Subject {
        cdhash: Hash20 { bytes: [1; 20] },
        identifier,
        platform: 0,
    })
}

fn are_trees(alloc: Global) -> Result<bool, AllocError> {
    let inner = both(alloc, ident(alloc)?, absent(alloc)?)?;
    let flat = has_shape(&inner, 2, true);
    let outer = both(alloc, ident(alloc)?, inner)?;
    let nested = has_shape(&outer, 3, false);
    let shared = is_shared(alloc, outer)?;
    Ok(flat && nested && shared)
}

fn is_kept() -> bool {
    let mut set = ReqSet::new();
    let none = set.part(3).is_none();
    set.put(3, Req::Never);
    let kept = matches!(set.part(3), Some(Req::Never));
    drop(set);
    none && kept
}

#[test]
fn trees_are_built_shared_and_kept(rt: HostRuntime) {
    assert!(rt; are_trees(rt.alloc()) == Ok(true));
    assert!(rt; is_kept());
}

fn is_word(bytes: &[u8], want: &[u8]) -> bool {
    if bytes.len() > 100 {
        return false;
    }
    let mut line = LineText::new();
    line.push_word(bytes);
    line.as_slice() == want
}

fn are_words() -> bool {
    let dashes = is_word(b"", b"-") && is_word(b"-", b"%2D") && is_word(b"--", b"--");
    let text = is_word(b"no rule", b"no%20rule") && is_word(b"100%", b"100%25");
    dashes && text && is_word(b"\x00a\x7f~\xff", b"%00a%7F~%FF")
}

fn is_line() -> bool {
    let mut line = LineText::new();
    line.push_all(b"rule=");
    line.push_number(18_446_744_073_709_551_615);
    line.push(b';');
    line.as_slice() == b"rule=18446744073709551615;".as_slice()
}

fn are_identifiers() -> bool {
    let bad = Identifier::of(b"a\0b").is_none() && Identifier::of(&[b'a'; 257]).is_none();
    bad && Identifier::of(&[b'a'; 256]).is_some()
}

fn are_hashes() -> bool {
    let hash = read_hash(b"0102030405060708090a0b0c0d0e0f1011121314");
    let upper = read_hash(b"0102030405060708090A0B0C0D0E0F1011121314");
    let short = read_hash(b"0102030405060708090a0b0c0d0e0f10111213");
    let known = hash.map_or(false, |hash| hash.bytes[19] == 20);
    known && hash == upper && short.is_none()
}

#[test]
fn lines_hold_what_was_pushed(rt: HostRuntime) {
    assert!(rt; are_words() && is_line());
    assert!(rt; are_identifiers());
    assert!(rt; are_hashes());
}
