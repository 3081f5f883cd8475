//! Streams and how they end: the grammar of heads, their limits, lengths of bodies, and who closes.

use crate::devices::{Trickle, source_of};
use gk_io::Source;
use http_fields::HttpFault;
use http_model::limits::FIELD_LIMIT;
use http_reader::{BodyFault, HeadRead, Pending, StreamEnd, end_of_stream, read_body, read_head};
use httparse::spans::EMPTY_HEADER_SPAN;
use std::alloc::{AllocError, Global};

const CLOSED: StreamEnd = StreamEnd::Closed;

const CUT: StreamEnd = StreamEnd::Cut;

const BAD_HEAD: StreamEnd = StreamEnd::Refused(HttpFault::BadHead);

const NO_LENGTH: StreamEnd = StreamEnd::Refused(HttpFault::NoLength);

const BAD_LENGTH: StreamEnd = StreamEnd::Refused(HttpFault::BadLength);

const TOO_LARGE: StreamEnd = StreamEnd::Refused(HttpFault::TooLarge);

// Streams, and how each ends by RFC 9112 and the limits of this project, worked out by hand.
#[rattlefmt::skip]
const STREAMS: [(&str, &[u8], StreamEnd); 46] = [
    ("nothing",                     b"", CLOSED),
    ("a request",                   b"GET /status HTTP/1.1\r\n\r\n", CLOSED),
    ("LF alone ends lines",         b"GET /status HTTP/1.1\nHost: x\n\n", CLOSED),
    ("empty lines in front",        b"\r\n\n\r\nGET /status HTTP/1.1\r\n\r\n", CLOSED),
    ("empty lines behind",          b"GET /status HTTP/1.1\r\n\r\n\r\n", CUT),
    ("an empty line",               b"\r\n", CUT),
    ("three at once",               b"GET / HTTP/1.1\r\n\r\nGET / HTTP/1.1\r\n\r\nGET / HTTP/1.1\r\n\r\n", CLOSED),
    ("the second is cut",           b"GET / HTTP/1.1\r\n\r\nGET / HTTP/1.1\r\n\r", CUT),
    ("a line is cut",               b"GET /status HTTP/1.", CUT),
    ("no version yet",              b"G", CUT),
    ("another version",             b"GET /status HTTP/2.0\r\n", BAD_HEAD),
    ("another version, no LF yet",  b"GET /status HTTP/2.0", CUT),
    ("HTTP/1.2",                    b"GET /status HTTP/1.2\r\n", BAD_HEAD),
    ("HTTP/2 by prior knowledge",   b"PRI * HTTP/2.0\r\n\r\nSM\r\n\r\n", BAD_HEAD),
    ("no version",                  b"GET /status\r\n", BAD_HEAD),
    ("a space in a name",           b"GET / HTTP/1.1\r\nHo st: x\r\n", BAD_HEAD),
    ("a field without colon",       b"GET / HTTP/1.1\r\nHost\r\n", BAD_HEAD),
    ("a folded field",              b"GET / HTTP/1.1\r\nA: b\r\n c\r\n\r\n", BAD_HEAD),
    ("a zero in a value",           b"GET / HTTP/1.1\r\nA: \0\r\n\r\n", BAD_HEAD),
    ("a target that isn't UTF-8",   b"GET /\xff HTTP/1.1\r\n\r\n", BAD_HEAD),
    ("bad bytes behind a request",  b"GET / HTTP/1.1\r\n\r\n(\r\n", BAD_HEAD),
    ("a body",                      b"POST /edit HTTP/1.1\r\nContent-Length: 3\r\n\r\nabc", CLOSED),
    ("a body, cut",                 b"POST /edit HTTP/1.1\r\nContent-Length: 3\r\n\r\nab", CUT),
    ("a body, and one byte",        b"POST /edit HTTP/1.1\r\nContent-Length: 3\r\n\r\nabcG", CUT),
    ("a body, and a request",       b"POST /edit HTTP/1.1\r\ncontent-length:3\r\n\r\nabcGET / HTTP/1.1\r\n\r\n", CLOSED),
    ("no body",                     b"POST /edit HTTP/1.1\r\nContent-Length: 0\r\n\r\n", CLOSED),
    ("a body of a GET",             b"GET /status HTTP/1.1\r\nContent-Length: 2\r\n\r\nab", CLOSED),
    ("zeros in front",              b"POST / HTTP/1.1\r\nContent-Length: 0000000000000000002\r\n\r\nab", CLOSED),
    ("20 digits",                   b"POST / HTTP/1.1\r\nContent-Length: 00000000000000000002\r\n\r\nab", BAD_LENGTH),
    ("a sign",                      b"POST / HTTP/1.1\r\nContent-Length: +2\r\n\r\nab", BAD_LENGTH),
    ("a minus",                     b"POST / HTTP/1.1\r\nContent-Length: -2\r\n\r\nab", BAD_LENGTH),
    ("a list",                      b"POST / HTTP/1.1\r\nContent-Length: 2, 2\r\n\r\nab", BAD_LENGTH),
    ("twice",                       b"POST / HTTP/1.1\r\nContent-Length: 2\r\nCONTENT-LENGTH: 2\r\n\r\nab", BAD_LENGTH),
    ("hexadecimal",                 b"POST / HTTP/1.1\r\nContent-Length: 0x2\r\n\r\nab", BAD_LENGTH),
    ("an empty length",             b"POST / HTTP/1.1\r\nContent-Length:\r\n\r\nab", BAD_LENGTH),
    ("a bad length of a GET",       b"GET / HTTP/1.1\r\nContent-Length: x\r\n\r\n", BAD_LENGTH),
    ("no length",                   b"POST / HTTP/1.1\r\nHost: x\r\n\r\nab", NO_LENGTH),
    ("no length of a PUT",          b"PUT / HTTP/1.1\r\n\r\n", CLOSED),
    ("chunked",                     b"POST / HTTP/1.1\r\nTransfer-Encoding: chunked\r\n\r\n0\r\n\r\n", NO_LENGTH),
    ("chunked, with a bad length",  b"GET / HTTP/1.1\r\nContent-Length: x\r\ntransfer-encoding: gzip\r\n\r\n", NO_LENGTH),
    ("as much as may be, cut",      b"POST / HTTP/1.1\r\nContent-Length: 16777216\r\n\r\nab", CUT),
    ("one byte too much",           b"POST / HTTP/1.1\r\nContent-Length: 16777217\r\n\r\nab", TOO_LARGE),
    ("HTTP/1.0 is one request",     b"GET / HTTP/1.0\r\n\r\n(\r\n", CLOSED),
    ("who asks to close",           b"GET / HTTP/1.1\r\nConnection: keep-alive ,\tCLOSE\r\n\r\n(\r\n", CLOSED),
    ("in a second field",           b"GET / HTTP/1.1\r\nConnection: te\r\nconnection: close\r\n\r\n(\r\n", CLOSED),
    ("who doesn't",                 b"GET / HTTP/1.1\r\nConnection: closed, x close\r\nClose: close\r\n\r\n(\r\n", BAD_HEAD),
];

fn streams_end() -> bool {
    for (_name, bytes, end) in STREAMS {
        if end_of_stream(bytes) != end {
            return false;
        }
    }
    true
}

#[test]
fn streams_end_as_worked_out(rt: HostRuntime) {
    assert!(rt; streams_end());
}

const FIRST: &[u8] = b"GET /status HTTP/1.1\r\nHost: localhost\r\n\r\n";

const BOTH: &[u8] =
    b"GET /status HTTP/1.1\r\nHost: localhost\r\n\r\nPOST /edit HTTP/1.1\r\nContent-Length: 44\r\n\r\nline=add+k1+execute+allow+0+never+-+-+always";

// The first bytes of two requests end well where a request ends, and nowhere else.
fn cut_at_each_byte() -> bool {
    for at in 0..BOTH.len() + 1 {
        let is_between = at == 0 || at == FIRST.len() || at == BOTH.len();
        let end = if is_between { CLOSED } else { CUT };
        if end_of_stream(BOTH.split_at(at).0) != end {
            return false;
        }
    }
    true
}

#[test]
fn a_stream_is_cut_at_each_byte(rt: HostRuntime) {
    assert!(rt; cut_at_each_byte());
}

// What came of reading a head.
#[derive(Clone, Copy, PartialEq, Eq)]
enum Came {
    Head(usize),
    End,
    Cut,
    Bad,
    Failed,
}

fn came_of<S: Source>(bytes: &mut Pending, source: &mut S) -> Came {
    let mut fields = [EMPTY_HEADER_SPAN; FIELD_LIMIT];
    match read_head(bytes, &mut fields, source) {
        Ok(HeadRead::Head(spans)) => Came::Head(spans.len),
        Ok(HeadRead::End) => Came::End,
        Ok(HeadRead::Cut) => Came::Cut,
        Ok(HeadRead::Bad) => Came::Bad,
        Err(_) => Came::Failed,
    }
}

// A head that comes byte by byte, up to each of its bytes.
fn one_by_one(alloc: Global) -> Result<bool, AllocError> {
    for at in 0..FIRST.len() + 1 {
        let came = if at == 0 {
            Came::End
        } else if at == FIRST.len() {
            Came::Head(at)
        } else {
            Came::Cut
        };
        let mut source = Trickle::of(alloc, FIRST.split_at(at).0, 0)?;
        if came_of(&mut Pending::new(), &mut source) != came {
            return Ok(false);
        }
    }
    Ok(true)
}

// The source fails at each of its calls, of which the last finds the end.
fn fails_at_each_call(alloc: Global) -> Result<bool, AllocError> {
    let part = FIRST.split_at(FIRST.len() - 1).0;
    for call in 1..FIRST.len() as u64 + 1 {
        let mut source = Trickle::of(alloc, part, call)?;
        if came_of(&mut Pending::new(), &mut source) != Came::Failed {
            return Ok(false);
        }
    }
    Ok(true)
}

// Two heads that come in one piece, taken off one after the other.
fn at_once(alloc: Global) -> Result<bool, AllocError> {
    let mut source = source_of(
        alloc,
        b"GET /a HTTP/1.1\r\n\r\nGET /bc HTTP/1.1\r\n\r\nG",
        0,
    )?;
    let mut bytes = Pending::new();
    let first = came_of(&mut bytes, &mut source);
    bytes.take(bytes.as_slice().len().min(19));
    let second = came_of(&mut bytes, &mut source);
    bytes.take(bytes.as_slice().len().min(20));
    let third = came_of(&mut bytes, &mut source);
    Ok(first == Came::Head(19) && second == Came::Head(20) && third == Came::Cut)
}

#[test]
fn heads_are_read_in_pieces(rt: HostRuntime) -> Result<(), AllocError> {
    let alloc = rt.alloc();
    let one_by_one = one_by_one(alloc)?;
    assert!(rt; one_by_one);
    let fails = fails_at_each_call(alloc)?;
    assert!(rt; fails);
    let at_once = at_once(alloc)?;
    assert!(rt; at_once);
    Ok(())
}

// A head of so many bytes, at least 28, in one field.
fn head_of(alloc: Global, size: usize) -> Result<Vec<u8>, AllocError> {
    let mut head = Vec::from_slice(alloc, b"GET /status HTTP/1.1\r\na:")?;
    for _ in 28..size {
        head.push(b'x')?;
    }
    head.extend_from_slice(b"\r\n\r\n")?;
    Ok(head)
}

// A request line, so many fields, and what stands behind them.
fn with_fields(alloc: Global, count: usize, behind: &[u8]) -> Result<Vec<u8>, AllocError> {
    let mut head = Vec::from_slice(alloc, b"GET /status HTTP/1.1\r\n")?;
    for _ in 0..count {
        head.extend_from_slice(b"a:b\r\n")?;
    }
    head.extend_from_slice(behind)?;
    Ok(head)
}

// Bytes that come at once and one by one end so, and as they do in memory.
fn ends(alloc: Global, bytes: &[u8], came: Came, end: StreamEnd) -> Result<bool, AllocError> {
    let at_once = came_of(&mut Pending::new(), &mut source_of(alloc, bytes, 0)?);
    let one_by_one = came_of(&mut Pending::new(), &mut Trickle::of(alloc, bytes, 0)?);
    Ok(at_once == came && one_by_one == came && end_of_stream(bytes) == end)
}

fn first_of(bytes: &[u8], count: usize) -> &[u8] {
    bytes.split_at(count.min(bytes.len())).0
}

fn heads_at_their_limits(alloc: Global) -> Result<bool, AllocError> {
    let longer = head_of(alloc, 8_193)?;
    Ok(
        ends(alloc, &head_of(alloc, 8_191)?, Came::Head(8_191), CLOSED)?
            && ends(alloc, &head_of(alloc, 8_192)?, Came::Head(8_192), CLOSED)?
            && ends(alloc, &longer, Came::Bad, BAD_HEAD)?
            && ends(alloc, first_of(&longer, 8_191), Came::Cut, CUT)?
            && ends(alloc, first_of(&longer, 8_192), Came::Bad, BAD_HEAD)?,
    )
}

fn fields_at_their_limit(alloc: Global) -> Result<bool, AllocError> {
    Ok(
        ends(
            alloc,
            &with_fields(alloc, 64, b"\r\n")?,
            Came::Head(344),
            CLOSED,
        )? && ends(alloc, &with_fields(alloc, 64, b"\r")?, Came::Cut, CUT)?
            && ends(alloc, &with_fields(alloc, 64, b"")?, Came::Cut, CUT)?
            && ends(alloc, &with_fields(alloc, 64, b"a")?, Came::Bad, BAD_HEAD)?
            && ends(
                alloc,
                &with_fields(alloc, 65, b"\r\n")?,
                Came::Bad,
                BAD_HEAD,
            )?,
    )
}

#[test]
fn heads_have_their_limits(rt: HostRuntime) -> Result<(), AllocError> {
    let sizes = heads_at_their_limits(rt.alloc())?;
    assert!(rt; sizes);
    let fields = fields_at_their_limit(rt.alloc())?;
    assert!(rt; fields);
    Ok(())
}

// A body of five bytes, of which two are there, and the rest comes byte by byte.
fn body_is(
    alloc: Global,
    behind: &[u8],
    call: u64,
    body: Result<&[u8], BodyFault>,
) -> Result<bool, AllocError> {
    let mut source = Trickle::of(alloc, behind, call)?;
    let came = read_body(alloc, b"ab", 5, &mut source);
    match (came, body) {
        (Ok(bytes), Ok(whole)) => Ok(bytes.as_slice() == whole),
        (Err(fault), Err(why)) => Ok(fault == why),
        _ => Ok(false),
    }
}

#[test]
fn bodies_are_read_as_they_come(rt: HostRuntime) -> Result<(), AllocError> {
    let alloc = rt.alloc();
    let whole = body_is(alloc, b"cde", 0, Ok(b"abcde"))?;
    assert!(rt; whole);
    let no_further = body_is(alloc, b"cdefg", 0, Ok(b"abcde"))?;
    assert!(rt; no_further);
    let cut = body_is(alloc, b"cd", 0, Err(BodyFault::Cut))?;
    assert!(rt; cut);
    let fails = body_is(alloc, b"cde", 3, Err(BodyFault::Failed))?;
    assert!(rt; fails);
    let fails_late = body_is(alloc, b"cde", 4, Ok(b"abcde"))?;
    assert!(rt; fails_late);
    Ok(())
}
