//! How a stream that is there whole ends: a slow reading that takes no memory, whose contract is the definition. So each
//! stream has requests and an end.

ghost use Rattle.std.specs.Prelude.{◌≡◌, ◌<◌, ◌≤◌, List, length};
ghost use Rattle.http_model.specs.Streams.{Request, IsStream};
ghost use Rattle.http_model.specs.declared.limits.TheConstants.{FIELD_LIMIT, REPLY_LIMIT};
ghost use Rattle.http_reader.specs.Plain.{end_of, IsFirst, IsMeasuredOff};
ghost use Rattle.http_reader.specs.Looked.{IsHeadAt};

use crate::head::{Looked, look};
use crate::parts::{body_length, closes};
use http_fields::HttpFault;
use http_model::laws::{heads_come_in_pieces, requests_add_up};
use http_model::limits::{FIELD_LIMIT, HEAD_LIMIT};
use httparse::spans::{EMPTY_HEADER_SPAN, HeaderSpan, RequestSpans};

/// How a stream ends.
#[derive(Clone, Copy, PartialEq, Eq)]
pub enum StreamEnd {
    /// Behind a request, or before the first.
    Closed,
    /// Inside a head or a body.
    Cut,
    /// By a request that is refused.
    Refused(HttpFault),
}

// What stands at the front of a stream.
#[derive(Clone, Copy)]
pub enum First {
    /// A request of so many bytes, whose reply ends the connection, or not.
    Request(usize, bool),
    /// No request.
    End(StreamEnd),
}

/// How the stream of just these bytes ends.
pub fn end_of_stream(bytes: &[u8]) -> StreamEnd
    ensures { (requests : List Request) × IsStream 0 bytes.now requests (end_of result) }
{
    requests_add_up();
    let mut fields = [EMPTY_HEADER_SPAN; FIELD_LIMIT];
    let mut rest = bytes;
    let mut count = 0;
    loop {
        match first_of(count, rest, &mut fields) {
            First::End(end) => return end,
            First::Request(size, last) => {
                if last {
                    return StreamEnd::Closed;
                }
                rest = rest.split_at(size).1;
                count += 1;
            }
        }
    }
}

// What stands at the front, where so many requests came before it.
fn first_of(count: usize, bytes: &[u8], fields: &mut [HeaderSpan]) -> First
    requires few { count < REPLY_LIMIT }
    requires room { length fields.old ≡ FIELD_LIMIT }
    ensures first { IsFirst count bytes.now result }
    ensures room { length fields.new ≡ FIELD_LIMIT }
{
    heads_come_in_pieces();
    let front = bytes.split_at(HEAD_LIMIT.min(bytes.len())).0;
    match look(front, fields) {
        Looked::Head(spans) => measured_off(count, bytes.len(), front, fields, spans),
        Looked::Bad => First::End(StreamEnd::Refused(HttpFault::BadHead)),
        Looked::Open => First::End(if bytes.is_empty() {
            StreamEnd::Closed
        } else {
            StreamEnd::Cut
        }),
    }
}

// The request whose head stands in the window, in front of so many bytes.
fn measured_off(
    count: usize,
    all: usize,
    window: &[u8],
    fields: &[HeaderSpan],
    spans: RequestSpans,
) -> First
    requires few { count < REPLY_LIMIT }
    requires head { IsHeadAt window.now fields.now spans }
    requires inside { length window.now ≤ all }
    ensures { IsMeasuredOff count all window.now fields.now spans result }
{
    match body_length(window, fields, spans) {
        Err(fault) => First::End(StreamEnd::Refused(fault)),
        Ok(size) => {
            if all - spans.len < size {
                First::End(StreamEnd::Cut)
            } else {
                First::Request(spans.len + size, closes(count, window, fields, spans))
            }
        }
    }
}
