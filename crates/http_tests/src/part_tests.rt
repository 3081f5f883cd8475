//! Targets, methods, forms and refusals.

use http_fields::{HttpFault, Work, read_form_line, read_work};
use std::alloc::{AllocError, Global};

// What a method and a target ask for: the kind's word is empty where the work has none.
#[rattlefmt::skip]
const WORKS: [(&[u8], &[u8], Result<(u8, &[u8]), HttpFault>); 16] = [
    (b"GET",  b"/status",                Ok((1, b""))),
    (b"GET",  b"/rules",                 Ok((2, b""))),
    (b"POST", b"/edit",                  Ok((3, b""))),
    (b"POST", b"/assess/execute",        Ok((4, b"execute"))),
    (b"POST", b"/assess/install",        Ok((4, b"install"))),
    (b"POST", b"/assess/open",           Ok((4, b"open"))),
    (b"POST", b"/assess/execute/nocache", Ok((5, b"execute"))),
    (b"POST", b"/assess/install/nocache", Ok((5, b"install"))),
    (b"POST", b"/assess/open/nocache",   Ok((5, b"open"))),
    (b"HEAD", b"/status",                Err(HttpFault::BadMethod)),
    (b"GET",  b"/edit",                  Err(HttpFault::BadMethod)),
    (b"post", b"/edit",                  Err(HttpFault::BadMethod)),
    (b"PUT",  b"/nowhere",               Err(HttpFault::NoPath)),
    (b"GET",  b"/status/",               Err(HttpFault::NoPath)),
    (b"GET",  b"/%73tatus",              Err(HttpFault::NoPath)),
    (b"GET",  b"http://localhost/status", Err(HttpFault::NoPath)),
];

fn shown(work: Work) -> (u8, &'static [u8]) {
    match work {
        Work::Status => (1, b""),
        Work::Rules => (2, b""),
        Work::Edit => (3, b""),
        Work::Assess { kind, keep } => (if keep { 4 } else { 5 }, kind),
    }
}

fn works_are_asked_for() -> bool {
    for (method, target, wanted) in WORKS {
        let is = match (read_work(method, target), wanted) {
            (Ok(work), Ok(want)) => {
                let got = shown(work);
                got.0 == want.0 && got.1 == want.1
            }
            (Err(fault), Err(want)) => fault == want,
            _ => false,
        };
        if !is {
            return false;
        }
    }
    true
}

// Forms, and the line in each, where it has one.
#[rattlefmt::skip]
const FORMS: [(&[u8], Option<&[u8]>); 14] = [
    (b"line=switch+x1+off",         Some(b"switch x1 off")),
    (b"line=switch x1 off",         Some(b"switch x1 off")),
    (b"line=a%2Bb%26c%3Dd%25",      Some(b"a+b&c=d%")),
    (b"line=a=b",                   Some(b"a=b")),
    (b"l%69ne=a",                   Some(b"a")),
    (b"&&line=a&",                  Some(b"a")),
    (b"line=",                      Some(b"")),
    (b"line",                       Some(b"")),
    (b"line=%ff\xc3(%zz",           Some(b"\xef\xbf\xbd\xef\xbf\xbd(%zz")),
    (b"line=a&line=b",              None),
    (b"line=a&b=",                  None),
    (b"Line=a",                     None),
    (b"&",                          None),
    (b"",                           None),
];

fn forms_have_a_line(alloc: Global) -> Result<bool, AllocError> {
    for (form, wanted) in FORMS {
        let is = match (read_form_line(alloc, form)?, wanted) {
            (Some(line), Some(want)) => line.as_bytes() == want,
            (None, None) => true,
            _ => false,
        };
        if !is {
            return Ok(false);
        }
    }
    Ok(true)
}

// Each refusal, with its status and its line.
#[rattlefmt::skip]
const REFUSALS: [(HttpFault, u16, &[u8]); 9] = [
    (HttpFault::BadHead,     400, b"refused http 1 BadHead\n"),
    (HttpFault::TooLarge,    413, b"refused http 2 TooLarge\n"),
    (HttpFault::NoLength,    411, b"refused http 3 NoLength\n"),
    (HttpFault::NoPath,      404, b"refused http 4 NoPath\n"),
    (HttpFault::BadMethod,   405, b"refused http 5 BadMethod\n"),
    (HttpFault::BadForm,     400, b"refused http 6 BadForm\n"),
    (HttpFault::OutOfMemory, 500, b"refused http 7 OutOfMemory\n"),
    (HttpFault::BadLength,   400, b"refused http 8 BadLength\n"),
    (HttpFault::Spent,       503, b"refused http 9 Spent\n"),
];

fn refusals_are_printed() -> bool {
    for (fault, status, body) in REFUSALS {
        if fault.status() != status || fault.body() != body {
            return false;
        }
    }
    true
}

#[test]
fn parts_of_a_request_are_read(rt: HostRuntime) -> Result<(), AllocError> {
    assert!(rt; works_are_asked_for());
    let forms = forms_have_a_line(rt.alloc())?;
    assert!(rt; forms);
    assert!(rt; refusals_are_printed());
    Ok(())
}
