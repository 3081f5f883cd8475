//! Why a requirement's text is refused, in plain words, and where.

use crate::mark::{Span, line_at, push_marked};
use req_parser::{TextFault, Token, tokens};
use std::alloc::{AllocError, Global};

const ENDS: &str = "the text ends too early";

/// Appends what is wrong with the text that is called so, and its line with a mark where the fault has a place.
pub(crate) fn push_fault(
    alloc: Global,
    out: &mut String,
    called: &str,
    text: &[u8],
    fault: &TextFault,
) -> Result<(), AllocError> {
    match span_of(alloc, text, fault) {
        Some(span) => {
            let why = if span.length == 0 {
                ENDS
            } else {
                words_of(fault)
            };
            let line = line_at(text, span.at);
            let column = line.before.saturating_add(1);
            let head = format!(in alloc;
                "gatekeeper: {called}, line {}, column {column}: {why}\n",
                line.number
            )?;
            out.push_str(head.as_str())?;
            push_marked(out, &line, span.length)
        }
        None => {
            let why = words_of(fault);
            let head = format!(in alloc; "gatekeeper: {called}: {why}\n")?;
            out.push_str(head.as_str())
        }
    }
}

fn words_of(fault: &TextFault) -> &'static str {
    match fault {
        TextFault::BadByte { .. } => {
            "this byte begins nothing, or is a backslash without a quote behind it"
        }
        TextFault::OpenString { .. } => "this has no closing quote",
        TextFault::OpenComment { .. } => "this comment has no */",
        TextFault::BadHex { .. } => {
            "a hash is H\" and 40 hexadecimal digits and a quote; behind 0x stand pairs of such digits"
        }
        TextFault::IntTooLarge { .. } => "this number is over 2147483648",
        TextFault::Syntax { .. } => {
            "no requirement goes on so; a dash, an underscore or a space in a string needs quotes round it"
        }
        TextFault::TooDeep => {
            "more than 256 parentheses are open at once, or the requirement is more than 256 deep"
        }
        TextFault::TextTooLong => "the text has more than 65,536 bytes",
        TextFault::BadKey { .. } => {
            "behind field. and policy. stands an object identifier, and no key begins with timestamp."
        }
        TextFault::KindTwice { .. } => "this kind has a requirement already",
        TextFault::OutOfMemory => "out of memory",
    }
}

/// The part of the text that a fault names; where the text ends too early, no bytes behind its last token.
fn span_of(alloc: Global, text: &[u8], fault: &TextFault) -> Option<Span> {
    match fault {
        TextFault::BadByte { at }
        | TextFault::OpenString { at }
        | TextFault::OpenComment { at }
        | TextFault::BadHex { at }
        | TextFault::IntTooLarge { at } => Some(Span {
            at: *at as usize,
            length: 1,
        }),
        TextFault::Syntax { token }
        | TextFault::BadKey { token }
        | TextFault::KindTwice { token } => token_span(alloc, text, *token as usize),
        TextFault::TooDeep | TextFault::TextTooLong | TextFault::OutOfMemory => None,
    }
}

fn token_span(alloc: Global, text: &[u8], number: usize) -> Option<Span> {
    let list = tokens(alloc, text).ok()?;
    let span = match list.as_slice().get(number) {
        Some(token) => part_of(token),
        None => behind(list.as_slice()),
    };
    drop(list);
    Some(span)
}

fn part_of(token: &Token) -> Span {
    Span {
        at: token.at as usize,
        length: token.length as usize,
    }
}

fn behind(list: &[Token]) -> Span {
    let at = match list.last() {
        Some(token) => {
            let part = part_of(token);
            part.at.saturating_add(part.length)
        }
        None => 0,
    };
    Span { at, length: 0 }
}
