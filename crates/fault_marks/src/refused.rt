//! Why a command refused its text, its line or its file.

use crate::imported::push_import;
use crate::line_faults::push_line;
use crate::noted::Seen;
use crate::shown::quoted;
use crate::text_faults::push_fault;
use command_words::{Command, FileCommand, TableCommand, read_words};
use req_parser::{TextFault, parse, parse_set};
use std::alloc::{AllocError, Global};

/// What is wrong with what the words name, in lines; empty where there is nothing to show.
pub(crate) fn refusal(
    alloc: Global,
    words: &[&str],
    seen: Option<&Seen>,
) -> Result<String, AllocError> {
    let mut out = String::new(alloc);
    let Ok(line) = read_words(alloc, words) else {
        return Ok(out);
    };
    match (&line.command, seen) {
        (Command::OnFiles(FileCommand::Compile { .. }), Some(seen)) => {
            let fault = text_fault(alloc, seen.bytes.as_slice());
            push_text(alloc, &mut out, seen, fault)?;
        }
        (Command::OnFiles(FileCommand::CompileSet { .. }), Some(seen)) => {
            let fault = set_fault(alloc, seen.bytes.as_slice());
            push_text(alloc, &mut out, seen, fault)?;
        }
        (Command::OnTables(TableCommand::Import { .. }), Some(seen)) => {
            push_import(alloc, &mut out, seen)?;
        }
        (Command::OnTables(TableCommand::Edit { line }), _) => {
            push_line(alloc, &mut out, line.as_slice())?;
        }
        _ => {}
    }
    drop(line);
    Ok(out)
}

fn text_fault(alloc: Global, text: &[u8]) -> Option<TextFault> {
    match parse(alloc, text) {
        Ok(req) => {
            drop(req);
            None
        }
        Err(fault) => Some(fault),
    }
}

fn set_fault(alloc: Global, text: &[u8]) -> Option<TextFault> {
    match parse_set(alloc, text) {
        Ok(set) => {
            drop(set);
            None
        }
        Err(fault) => Some(fault),
    }
}

fn push_text(
    alloc: Global,
    out: &mut String,
    seen: &Seen,
    fault: Option<TextFault>,
) -> Result<(), AllocError> {
    match fault {
        Some(fault) => {
            let name = quoted(alloc, seen.name.as_str())?;
            push_fault(alloc, out, name.as_str(), seen.bytes.as_slice(), &fault)
        }
        None => Ok(()),
    }
}
