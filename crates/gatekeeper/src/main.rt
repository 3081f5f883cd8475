//! The program: makes the real objects, and calls what does all else.
#![tactic(auto)]

mod help;

use command_words::store_word;
use fault_marks::{NotedShelf, Seen, has_text, told};
use gk_io::{FileShelf, StdSink, StdSource, SystemClock};
use spctl_cli::{Status, run};
use sql_keeper::ProgramKeeper;
use std::alloc::AllocError;
use std::env::{self, Args};
use std::io::{self, ErrorKind};
use std::process::ExitCode;

fn main(rt: HostRuntime) -> ExitCode {
    let status = match help::asked(&rt) {
        Some(text) => help::show(text, &mut StdSink::new(io::writer(&rt))),
        None => by_arguments(&rt),
    };
    ExitCode::from(status.code())
}

fn by_arguments(rt: &HostRuntime) -> Status {
    match env::args(rt) {
        Ok(args) => by_args(rt, args).unwrap_or(Status::OutOfMemory),
        Err(error) => by_no_words(rt, error.kind()),
    }
}

/// The arguments, of which the first is the program's name.
fn by_args(rt: &HostRuntime, args: Args) -> Result<Status, AllocError> {
    let mut all = Vec::new(rt.alloc());
    for arg in args.skip(1) {
        all.push(arg)?;
    }
    let mut words = Vec::new(rt.alloc());
    for arg in &all {
        words.push(arg.as_str())?;
    }
    Ok(by_words(rt, words.as_slice()))
}

/// Where the arguments could not be read. One that isn't text makes no command.
fn by_no_words(rt: &HostRuntime, why: ErrorKind) -> Status {
    if why == ErrorKind::OutOfMemory {
        Status::OutOfMemory
    } else {
        by_words(rt, &[])
    }
}

fn by_words(rt: &HostRuntime, words: &[&str]) -> Status {
    match (store_word(rt.alloc(), words), has_text(rt.alloc(), words)) {
        (Ok(store), Ok(has_text)) => over_store(rt, words, store, has_text),
        _ => Status::OutOfMemory,
    }
}

/// Runs over the store of that name, which is opened where the command asks for it. The bytes of a file are kept for what
/// a person is told where the words name a text.
fn over_store(rt: &HostRuntime, words: &[&str], store: &str, has_text: bool) -> Status {
    let mut input = StdSource::new(rt.reader());
    let mut output = StdSink::new(io::writer(rt));
    let mut shelf = NotedShelf::new(FileShelf::new(rt), has_text);
    let mut keeper = ProgramKeeper::named(rt, store);
    let mut clock = SystemClock::new(rt);
    let status = run(
        rt.alloc(),
        words,
        &mut input,
        &mut output,
        &mut shelf,
        &mut keeper,
        &mut clock,
    );
    keeper.close();
    tell(rt, words, status, shelf.seen());
    status
}

/// What a person may want to know goes to standard error; whether it can be written doesn't matter.
fn tell(rt: &HostRuntime, words: &[&str], status: Status, seen: Option<&Seen>) {
    if let Ok(text) = told(rt.alloc(), words, status, seen) {
        let _ = rt.eprint(text.as_str());
    }
}
