//! What a person may want to know of a run, by how it ended.

use crate::noted::Seen;
use crate::refused::refusal;
use crate::shown::quoted;
use crate::usage::usage;
use command_words::{Command, FileCommand, TableCommand, WordsFault, read_words, store_word};
use run_status::Status;
use std::alloc::{AllocError, Global};

/// Whether the words name a file whose text may be refused, so that its bytes are wanted afterwards.
pub fn has_text(alloc: Global, words: &[&str]) -> Result<bool, AllocError> {
    match read_words(alloc, words) {
        Ok(line) => {
            let has = matches!(
                &line.command,
                Command::OnFiles(FileCommand::Compile { .. } | FileCommand::CompileSet { .. })
                    | Command::OnTables(TableCommand::Import { .. })
            );
            drop(line);
            Ok(has)
        }
        Err(WordsFault::Usage) => Ok(false),
        Err(WordsFault::OutOfMemory) => Err(AllocError),
    }
}

/// What went wrong with a run over these words that asked for this file last, in lines; empty where nothing did.
pub fn told(
    alloc: Global,
    words: &[&str],
    status: Status,
    seen: Option<&Seen>,
) -> Result<String, AllocError> {
    match status {
        Status::Fine | Status::Denied => Ok(String::new(alloc)),
        Status::Usage => usage(alloc, words),
        Status::Refused => refusal(alloc, words, seen),
        Status::FileMissing | Status::FileTooLong | Status::ShelfFault | Status::BadFacts => {
            match seen {
                Some(seen) => of_file(alloc, status, seen),
                None => Ok(String::new(alloc)),
            }
        }
        Status::KeeperFault | Status::BadStore => of_store(alloc, words, status),
        _ => String::from_str(alloc, plain(status)),
    }
}

fn of_file(alloc: Global, status: Status, seen: &Seen) -> Result<String, AllocError> {
    let name = quoted(alloc, seen.name.as_str())?;
    let name = name.as_str();
    match status {
        Status::FileMissing => format!(in alloc; "gatekeeper: there is no file {name}\n"),
        Status::FileTooLong => format!(in alloc;
            "gatekeeper: the file {name} has more than {} bytes\n",
            seen.limit
        ),
        Status::BadFacts => {
            format!(in alloc;
                "gatekeeper: the facts file {name} has a row that isn't in order; gatekeeper-formats(5) describes it\n"
            )
        }
        _ => format!(in alloc; "gatekeeper: {name} is there and can't be read, or is a folder\n"),
    }
}

fn of_store(alloc: Global, words: &[&str], status: Status) -> Result<String, AllocError> {
    let name = quoted(alloc, store_word(alloc, words)?)?;
    let name = name.as_str();
    if status == Status::BadStore {
        format!(in alloc;
            "gatekeeper: the store {name} has a row that isn't accepted; gatekeeper-formats(5) describes them\n"
        )
    } else {
        format!(in alloc;
            "gatekeeper: the store {name} can't be opened, read or written: another program may have it open, it or its folder may be read-only or missing, or it is no SQLite file\n"
        )
    }
}

fn plain(status: Status) -> &'static str {
    match status {
        Status::ReadFault => "gatekeeper: standard input can't be read\n",
        Status::WriteFault => "gatekeeper: standard output can't be written\n",
        Status::SessionTooLong => {
            "gatekeeper: the input has more than 1,000,000 lines or 268,435,456 bytes\n"
        }
        Status::ClockFault => "gatekeeper: the system doesn't tell the time\n",
        Status::OutOfMemory => "gatekeeper: out of memory\n",
        _ => "",
    }
}
