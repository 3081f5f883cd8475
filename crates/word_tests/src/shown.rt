//! A command line as text, for the rows of tests.

use command_words::{Command, CommandLine, FileCommand, TableCommand};
use rule_values::Kind;
use std::alloc::AllocError;

/// Appends the store, the facts or nothing, and the command, each behind a bar.
pub fn show(text: &mut Vec<u8>, line: &CommandLine<'_>) -> Result<(), AllocError> {
    part(text, line.store)?;
    if let Some(name) = line.facts {
        part(text, "facts")?;
        part(text, name)?;
    }
    show_command(text, &line.command)
}

fn part(text: &mut Vec<u8>, part: &str) -> Result<(), AllocError> {
    text.extend_from_slice(part.as_bytes())?;
    text.push(b'|')?;
    Ok(())
}

fn show_command(text: &mut Vec<u8>, command: &Command<'_>) -> Result<(), AllocError> {
    match command {
        Command::Session => part(text, "session"),
        Command::OnFiles(command) => show_files(text, *command),
        Command::OnTables(command) => show_tables(text, command),
        Command::Rehearse { steps } => {
            part(text, "rehearse")?;
            text.extend_from_slice(&steps.to_be_bytes())
        }
    }
}

fn show_files(text: &mut Vec<u8>, command: FileCommand<'_>) -> Result<(), AllocError> {
    match command {
        FileCommand::Compile { name } => show_name(text, "compile", name),
        FileCommand::CompileSet { name } => show_name(text, "compileset", name),
        FileCommand::Dump { name } => show_name(text, "dump", name),
        FileCommand::Assess { kind, name, code } => {
            show_name(text, "assess", kind_name(kind))?;
            show_name(text, name, code.unwrap_or("no code"))
        }
    }
}

fn show_name(text: &mut Vec<u8>, word: &str, name: &str) -> Result<(), AllocError> {
    part(text, word)?;
    part(text, name)
}

fn kind_name(kind: Kind) -> &'static str {
    match kind {
        Kind::Execute => "execute",
        Kind::Install => "install",
        Kind::Document => "open",
    }
}

fn show_tables(text: &mut Vec<u8>, command: &TableCommand<'_>) -> Result<(), AllocError> {
    match command {
        TableCommand::Edit { line } => {
            part(text, "edit")?;
            text.extend_from_slice(line.as_slice())
        }
        TableCommand::Status => part(text, "status"),
        TableCommand::List => part(text, "list"),
        TableCommand::Import { name } => show_name(text, "import", name),
    }
}
