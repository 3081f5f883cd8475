//! The table of commands.

ghost use Rattle.std.specs.Prelude.{◌≡◌, ◌∷◌, ◌++◌, IfOk, Some, None, option_map, map};
ghost use Rattle.std.specs.List.{flat_map};
ghost use Rattle.line_model.specs.Words.{spaced, kind_word};
ghost use Rattle.command_words.specs.Table as model;
ghost use Rattle.command_words.specs.Views.{texts, text_of, command_view};

use crate::command::{Command, FileCommand, TableCommand};
use crate::limits::MOST_STEPS;
use itoa::Buffer;
use line_text::Bytes;
use line_words::{read_kind, read_number};
use std::alloc::{AllocError, Global};

/// The command of a word and the words behind it, where they stand in the table.
pub fn command_of<'a>(
    alloc: Global,
    word: &'a str,
    more: &[&'a str],
) -> Result<Option<Command<'a>>, AllocError>
    ensures { IfOk result (λ command. option_map command_view command ≡ model.in_table word.now (texts more.now)) }
{
    if begins_edit(word) {
        let line = edit_line(alloc, word, more)?;
        Ok(Some(Command::OnTables(TableCommand::Edit { line })))
    } else {
        Ok(by_number(word, more))
    }
}

fn begins_edit(word: &str) -> bool
    ensures { result ≡ model.begins_edit word.now }
{
    match word {
        "add" | "remove" | "enable" | "disable" | "expire" | "switch" => true,
        _ => false,
    }
}

/// The words with a space between each two.
#[tactic(auto, using(crate::proofs::Joined::spaced_more))]
fn edit_line(alloc: Global, word: &str, more: &[&str]) -> Result<Bytes, AllocError>
    ensures { IfOk result (λ line. line ≡ spaced (word.now ∷ texts more.now)) }
{
    let mut line = Vec::from_slice(alloc, word.as_bytes())?;
    push_words(&mut line, more)?;
    Ok(Bytes::from_vec(line))
}

/// Appends the words, each behind a space.
fn push_words(line: &mut Vec<u8>, words: &[&str]) -> Result<(), AllocError>
    ensures { IfOk result (λ _. line.new.items ≡ line.old.items ++ flat_map (λ word. 32 ∷ word.now) words.now) }
{
    for word in words {
        line.push(b' ')?;
        line.extend_from_slice(word.as_bytes())?;
    }
    Ok(())
}

/// A command other than an edit.
fn by_number<'a>(word: &'a str, more: &[&'a str]) -> Option<Command<'a>>
    ensures { option_map command_view result ≡ model.by_number word.now (texts more.now) }
{
    match more {
        [] => alone(word),
        [name] => with_one(word, name),
        [kind, name] => with_kind(word, kind, name, None),
        [kind, name, code] => with_kind(word, kind, name, Some(code)),
        _ => None,
    }
}

/// A command that takes no word behind it.
fn alone<'a>(word: &str) -> Option<Command<'a>>
    ensures { option_map command_view result ≡ model.alone word.now }
{
    match word {
        "session" => Some(Command::Session),
        "status" => Some(Command::OnTables(TableCommand::Status)),
        "list" => Some(Command::OnTables(TableCommand::List)),
        _ => None,
    }
}

/// A command and one word.
fn with_one<'a>(word: &str, name: &'a str) -> Option<Command<'a>>
    ensures { option_map command_view result ≡ model.with_one word.now name.now }
{
    match word {
        "compile" => Some(Command::OnFiles(FileCommand::Compile { name })),
        "compileset" => Some(Command::OnFiles(FileCommand::CompileSet { name })),
        "dump" => Some(Command::OnFiles(FileCommand::Dump { name })),
        "import" => Some(Command::OnTables(TableCommand::Import { name })),
        "rehearse" => rehearsal(name),
        _ => None,
    }
}

/// A rehearsal of so many steps.
fn rehearsal<'a>(number: &str) -> Option<Command<'a>>
    ensures { option_map command_view result ≡ option_map model.rehearse (model.steps_word number.now) }
{
    let steps = read_steps(number.as_bytes())?;
    Some(Command::Rehearse { steps })
}

fn read_steps(word: &[u8]) -> Option<u32>
    ensures { result ≡ model.steps_word word.now }
{
    let steps = read_number(word, 5, u64::from(MOST_STEPS))?;
    let mut buffer = Buffer::new();
    if 1 <= steps && word == buffer.format(steps).as_bytes() {
        Some(steps as u32)
    } else {
        None
    }
}

/// An assessment of a kind, and its files.
fn with_kind<'a>(
    word: &str,
    kind: &str,
    name: &'a str,
    code: Option<&'a str>,
) -> Option<Command<'a>>
    ensures { option_map command_view result ≡ model.with_kind word.now kind.now name.now (text_of code.entry) }
{
    if word != "assess" {
        return None;
    }
    let kind = read_kind(kind.as_bytes())?;
    Some(Command::OnFiles(FileCommand::Assess { kind, name, code }))
}
