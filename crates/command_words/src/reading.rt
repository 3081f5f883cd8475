//! Words read whole.

ghost use Rattle.std.specs.Prelude.{◌≡◌, [], IfOk, IfErr, Some, None, option_map, unwrap_or, codes};
ghost use Rattle.clap.specs.Words.{all_of, found_of, rows_of};
ghost use Rattle.command_words.specs.Lines as model;
ghost use Rattle.command_words.specs.Table.{in_table};
ghost use Rattle.command_words.specs.Views.{texts, line_view, command_view};

use crate::arguments::{arguments, value_of};
use crate::command::{Command, CommandLine, WordsFault};
use crate::table::command_of;
use clap::ArgMatches;
use std::alloc::{AllocError, Global};

/// The command line of the words, of which the program's name is none.
pub fn read_words<'a>(alloc: Global, words: &'a [&'a str]) -> Result<CommandLine<'a>, WordsFault>
    ensures line { IfOk result (λ line. model.line_of (texts words.entry.now) ≡ Some (line_view line)) }
    ensures usage { IfErr result (λ fault. fault ≡ WordsFault.Usage → model.line_of (texts words.entry.now) ≡ None) }
{
    let matches = arguments(alloc, words)?;
    line_from(alloc, &matches)
}

/// The command line of what clap found.
fn line_from<'a>(alloc: Global, matches: &ArgMatches<'a>) -> Result<CommandLine<'a>, WordsFault>
    ensures line { IfOk result (λ line. model.line_from (rows_of (found_of matches.now)) ≡ Some (line_view line)) }
    ensures usage { IfErr result (λ fault. fault ≡ WordsFault.Usage → model.line_from (rows_of (found_of matches.now)) ≡ None) }
{
    let facts = value_of(matches, "facts");
    let store = value_of(matches, "store").ok_or(WordsFault::Usage)?;
    let word = value_of(matches, "command").ok_or(WordsFault::Usage)?;
    let command = command_from(alloc, word, matches)?.ok_or(WordsFault::Usage)?;
    Ok(CommandLine {
        store,
        facts,
        command,
    })
}

/// The command of a word and of the words behind it, of which there may be none.
fn command_from<'a>(
    alloc: Global,
    word: &'a str,
    matches: &ArgMatches<'a>,
) -> Result<Option<Command<'a>>, AllocError>
    ensures { IfOk result (λ command. option_map command_view command
        ≡ in_table word.now (unwrap_or (all_of (codes "words") (rows_of (found_of matches.now))) [])) }
{
    match matches.get_strs("words") {
        Some(more) => command_of(alloc, word, more),
        None => command_of(alloc, word, &[]),
    }
}

/// The name of the store that the words name; for words that are no command line it is `:memory:`.
pub fn store_word<'a>(alloc: Global, words: &'a [&'a str]) -> Result<&'a str, AllocError>
    ensures { IfOk result (λ store. store.now ≡ model.store_of (texts words.entry.now)) }
{
    match read_words(alloc, words) {
        Ok(line) => {
            let store = line.store;
            drop(line);
            Ok(store)
        }
        Err(WordsFault::Usage) => Ok(":memory:"),
        Err(WordsFault::OutOfMemory) => Err(AllocError),
    }
}
