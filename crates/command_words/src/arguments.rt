//! The words as clap takes them apart.

ghost use Rattle.std.specs.Prelude.{◌≡◌, ◌≢◌, [], false, IfOk, IfErr};
ghost use Rattle.clap.specs.Words.{app_of, rule_of, with_rule, fault_of, matches_of, found_of, rows_of, first_of};
ghost use Rattle.command_words.specs.Lines as model;
ghost use Rattle.command_words.specs.Views.{texts, text_of};

use crate::command::WordsFault;
use clap::error::ErrorKind;
use clap::{Arg, ArgAction, ArgMatches, Command};
use std::alloc::{AllocError, Global};

/// The words' arguments, where clap takes them.
pub fn arguments<'a>(alloc: Global, words: &'a [&'a str]) -> Result<ArgMatches<'a>, WordsFault>
    ensures taken { IfOk result (λ matches. (fault_of model.gatekeeper (texts words.entry.now) ≡ [])
        × (rows_of (found_of matches) ≡ matches_of model.gatekeeper (texts words.entry.now))) }
    ensures refused { IfErr result (λ fault. fault ≡ WordsFault.Usage
        → fault_of model.gatekeeper (texts words.entry.now) ≢ []) }
{
    let command = gatekeeper(alloc)?;
    match command.try_get_matches_from(words) {
        Ok(matches) => Ok(matches),
        Err(error) => {
            if error.kind() == ErrorKind::OutOfMemory {
                Err(WordsFault::OutOfMemory)
            } else {
                Err(WordsFault::Usage)
            }
        }
    }
}

/// The program as clap sees it.
fn gatekeeper<'a>(alloc: Global) -> Result<Command<'a>, AllocError>
    ensures { IfOk result (λ command. app_of command ≡ model.gatekeeper) }
{
    let command = with(bare(alloc), facts_option(alloc))?;
    let command = with(command, store_place(alloc))?;
    let command = with(command, command_place(alloc))?;
    with(command, words_place(alloc))
}

/// Its words come without the program's name, and it has no option for help.
fn bare<'a>(alloc: Global) -> Command<'a>
    ensures { app_of result ≡ model.bare }
{
    Command::new(alloc, "gatekeeper")
        .no_binary_name(true)
        .disable_help_flag(true)
}

fn with<'a>(command: Command<'a>, arg: Arg<'a>) -> Result<Command<'a>, AllocError>
    requires { arg.global ≡ false }
    ensures { IfOk result (λ made. app_of made ≡ with_rule (app_of command.entry) (rule_of arg.entry)) }
{
    command.arg(arg)
}

fn facts_option<'a>(alloc: Global) -> Arg<'a>
    ensures rule { rule_of result ≡ model.facts_option }
    ensures local { result.global ≡ false }
{
    Arg::new(alloc, "facts")
        .long("facts")
        .action(ArgAction::Set)
}

fn store_place<'a>(alloc: Global) -> Arg<'a>
    ensures rule { rule_of result ≡ model.store_place }
    ensures local { result.global ≡ false }
{
    Arg::new(alloc, "store")
        .required(true)
        .action(ArgAction::Set)
}

fn command_place<'a>(alloc: Global) -> Arg<'a>
    ensures rule { rule_of result ≡ model.command_place }
    ensures local { result.global ≡ false }
{
    Arg::new(alloc, "command")
        .required(true)
        .action(ArgAction::Set)
}

fn words_place<'a>(alloc: Global) -> Arg<'a>
    ensures rule { rule_of result ≡ model.words_place }
    ensures local { result.global ≡ false }
{
    Arg::new(alloc, "words").action(ArgAction::Append)
}

/// The first value of an argument.
pub fn value_of<'a>(matches: &ArgMatches<'a>, id: &str) -> Option<&'a str>
    ensures { text_of result ≡ first_of id.now (rows_of (found_of matches.now)) }
{
    matches.get_str(id)
}
