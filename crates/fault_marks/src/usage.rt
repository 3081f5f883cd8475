//! Which word of a command line was wrong.

use crate::shown::quoted;
use std::alloc::{AllocError, Global};

/// The commands, and the words that stand behind each.
const COMMANDS: [(&str, &str); 15] = [
    ("session", "no word"),
    ("compile", "NAME"),
    ("compileset", "NAME"),
    ("dump", "NAME"),
    (
        "assess",
        "execute, install or open, then NAME, and then CODE or nothing",
    ),
    ("add", "the words of its line"),
    ("remove", "the words of its line"),
    ("enable", "the words of its line"),
    ("disable", "the words of its line"),
    ("expire", "the words of its line"),
    ("switch", "the words of its line"),
    ("status", "no word"),
    ("list", "no word"),
    ("import", "NAME"),
    ("rehearse", "a number from 1 to 10000"),
];

/// What is wrong with words that are no command.
pub(crate) fn usage(alloc: Global, words: &[&str]) -> Result<String, AllocError> {
    let wrong = wrong_of(alloc, words)?;
    format!(in alloc;
        "gatekeeper: {}; gatekeeper --help lists the commands\n",
        wrong.as_str()
    )
}

fn wrong_of(alloc: Global, words: &[&str]) -> Result<String, AllocError> {
    let mut plain = Vec::new(alloc);
    let mut is_name = false;
    let mut facts = 0_u32;
    for (place, word) in words.iter().enumerate() {
        if is_name {
            is_name = false;
        } else if *word == "--" {
            for more in words.iter().skip(place).skip(1) {
                plain.push(*more)?;
            }
            break;
        } else if *word == "--facts" || word.starts_with("--facts=") {
            is_name = *word == "--facts";
            facts = facts.saturating_add(1);
        } else if is_option(word) {
            let word = quoted(alloc, word)?;
            return format!(in alloc;
                "there is no option {}, and other words that begin so stand behind --",
                word.as_str()
            );
        } else {
            plain.push(*word)?;
        }
    }
    if is_name {
        String::from_str(alloc, "behind --facts stands the name of a file")
    } else if facts > 1 {
        String::from_str(alloc, "--facts stands more than once")
    } else {
        wrong_command(alloc, plain.as_slice())
    }
}

/// A word of more than one byte that begins with `-`.
fn is_option(word: &str) -> bool {
    word.len() > 1 && word.starts_with("-")
}

fn wrong_command(alloc: Global, plain: &[&str]) -> Result<String, AllocError> {
    let Some(store) = plain.first() else {
        return String::from_str(alloc, "there are no words, or not all of them are UTF-8");
    };
    let Some(command) = plain.get(1) else {
        let store = quoted(alloc, store)?;
        return format!(in alloc;
            "a command stands behind the store, which is {} here",
            store.as_str()
        );
    };
    let word = quoted(alloc, command)?;
    match behind(command) {
        Some(words) => format!(in alloc; "behind {} stands {words}", word.as_str()),
        None => format!(in alloc; "there is no command {}", word.as_str()),
    }
}

/// What stands behind a command.
fn behind(command: &str) -> Option<&'static str> {
    for (name, words) in COMMANDS {
        if name == command {
            return Some(words);
        }
    }
    None
}
