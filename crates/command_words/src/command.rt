//! What the words of a command line ask for.

use line_text::Bytes;
use rule_values::Kind;
use std::alloc::AllocError;

/// The words of a command line, once they are read.
#[derive(Drop)]
pub struct CommandLine<'a> {
    /// The name of the store; `:memory:` is one that begins empty and ends with the run.
    pub store: &'a str,
    /// The name of the file of facts.
    pub facts: Option<&'a str>,
    pub command: Command<'a>,
}

/// What the program is asked to do.
#[derive(Drop)]
pub enum Command<'a> {
    /// Answer the lines of the input.
    Session,
    /// Say one thing of files.
    OnFiles(FileCommand<'a>),
    /// Change or show the rules of the store.
    OnTables(TableCommand<'a>),
    /// Run a session that is made up, of so many lines, and count its replies.
    Rehearse { steps: u32 },
}

/// What the program is asked to do with files.
#[derive(Clone, Copy, Drop)]
pub enum FileCommand<'a> {
    /// Make a blob of the text of a requirement.
    Compile {
        name: &'a str,
    },
    /// Make a blob of the text of a set of requirements.
    CompileSet {
        name: &'a str,
    },
    /// Make a text of a blob.
    Dump {
        name: &'a str,
    },
    /// Assess the code of a signature file, and look at a code file where one is named.
    Assess {
        kind: Kind,
        name: &'a str,
        code: Option<&'a str>,
    },
}

/// What the program is asked to do with the rules of the store.
#[derive(Drop)]
pub enum TableCommand<'a> {
    /// Make the edit of a line, as one in a session; whether the line is an edit isn't looked at here.
    Edit { line: Bytes },
    /// Say whether assessments are enabled.
    Status,
    /// Print the rules.
    List,
    /// Make the edits of a file.
    Import { name: &'a str },
}

/// Why words are no command line.
#[derive(Clone, Copy, Debug, PartialEq, Eq)]
pub enum WordsFault {
    /// They aren't words of any command.
    Usage,
    /// Memory ran out before it was known.
    OutOfMemory,
}

impl From<AllocError> for WordsFault {
    ghost use Rattle.std.specs.Prelude.{◌≡◌};
    ghost use Rattle.command_words.specs.declared.command.WordsFault.TheVariants.{OutOfMemory};

    ghost from_gives = { λ _ fault. fault ≡ OutOfMemory };

    fn from(_: AllocError) -> WordsFault {
        WordsFault::OutOfMemory
    }
}
