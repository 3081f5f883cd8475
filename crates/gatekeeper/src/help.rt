//! The help and the version.

use gk_io::Sink;
use spctl_cli::Status;
use std::env::Env;

const HELP: &[u8] = b"\
gatekeeper decides which code may be executed, installed or opened.

usage: gatekeeper [--facts NAME] STORE COMMAND [WORDS]

  session                        answers each line of standard input by a line
  add, remove, enable, disable, expire, switch
                                 make one edit, whose line is the command and its words
  status                         says whether assessments are enabled
  list                           prints the rules
  import NAME                    makes the edits of a CSV file
  assess KIND NAME [CODE]        assesses the code of a signature file at the system's time
  compile NAME, compileset NAME  writes the blob of the requirement or the set whose text the file is
  dump NAME                      writes the text of the requirement or set whose blob the file is
  rehearse N                     answers a session of N made-up lines, and counts its replies
  --help, -h, --version, -V      show this text or the version, in the place of STORE

STORE is a SQLite file, which is made if it isn't there, or :memory:. --facts names a file of what is known of code.
Words that begin with - stand behind --. gatekeeper(1) tells the lines, their answers and the exit statuses,
gatekeeper-formats(5) the files, and gatekeeper-requirements(7) the language of requirements.
";

const VERSION: &[u8] = b"gatekeeper 0.1.0\n";

/// More bytes than a word has that asks for a text.
const ROOM: usize = 16;

/// What the first word behind the program's name asks to be shown, whatever follows it.
pub fn asked<R: Env>(rt: &R) -> Option<&'static [u8]> {
    let mut room = [0; ROOM];
    match rt.arg(1, &mut room) {
        Ok(count) => text_for(&room[..count]),
        Err(_) => None,
    }
}

fn text_for(word: &[u8]) -> Option<&'static [u8]> {
    match word {
        b"--help" | b"-h" => Some(HELP),
        b"--version" | b"-V" => Some(VERSION),
        _ => None,
    }
}

pub fn show<W: Sink>(text: &[u8], output: &mut W) -> Status {
    if output.put(text).is_ok() && output.flush().is_ok() {
        Status::Fine
    } else {
        Status::WriteFault
    }
}
