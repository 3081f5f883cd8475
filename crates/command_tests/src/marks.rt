//! What a person is told of runs that went wrong.

use crate::running::shelf_of;
use fault_marks::{NotedShelf, has_text, told};
use gk_io::{CallNumbers, MemoryClock, MemorySink, MemorySource};
use memory_keeper::MemoryKeeper;
use spctl_cli::run;
use std::alloc::{AllocError, Global};
use std::test::Fail;

// Words, the bytes of the file `r`, and what goes to standard error, worked out by hand.
#[rattlefmt::skip]
const ROWS: [(&[&str], &[u8], &str); 24] = [
    // all is well
    (&[":memory:", "session"], b"",
        ""),
    // a requirement
    (&[":memory:", "compile", "r"], b"always\n",
        ""),
    // a dash
    (&[":memory:", "compile", "r"], b"identifier com.example.my-app\n",
        "gatekeeper: 'r', line 1, column 26: no requirement goes on so; a dash, an underscore or a space in a string needs quotes round it\n  identifier com.example.my-app\n                           ^\n"),
    // an early end in the second line
    (&[":memory:", "compile", "r"], b"always or\n  (never and\n",
        "gatekeeper: 'r', line 2, column 13: the text ends too early\n    (never and\n              ^\n"),
    // a short hash
    (&[":memory:", "compile", "r"], b"cdhash H\"12\"",
        "gatekeeper: 'r', line 1, column 8: a hash is H\" and 40 hexadecimal digits and a quote; behind 0x stand pairs of such digits\n  cdhash H\"12\"\n         ^\n"),
    // a bad key
    (&[":memory:", "compile", "r"], b"certificate leaf[field.1]",
        "gatekeeper: 'r', line 1, column 18: behind field. and policy. stands an object identifier, and no key begins with timestamp.\n  certificate leaf[field.1]\n                   ^^^^^^^\n"),
    // no text
    (&[":memory:", "compile", "r"], b"",
        "gatekeeper: 'r', line 1, column 1: the text ends too early\n  \n  ^\n"),
    // a long line
    (&[":memory:", "compile", "r"], b"always or always or always or always or always or always or always or always and and",
        "gatekeeper: 'r', line 1, column 82: no requirement goes on so; a dash, an underscore or a space in a string needs quotes round it\n  lways or always or always or always and and\n                                          ^^^\n"),
    // a tab and a byte that isn't printed
    (&[":memory:", "compile", "r"], b"\talways\x01",
        "gatekeeper: 'r', line 1, column 8: this byte begins nothing, or is a backslash without a quote behind it\n   always?\n         ^\n"),
    // a kind twice
    (&[":memory:", "compileset", "r"], b"designated => always designated => never",
        "gatekeeper: 'r', line 1, column 22: this kind has a requirement already\n  designated => always designated => never\n                       ^^^^^^^^^^\n"),
    // an added requirement
    (&[":memory:", "add", "k", "execute", "allow", "0", "never", "-", "-", "identifier", "and"], b"",
        "gatekeeper: the requirement, line 1, column 12: no requirement goes on so; a dash, an underscore or a space in a string needs quotes round it\n  identifier and\n             ^^^\n"),
    // a wrong word
    (&[":memory:", "add", "k", "execute", "maybe", "0", "never", "-", "-", "always"], b"",
        "gatekeeper: here stands a word that doesn't fit or is one too many, or one is missing\n  add k execute maybe 0 never - - always\n                ^\n"),
    // a wrong priority
    (&[":memory:", "add", "k", "execute", "allow", "x", "never", "-", "-", "always"], b"",
        "gatekeeper: a priority is from -1000000 to 1000000, with at most six digits behind its dot\n"),
    // an edit that the desk refuses
    (&[":memory:", "remove", "k", "id", "1", "any"], b"",
        ""),
    // a row's requirement
    (&[":memory:", "import", "r"], b"key,type,verdict,priority,expires,label,flags,requirement\na,execute,allow,0,never,,-,always\nb,execute,allow,0,never,,-,always or\n",
        "gatekeeper: 'r', row 3, its requirement, line 1, column 10: the text ends too early\n  always or\n           ^\n"),
    // a row's type
    (&[":memory:", "import", "r"], b"key,type,verdict,priority,expires,label,flags,requirement\na,exec,allow,0,never,,-,always\n",
        "gatekeeper: 'r', row 2: its type isn't execute, install or open\n"),
    // another header
    (&[":memory:", "import", "r"], b"key\n",
        "gatekeeper: 'r': its first row isn't key,type,verdict,priority,expires,label,flags,requirement\n"),
    // no such command
    (&[":memory:", "sesion"], b"",
        "gatekeeper: there is no command 'sesion'; gatekeeper --help lists the commands\n"),
    // a word too many
    (&[":memory:", "session", "now"], b"",
        "gatekeeper: behind 'session' stands no word; gatekeeper --help lists the commands\n"),
    // no such option
    (&["--frob", ":memory:", "session"], b"",
        "gatekeeper: there is no option '--frob', and other words that begin so stand behind --; gatekeeper --help lists the commands\n"),
    // no words
    (&[], b"",
        "gatekeeper: there are no words, or not all of them are UTF-8; gatekeeper --help lists the commands\n"),
    // no command
    (&["s"], b"",
        "gatekeeper: a command stands behind the store, which is 's' here; gatekeeper --help lists the commands\n"),
    // no file
    (&[":memory:", "dump", "a\x1bb"], b"",
        "gatekeeper: there is no file 'a?b'\n"),
    // bad facts
    (&["--facts", "r", ":memory:", "session"], b"x",
        "gatekeeper: the facts file 'r' has a row that isn't in order; gatekeeper-formats(5) describes it\n"),
];

/// Whether just this is told of a run over these words and a file of these bytes.
fn is_told(alloc: Global, words: &[&str], bytes: &[u8], want: &str) -> Result<bool, AllocError> {
    let mut input = MemorySource::new(Vec::new(alloc), CallNumbers::new(alloc));
    let mut output = MemorySink::with_room(alloc, 4_096, CallNumbers::new(alloc))?;
    let files = shelf_of(alloc, ("r", bytes))?;
    let mut shelf = NotedShelf::new(files, has_text(alloc, words)?);
    let mut clock = MemoryClock::new(vec![in alloc; 0]?, CallNumbers::new(alloc));
    let ended = run(
        alloc,
        words,
        &mut input,
        &mut output,
        &mut shelf,
        &mut MemoryKeeper::new(alloc),
        &mut clock,
    );
    let text = told(alloc, words, ended, shelf.seen())?;
    Ok(text.as_str() == want)
}

#[test]
fn a_person_is_told_what_went_wrong(rt: HostRuntime) -> Result<(), Fail> {
    for (words, bytes, want) in ROWS {
        let is = is_told(rt.alloc(), words, bytes, want)?;
        assert!(rt; is);
    }
    Ok(())
}
