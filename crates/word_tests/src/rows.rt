//! Each row of the table of commands, with its words, too few, too many and wrong ones; the option for facts.

use crate::shown::show;
use command_words::{WordsFault, read_words, store_word};
use std::alloc::Global;

// Words, and the command line that they are; none is the usage line.
#[rattlefmt::skip]
const ROWS: [(&[&str], Option<&[u8]>); 68] = [
    (&[], None),
    (&[":memory:"], None),
    (&[":memory:", "frob"], None),
    (&[":memory:", ""], None),
    (&["session"], None),

    (&[":memory:", "session"], Some(b":memory:|session|")),
    (&["rules.db", "session"], Some(b"rules.db|session|")),
    (&["", "session"], Some(b"|session|")),
    (&[":memory:", "session", "more"], None),
    (&[":memory:", "Session"], None),
    (&[":memory:", "session "], None),

    (&["s", "compile", "a"], Some(b"s|compile|a|")),
    (&["s", "compile", ""], Some(b"s|compile||")),
    (&["s", "compile"], None),
    (&["s", "compile", "a", "b"], None),
    (&["s", "compileset", "a"], Some(b"s|compileset|a|")),
    (&["s", "compileset"], None),
    (&["s", "compileset", "a", "b"], None),
    (&["s", "dump", "a"], Some(b"s|dump|a|")),
    (&["s", "dump"], None),
    (&["s", "dump", "a", "b"], None),

    (&["s", "assess", "execute", "a"], Some(b"s|assess|execute|a|no code|")),
    (&["s", "assess", "install", "a", "b"], Some(b"s|assess|install|a|b|")),
    (&["s", "assess", "open", "a", ""], Some(b"s|assess|open|a||")),
    (&["s", "assess"], None),
    (&["s", "assess", "execute"], None),
    (&["s", "assess", "any", "a"], None),
    (&["s", "assess", "execute", "a", "b", "c"], None),

    (&["s", "add", "k1", "execute", "allow", "0", "never", "-", "-", "always"], Some(b"s|edit|add k1 execute allow 0 never - - always")),
    (&["s", "add"], Some(b"s|edit|add")),
    (&["s", "add", "", "x y"], Some(b"s|edit|add  x y")),
    (&["s", "add", "k", "execute", "allow", "-1", "never", "-", "-", "always"], None),
    (&["s", "add", "--", "k", "execute", "allow", "-1", "never", "-", "-", "always"], Some(b"s|edit|add k execute allow -1 never - - always")),
    (&["s", "--", "add", "k", "--x"], Some(b"s|edit|add k --x")),
    (&["s", "add", "--", "--"], Some(b"s|edit|add --")),
    (&["s", "remove", "k", "id", "1", "any"], Some(b"s|edit|remove k id 1 any")),
    (&["s", "remove"], Some(b"s|edit|remove")),
    (&["s", "enable", "k"], Some(b"s|edit|enable k")),
    (&["s", "disable", "k"], Some(b"s|edit|disable k")),
    (&["s", "expire", "k"], Some(b"s|edit|expire k")),
    (&["s", "switch", "k", "off"], Some(b"s|edit|switch k off")),
    (&["s", "switch", "k", "off", "and", "more"], Some(b"s|edit|switch k off and more")),
    (&["s", "Add", "k"], None),

    (&["s", "status"], Some(b"s|status|")),
    (&["s", "status", "a"], None),
    (&["s", "list"], Some(b"s|list|")),
    (&["s", "list", "execute"], None),
    (&["s", "import", "a.csv"], Some(b"s|import|a.csv|")),
    (&["s", "import"], None),
    (&["s", "import", "a", "b"], None),

    (&["s", "rehearse", "1"], Some(b"s|rehearse|\0\0\0\x01")),
    (&["s", "rehearse", "10000"], Some(b"s|rehearse|\0\0\x27\x10")),
    (&["s", "rehearse", "10001"], None),
    (&["s", "rehearse", "0"], None),
    (&["s", "rehearse", "01"], None),
    (&["s", "rehearse", "+1"], None),
    (&["s", "rehearse", ""], None),
    (&["s", "rehearse"], None),
    (&["s", "rehearse", "1", "2"], None),

    (&["--facts", "f", "s", "session"], Some(b"s|facts|f|session|")),
    (&["s", "session", "--facts", "f"], Some(b"s|facts|f|session|")),
    (&["s", "--facts=f", "compile", "a"], Some(b"s|facts|f|compile|a|")),
    (&["s", "session", "--facts"], None),
    (&["--facts", "f", "s", "session", "--facts", "g"], None),
    (&["s", "add", "--", "--facts", "f"], Some(b"s|edit|add --facts f")),
    (&["s", "session", "--fact", "f"], None),
    (&["s", "session", "-f"], None),
    (&["--help"], None),
];

fn row_is_right(alloc: Global, words: &[&str], want: Option<&[u8]>) -> bool {
    match (read_words(alloc, words), want) {
        (Ok(line), Some(want)) => {
            let mut text = Vec::new(alloc);
            let is = show(&mut text, &line).is_ok() && text.as_slice() == want;
            drop(line);
            is
        }
        (Err(fault), None) => fault == WordsFault::Usage,
        _ => false,
    }
}

fn rows_are_right(alloc: Global) -> bool {
    for (words, want) in ROWS {
        if !row_is_right(alloc, words, want) {
            return false;
        }
    }
    true
}

#[test]
fn each_row_of_the_table_is_read(rt: HostRuntime) {
    assert!(rt; rows_are_right(rt.alloc()));
}

// Words, and the store that they name.
#[rattlefmt::skip]
const STORES: [(&[&str], &str); 5] = [
    (&["rules.db", "status"], "rules.db"),
    (&["--facts", "f", "rules.db", "rehearse", "7"], "rules.db"),
    (&["rules.db", "frob"], ":memory:"),
    (&["rules.db"], ":memory:"),
    (&[], ":memory:"),
];

fn stores_are_right(alloc: Global) -> bool {
    for (words, want) in STORES {
        let is = match store_word(alloc, words) {
            Ok(store) => store == want,
            Err(_) => false,
        };
        if !is {
            return false;
        }
    }
    true
}

#[test]
fn the_store_is_the_first_word(rt: HostRuntime) {
    assert!(rt; stores_are_right(rt.alloc()));
}
