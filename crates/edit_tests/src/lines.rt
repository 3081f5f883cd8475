//! Lines of edits that are read: the key, and the canonical text of what the other words ask for.

use rule_edits::{Edit, content_is, content_text, read_edit_line};
use std::alloc::Global;
use std::test::Fail;

struct Row {
    line: &'static [u8],
    key: &'static [u8],
    content: &'static [u8],
}

#[rattlefmt::skip]
const ROWS: [Row; 24] = [
    Row { line: b"add k1 execute allow 0 never - - always", key: b"k1", content: b"add execute allow 0 never - - always" },
    Row { line: b"add K.a_-9 install deny -0.50 0 Old%20name default true", key: b"K.a_-9", content: b"add install deny -0.5 0 Old%20name default true" },
    Row { line: b"add a open allow 0000020.500000 000100 %61 inhibit ( always )", key: b"a", content: b"add open allow 20.5 100 a inhibit ( always )" },
    Row { line: b"add a execute deny 1000000.000000 253402300799 %2d default+inhibit always # why", key: b"a", content: b"add execute deny 1000000 253402300799 %2D default+inhibit always # why" },
    Row { line: b"add a execute deny -1000000 never -- -  always ", key: b"a", content: b"add execute deny -1000000 never -- -  always " },
    Row { line: b"add a execute deny -0 never - - always", key: b"a", content: b"add execute deny 0 never - - always" },
    Row { line: b"add a execute deny 0.000001 never - - always", key: b"a", content: b"add execute deny 0.000001 never - - always" },
    Row { line: b"add a execute deny 7.100000 never - - identifier \"com.bad.app\"", key: b"a", content: b"add execute deny 7.1 never - - identifier \"com.bad.app\"" },
    Row { line: b"remove k id 1 any", key: b"k", content: b"remove id 1 any" },
    Row { line: b"remove k id 000001 execute", key: b"k", content: b"remove id 1 execute" },
    Row { line: b"remove k id 100000 install", key: b"k", content: b"remove id 100000 install" },
    Row { line: b"remove k label a open", key: b"k", content: b"remove label a open" },
    Row { line: b"remove k label id any", key: b"k", content: b"remove label id any" },
    Row { line: b"enable k id 2 any", key: b"k", content: b"enable id 2 any" },
    Row { line: b"enable k label Old%20name execute", key: b"k", content: b"enable label Old%20name execute" },
    Row { line: b"enable k label %2D any", key: b"k", content: b"enable label %2D any" },
    Row { line: b"disable k id 002 any", key: b"k", content: b"disable id 2 any" },
    Row { line: b"disable k label %25 open", key: b"k", content: b"disable label %25 open" },
    Row { line: b"expire k id 7 any never", key: b"k", content: b"expire id 7 any never" },
    Row { line: b"expire k id 7 any 00", key: b"k", content: b"expire id 7 any 0" },
    Row { line: b"expire k label -- install 253402300799", key: b"k", content: b"expire label -- install 253402300799" },
    Row { line: b"switch k on", key: b"k", content: b"switch on" },
    Row { line: b"switch k off", key: b"k", content: b"switch off" },
    Row { line: b"switch 0123456789012345678901234567890123456789012345678901234567890123 off", key: b"0123456789012345678901234567890123456789012345678901234567890123", content: b"switch off" },
];

fn says(alloc: Global, edit: &Edit, row: &Row) -> bool {
    let named = edit.key.as_slice() == row.key;
    let is = content_is(&edit.content, row.content);
    match content_text(alloc, &edit.content) {
        Ok(text) => named && is && text.as_slice() == row.content,
        Err(_) => false,
    }
}

fn is_read(alloc: Global, row: &Row) -> bool {
    match read_edit_line(alloc, row.line) {
        Ok(edit) => says(alloc, &edit, row),
        Err(_) => false,
    }
}

fn all_read(alloc: Global) -> bool {
    let mut all = true;
    for row in &ROWS {
        all = all && is_read(alloc, row);
    }
    all
}

#[test]
fn lines_are_read(rt: HostRuntime) {
    assert!(rt; all_read(rt.alloc()));
}
