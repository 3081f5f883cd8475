//! Files that are read: the edits of their rows, and the list of the rules that they make.

use authority_table::Table;
use import_csv::{Edits, read_rules};
use rule_edits::{Content, Edit, content_text};
use rule_list::list_text;
use rule_values::RuleId;
use std::alloc::{AllocError, Global};
use std::test::Fail;

const THREE: &[u8] = b"key,type,verdict,priority,expires,label,flags,requirement
i1,execute,allow,10,never,Developer ID,default,anchor apple generic
i2,execute,deny,20.5,4000000000,,-,\"identifier \"\"com.bad.app\"\"\"
i3,install,allow,-1,never,Own,-,always
";

// The same, with a byte order mark, quoted fields, blank lines, CR LF and no end of the last line.
const AGAIN: &[u8] =
    b"\xef\xbb\xbf\"key\",type,verdict,priority,\"expires\",label,flags,requirement\r
\r
\"i1\",execute,\"allow\",10,never,\"Developer ID\",default,\"anchor apple generic\"\r


\"i2\",execute,deny,20.5,4000000000,\"\",-,\"identifier \"\"com.bad.app\"\"\"\r
\ri3,install,allow,-1,never,Own,-,\"always";

#[derive(Clone, Copy, Drop)]
struct Row {
    key: &'static [u8],
    content: &'static [u8],
}

#[rattlefmt::skip]
const ROWS: [Row; 3] = [
    Row { key: b"i1", content: b"add execute allow 10 never Developer%20ID default anchor apple generic" },
    Row { key: b"i2", content: b"add execute deny 20.5 4000000000 - - identifier \"com.bad.app\"" },
    Row { key: b"i3", content: b"add install allow -1 never Own - always" },
];

fn edits(alloc: Global, bytes: &[u8]) -> Result<Edits, AllocError> {
    match read_rules(alloc, bytes) {
        Ok(edits) => Ok(edits),
        Err(_) => Err(AllocError),
    }
}

fn is_row(alloc: Global, edit: &Edit, row: &Row) -> Result<bool, AllocError> {
    let content = content_text(alloc, &edit.content)?;
    Ok(edit.key.as_slice() == row.key && content.as_slice() == row.content)
}

fn are_the_three(alloc: Global, bytes: &[u8]) -> Result<bool, AllocError> {
    let edits = edits(alloc, bytes)?;
    match edits.as_slice() {
        [first, second, third] => Ok(
            is_row(alloc, first, &ROWS[0])?
                & is_row(alloc, second, &ROWS[1])?
                & is_row(alloc, third, &ROWS[2])?,
        ),
        _ => Ok(false),
    }
}

#[test]
fn rows_are_read_as_their_edits(rt: HostRuntime) -> Result<(), Fail> {
    assert!(rt; are_the_three(rt.alloc(), THREE)?);
    assert!(rt; are_the_three(rt.alloc(), AGAIN)?);
    Ok(())
}

#[test]
fn a_header_alone_asks_for_nothing(rt: HostRuntime) -> Result<(), Fail> {
    let header = b"key,type,verdict,priority,expires,label,flags,requirement";
    assert!(rt; edits(rt.alloc(), header)?.as_slice().is_empty());
    Ok(())
}

/// The rules that edits add, numbered from 1.
fn table(alloc: Global, edits: &Edits) -> Result<Table, AllocError> {
    let mut table = Table::new(alloc);
    let mut number = 0;
    for edit in edits.as_slice() {
        number = table.count() + 1;
        if let (Content::Add(rule), Some(id)) = (&edit.content, RuleId::of(number)) {
            if !table.is_full() {
                table.push(rule.rule(alloc, id)?)?;
            }
        }
    }
    Ok(table)
}

const LIST: &[u8] =
    b"rule=2 type=execute verdict=deny priority=20.5 disabled=0 expires=4000000000 flags=- label=- require=identifier%20\"com.bad.app\"
rule=1 type=execute verdict=allow priority=10 disabled=0 expires=never flags=default label=Developer%20ID require=anchor%20apple%20generic
rule=3 type=install verdict=allow priority=-1 disabled=0 expires=never flags=- label=Own require=always
";

fn is_listed(alloc: Global, bytes: &[u8], wanted: &[u8]) -> Result<bool, AllocError> {
    let table = table(alloc, &edits(alloc, bytes)?)?;
    Ok(list_text(alloc, &table)?.as_slice() == wanted)
}

// Of equal priorities the lesser number comes first; bytes that aren't printable, and the one byte -, are written out.
const MIXED: &[u8] = b"key,type,verdict,priority,expires,label,flags,requirement
a,open,allow,0.000001,7,-,inhibit,always
b,install,deny,-0.5,never,%,default+inhibit,never
c,open,deny,0,0,a b\x7f,-,notarized
d,open,deny,0.000001,8,,-,\"identifier \"\"\xc3\xa9 %\"\"\"
";

const MIXED_LIST: &[u8] =
    b"rule=2 type=install verdict=deny priority=-0.5 disabled=0 expires=never flags=default+inhibit label=%25 require=never
rule=1 type=open verdict=allow priority=0.000001 disabled=0 expires=7 flags=inhibit label=%2D require=always
rule=4 type=open verdict=deny priority=0.000001 disabled=0 expires=8 flags=- label=- require=identifier%20\"%C3%A9%20%25\"
rule=3 type=open verdict=deny priority=0 disabled=0 expires=0 flags=- label=a%20b%7F require=notarized
";

#[test]
fn rules_are_listed_by_kind_and_rank(rt: HostRuntime) -> Result<(), Fail> {
    assert!(rt; is_listed(rt.alloc(), THREE, LIST)?);
    assert!(rt; is_listed(rt.alloc(), MIXED, MIXED_LIST)?);
    assert!(rt;
        list_text(rt.alloc(), &Table::new(rt.alloc()))?
            .as_slice()
            .is_empty()
    );
    Ok(())
}
