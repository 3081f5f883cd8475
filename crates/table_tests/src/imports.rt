//! Imports: a reply a row, files that are refused, calls of the keeper that fail, and imports that come again.

use crate::pair::Pair;
use run_status::Status;
use std::alloc::Global;
use std::test::Fail;

const THREE: &[u8] = b"key,type,verdict,priority,expires,label,flags,requirement
i1,execute,allow,10,never,Developer ID,default,anchor apple generic
i2,execute,deny,20.5,4000000000,,-,\"identifier \"\"com.bad.app\"\"\"
i3,install,allow,-1,never,Own,-,always
";

const DONE: &[u8] = b"ok edit=1 rules=1\nok edit=2 rules=1\nok edit=3 rules=1\n";

const AGAIN: &[u8] = b"repeated edit=1 rules=1\nrepeated edit=2 rules=1\nrepeated edit=3 rules=1\n";

const LIST: &[u8] =
    b"rule=2 type=execute verdict=deny priority=20.5 disabled=0 expires=4000000000 flags=- label=- require=identifier%20\"com.bad.app\"
rule=1 type=execute verdict=allow priority=10 disabled=0 expires=never flags=default label=Developer%20ID require=anchor%20apple%20generic
rule=3 type=install verdict=allow priority=-1 disabled=0 expires=never flags=- label=Own require=always
";

fn comes_twice(alloc: Global) -> Option<bool> {
    let mut pair = Pair::failing_at(alloc, 100)?;
    let first = pair.imports(alloc, THREE, Status::Fine, DONE)?;
    let second = pair.imports(alloc, THREE, Status::Fine, AGAIN)?;
    let listed = pair.has_list(alloc, LIST);
    Some(first & second & listed)
}

#[test]
fn an_import_that_comes_twice_acts_as_once(rt: HostRuntime) -> Result<(), Fail> {
    assert!(rt; comes_twice(rt.alloc()) == Some(true));
    Ok(())
}

// Call 1 is the load, so call 3 is the second row's.
fn fails_once(alloc: Global) -> Option<bool> {
    let mut pair = Pair::failing_at(alloc, 3)?;
    let first = pair.imports(
        alloc,
        THREE,
        Status::Refused,
        b"ok edit=1 rules=1\nrefused edit 16 KeeperFault\nok edit=2 rules=1\n",
    )?;
    let second = pair.imports(
        alloc,
        THREE,
        Status::Fine,
        b"repeated edit=1 rules=1\nok edit=3 rules=1\nrepeated edit=2 rules=1\n",
    )?;
    Some(first & second)
}

#[test]
fn a_row_that_the_keeper_failed_is_made_when_it_comes_again(rt: HostRuntime) -> Result<(), Fail> {
    assert!(rt; fails_once(rt.alloc()) == Some(true));
    Ok(())
}

#[derive(Clone, Copy, Drop)]
struct Row {
    file: &'static [u8],
    line: &'static [u8],
}

#[rattlefmt::skip]
const REFUSED: [Row; 3] = [
    Row { file: b"key,type,verdict,priority,expires,flags,requirement\n", line: b"refused import 1 BadHeader\n" },
    Row { file: b"key,type,verdict,priority,expires,label,flags,requirement\nk,execute,allow,0,never,,-,always,\n", line: b"refused import 2 BadRow row=2 column=9\n" },
    Row { file: b"key,type,verdict,priority,expires,label,flags,requirement\nk,execute,allow,0,never,,-,always\nl,execute,allow,0,never,,-,alwayss\n", line: b"refused import 2 BadRow row=3 column=8\n" },
];

fn is_refused(alloc: Global, row: &Row) -> Option<bool> {
    let mut pair = Pair::failing_at(alloc, 100)?;
    let refused = pair.imports(alloc, row.file, Status::Refused, row.line)?;
    let empty = pair.has_list(alloc, b"");
    Some(refused & empty)
}

#[test]
fn nothing_is_done_of_a_file_that_is_refused(rt: HostRuntime) -> Result<(), Fail> {
    for row in REFUSED {
        assert!(rt; is_refused(rt.alloc(), &row) == Some(true));
    }
    Ok(())
}

fn is_missing(alloc: Global) -> Option<bool> {
    let mut pair = Pair::failing_at(alloc, 100)?;
    pair.imports_nothing(
        alloc,
        Status::FileMissing,
        b"fault FileMissing name=other.csv\n",
    )
}

#[test]
fn a_file_may_be_missing(rt: HostRuntime) -> Result<(), Fail> {
    assert!(rt; is_missing(rt.alloc()) == Some(true));
    Ok(())
}

// A row may be refused on its own: its key is kept with another rule.
fn is_mixed(alloc: Global) -> Option<bool> {
    let mut pair = Pair::failing_at(alloc, 100)?;
    let added = pair.edits(
        alloc,
        b"add i2 open deny 0 never - - always",
        Status::Fine,
        b"ok edit=1 rules=1\n",
    );
    let mixed = pair.imports(
        alloc,
        THREE,
        Status::Refused,
        b"ok edit=2 rules=1\nrefused edit 12 KeyReused edit=1 rules=1\nok edit=3 rules=1\n",
    )?;
    Some(added & mixed)
}

#[test]
fn a_row_may_be_refused_by_itself(rt: HostRuntime) -> Result<(), Fail> {
    assert!(rt; is_mixed(rt.alloc()) == Some(true));
    Ok(())
}
