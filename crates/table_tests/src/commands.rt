//! Edits, the status and the list.

use crate::pair::Pair;
use run_status::Status;
use std::alloc::Global;
use std::test::Fail;

#[derive(Clone, Copy, Drop)]
struct Row {
    line: &'static [u8],
    ended: Status,
    text: &'static [u8],
}

#[rattlefmt::skip]
const ROWS: [Row; 12] = [
    Row { line: b"add k1 execute allow 0 never Dev - always", ended: Status::Fine, text: b"ok edit=1 rules=1\n" },
    Row { line: b"add k1 execute allow 0.0 never Dev - always", ended: Status::Fine, text: b"repeated edit=1 rules=1\n" },
    Row { line: b"add k1 execute deny 0 never Dev - always", ended: Status::Refused, text: b"refused edit 12 KeyReused edit=1 rules=1\n" },
    Row { line: b"disable k2 label Dev any", ended: Status::Fine, text: b"ok edit=2 rules=1\n" },
    Row { line: b"disable k3 id 2 any", ended: Status::Refused, text: b"refused edit 11 NoRule\n" },
    Row { line: b"enable k4 id 1 execute", ended: Status::Fine, text: b"ok edit=3 rules=1\n" },
    Row { line: b"expire k5 id 1 any 900", ended: Status::Fine, text: b"ok edit=4 rules=1\n" },
    Row { line: b"switch k6 off", ended: Status::Fine, text: b"ok edit=5 rules=0\n" },
    Row { line: b"add k7 run allow", ended: Status::Refused, text: b"refused line 1 BadLine column=8\n" },
    Row { line: b"add k7 execute allow 0 never - - ?", ended: Status::Refused, text: b"refused line 2 BadRequirement 1 BadByte at=0\n" },
    Row { line: b"tick 7", ended: Status::Refused, text: b"refused line 1 BadLine column=1\n" },
    Row { line: b"", ended: Status::Refused, text: b"refused line 1 BadLine column=1\n" },
];

const LIST: &[u8] =
    b"rule=1 type=execute verdict=allow priority=0 disabled=0 expires=900 flags=- label=Dev require=always\n";

fn are_said(alloc: Global) -> Option<bool> {
    let mut pair = Pair::failing_at(alloc, 100)?;
    let mut all = pair.has_status(alloc, b"assessments enabled\n");
    for row in ROWS {
        all = pair.edits(alloc, row.line, row.ended, row.text) && all;
    }
    Some(all && pair.has_status(alloc, b"assessments disabled\n") && pair.has_list(alloc, LIST))
}

#[test]
fn each_command_says_its_line(rt: HostRuntime) -> Result<(), Fail> {
    assert!(rt; are_said(rt.alloc()) == Some(true));
    Ok(())
}

fn fails(alloc: Global) -> Option<bool> {
    let mut pair = Pair::failing_at(alloc, 2)?;
    let line = b"add k1 execute allow 0 never Dev - always";
    let failed = pair.edits(
        alloc,
        line,
        Status::Refused,
        b"refused edit 16 KeeperFault\n",
    );
    let unchanged = pair.has_list(alloc, b"");
    let made = pair.edits(alloc, line, Status::Fine, b"ok edit=1 rules=1\n");
    Some(failed & unchanged & made)
}

#[test]
fn an_edit_that_the_keeper_failed_is_refused(rt: HostRuntime) -> Result<(), Fail> {
    assert!(rt; fails(rt.alloc()) == Some(true));
    Ok(())
}
