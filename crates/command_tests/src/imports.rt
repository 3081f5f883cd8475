//! Imports as commands, over one keeper.

use crate::running::{Named, Run, are_runs};
use gk_io::CallNumbers;
use memory_keeper::MemoryKeeper;
use raw_tables::{RawReceipts, RawRules, RawTables};
use spctl_cli::Status;
use std::alloc::{AllocError, Global};
use std::test::Fail;

const THREE: &[u8] = b"key,type,verdict,priority,expires,label,flags,requirement
i1,execute,allow,10,never,Developer ID,default,anchor apple generic
i2,execute,deny,20.5,4000000000,,-,\"identifier \"\"com.bad.app\"\"\"
i3,install,allow,-1,never,Own,-,always
";

const FILE: Named = ("i.csv", THREE);

#[rattlefmt::skip]
const TWICE: [Run; 4] = [
    (&["s", "import", "i.csv"], b"", Status::Fine, b"ok edit=1 rules=1\nok edit=2 rules=1\nok edit=3 rules=1\n"),
    (&["s", "import", "i.csv"], b"", Status::Fine, b"repeated edit=1 rules=1\nrepeated edit=2 rules=1\nrepeated edit=3 rules=1\n"),
    (&["s", "import", "j.csv"], b"", Status::FileMissing, b"fault FileMissing name=j.csv\n"),
    (&["s", "list"], b"", Status::Fine,
        b"rule=2 type=execute verdict=deny priority=20.5 disabled=0 expires=4000000000 flags=- label=- require=identifier%20\"com.bad.app\"\nrule=1 type=execute verdict=allow priority=10 disabled=0 expires=never flags=default label=Developer%20ID require=anchor%20apple%20generic\nrule=3 type=install verdict=allow priority=-1 disabled=0 expires=never flags=- label=Own require=always\n"),
];

// The keeper's first call is the load, and the third the change of the second row.
#[rattlefmt::skip]
const FAILING: [Run; 2] = [
    (&["s", "import", "i.csv"], b"", Status::Refused, b"ok edit=1 rules=1\nrefused edit 16 KeeperFault\nok edit=2 rules=1\n"),
    (&["s", "import", "i.csv"], b"", Status::Fine, b"repeated edit=1 rules=1\nok edit=3 rules=1\nrepeated edit=2 rules=1\n"),
];

/// Whether these runs over a new keeper, of which these calls fail, end so and write just this.
fn are_so(alloc: Global, failing: &[u64], runs: &[Run]) -> Result<bool, AllocError> {
    let mut calls = CallNumbers::new(alloc);
    for call in failing {
        calls.push(*call)?;
    }
    let tables = RawTables {
        format: 1,
        switch: 1,
        receipts: RawReceipts::new(alloc),
        rules: RawRules::new(alloc),
    };
    let mut keeper = MemoryKeeper::with(tables, calls);
    let all = are_runs(alloc, &mut keeper, FILE, runs)?;
    drop(keeper);
    Ok(all)
}

#[test]
fn an_import_may_come_again(rt: HostRuntime) -> Result<(), Fail> {
    let twice = are_so(rt.alloc(), &[], &TWICE)?;
    let failing = are_so(rt.alloc(), &[3], &FAILING)?;
    assert!(rt; twice && failing);
    Ok(())
}
