//! What a named facts file says of code, in sessions and assessments of the whole program.

use crate::running::{Named, Run, is_run, run_into};
use gk_io::{CallNumbers, MemorySink};
use memory_keeper::MemoryKeeper;
use spctl_cli::Status;
use std::alloc::{AllocError, Global};
use std::test::Fail;

// What is known of one program, as `examples/facts.csv` has it.
#[rattlefmt::skip]
const FACTS: &[u8] = b"cdhash,scope,slot,key,kind,value\n1111111111111111111111111111111111111111,flag,,anchor-apple-generic,,\n1111111111111111111111111111111111111111,cert,0,,hash,aaaaaaaaaaaaaaaaaaaaaaaaaaaaaaaaaaaaaaaa\n1111111111111111111111111111111111111111,cert,1,,hash,bbbbbbbbbbbbbbbbbbbbbbbbbbbbbbbbbbbbbbbb\n1111111111111111111111111111111111111111,cert,2,,hash,cccccccccccccccccccccccccccccccccccccccc\n1111111111111111111111111111111111111111,cert-oid,1,1.2.840.113635.100.6.2.6,true,\n1111111111111111111111111111111111111111,cert-oid,0,1.2.840.113635.100.6.1.13,true,\n1111111111111111111111111111111111111111,cert-field,0,subject.OU,text,2DC432GLL2\n1111111111111111111111111111111111111111,info,,Version,text,10.9\n1111111111111111111111111111111111111111,info,,Build,text,007\n1111111111111111111111111111111111111111,info,,Tags,item,red\n1111111111111111111111111111111111111111,info,,Tags,item,blue\n1111111111111111111111111111111111111111,info,,Off,false,\n";

const FILE: Named = ("facts.csv", FACTS);

const DEVELOPER: &[u8] =
    b"add d execute allow 0 never Developer%20ID - identifier \"com.example.app\" and anchor apple generic and certificate 1[field.1.2.840.113635.100.6.2.6] /* exists */ and certificate leaf[field.1.2.840.113635.100.6.1.13] /* exists */ and certificate leaf[subject.OU] = \"2DC432GLL2\"\nassess execute 1111111111111111111111111111111111111111 com.example.app 0\nassess execute 2222222222222222222222222222222222222222 com.example.app 0\n";

// A developer's code, with the facts and without; and where the facts aren't there, aren't in order, or are named twice.
#[rattlefmt::skip]
const RUNS: [Run; 7] = [
    (&["--facts", "facts.csv", ":memory:", "session"], DEVELOPER, Status::Fine,
        b"ok edit=1 rules=1\naccepted at=0 rule=1 latent=none label=Developer%20ID override=none source=rules cache=kept\nrejected at=0 rule=none latent=none label=no%20matching%20rule override=none source=rules cache=kept\n"),
    (&[":memory:", "session", "--facts=facts.csv"], DEVELOPER, Status::Fine,
        b"ok edit=1 rules=1\naccepted at=0 rule=1 latent=none label=Developer%20ID override=none source=rules cache=kept\nrejected at=0 rule=none latent=none label=no%20matching%20rule override=none source=rules cache=kept\n"),
    (&[":memory:", "session"], DEVELOPER, Status::Fine,
        b"ok edit=1 rules=1\nrejected at=0 rule=none latent=none label=no%20matching%20rule override=none source=rules cache=kept\nrejected at=0 rule=none latent=none label=no%20matching%20rule override=none source=rules cache=kept\n"),
    (&["--facts", "other.csv", ":memory:", "session"], DEVELOPER, Status::FileMissing, b"fault FileMissing name=other.csv\n"),
    (&["--facts", "other.csv", ":memory:", "status"], b"", Status::Fine, b"assessments enabled\n"),
    (&["--facts", "facts.csv", ":memory:", "session", "--facts", "facts.csv"], DEVELOPER, Status::Usage, b"usage: gatekeeper [--facts NAME] STORE COMMAND [WORDS]\n"),
    (&["--facts", "facts.csv", ":memory:", "assess", "execute", "facts.csv"], b"", Status::Refused, b"refused code 1 Super 2 BadMagic\n"),
];

// Requirements, and whether they are true of the program.
#[rattlefmt::skip]
const TEXTS: [(&[u8], bool); 14] = [
    (b"certificate 3[subject.OU]", false),
    (b"certificate 3[subject.OU] absent", false),
    (b"info[Off]", false),
    (b"info[Off] absent", false),
    (b"info[Build] = \"7\"", false),
    (b"certificate leaf[subject.CN] absent", true),
    (b"info[Nope] absent", true),
    (b"info[Tags] = blue", true),
    (b"certificate -1 = H\"cccccccccccccccccccccccccccccccccccccccc\"", true),
    (b"certificate 2 = H\"cccccccccccccccccccccccccccccccccccccccc\"", true),
    (b"info[Version] < \"10.10\"", true),
    (b"info[Build] <= \"7\"", true),
    (b"info[Build] >= \"7\"", true),
    (b"info[Build] < \"7\"", false),
];

const TRUE: &[u8] =
    b"ok edit=1 rules=1\naccepted at=0 rule=1 latent=none label=- override=none source=rules cache=kept\n";

const FALSE: &[u8] =
    b"ok edit=1 rules=1\nrejected at=0 rule=none latent=none label=no%20matching%20rule override=none source=rules cache=kept\n";

fn are_so(alloc: Global) -> Result<bool, AllocError> {
    let mut all = true;
    for asked in RUNS {
        let is = is_run(alloc, &mut MemoryKeeper::new(alloc), FILE, &asked)?;
        all = all && is;
    }
    Ok(all)
}

#[test]
fn a_facts_file_is_known_to_the_runs_that_name_it(rt: HostRuntime) -> Result<(), Fail> {
    let is = are_so(rt.alloc())?;
    assert!(rt; is);
    Ok(())
}

/// Whether the requirement is true of the program, or false.
fn is_said(alloc: Global, text: &[u8], holds: bool) -> Result<bool, AllocError> {
    let mut lines = b"add a execute allow 0 never - - ".to_vec(alloc)?;
    lines.extend_from_slice(text)?;
    lines.extend_from_slice(
        b"\nassess execute 1111111111111111111111111111111111111111 com.example.app 0\n",
    )?;
    let mut output = MemorySink::with_room(alloc, 1_000, CallNumbers::new(alloc))?;
    let ended = run_into(
        alloc,
        &mut MemoryKeeper::new(alloc),
        FILE,
        &["--facts", "facts.csv", ":memory:", "session"],
        lines.as_slice(),
        &mut output,
    )?;
    let said = if holds { TRUE } else { FALSE };
    let is = ended == Status::Fine && output.written() == said;
    drop(output);
    Ok(is)
}

#[test]
fn requirements_hold_by_the_facts(rt: HostRuntime) -> Result<(), Fail> {
    for (text, holds) in TEXTS {
        let is = is_said(rt.alloc(), text, holds)?;
        assert!(rt; is);
    }
    Ok(())
}
