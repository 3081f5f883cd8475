//! Sessions over facts, whose replies were worked out by hand.

use crate::sessions::is_session;
use std::alloc::Global;

// What is known of one program, as `examples/facts.csv` has it.
#[rattlefmt::skip]
const FACTS: &[u8] = b"cdhash,scope,slot,key,kind,value\n1111111111111111111111111111111111111111,flag,,anchor-apple-generic,,\n1111111111111111111111111111111111111111,cert,0,,hash,aaaaaaaaaaaaaaaaaaaaaaaaaaaaaaaaaaaaaaaa\n1111111111111111111111111111111111111111,cert,1,,hash,bbbbbbbbbbbbbbbbbbbbbbbbbbbbbbbbbbbbbbbb\n1111111111111111111111111111111111111111,cert,2,,hash,cccccccccccccccccccccccccccccccccccccccc\n1111111111111111111111111111111111111111,cert-oid,1,1.2.840.113635.100.6.2.6,true,\n1111111111111111111111111111111111111111,cert-oid,0,1.2.840.113635.100.6.1.13,true,\n1111111111111111111111111111111111111111,cert-field,0,subject.OU,text,2DC432GLL2\n1111111111111111111111111111111111111111,info,,Version,text,10.9\n1111111111111111111111111111111111111111,info,,Build,text,007\n1111111111111111111111111111111111111111,info,,Tags,item,red\n1111111111111111111111111111111111111111,info,,Tags,item,blue\n1111111111111111111111111111111111111111,info,,Off,false,\n";

// Lines, and the replies.
#[rattlefmt::skip]
const SESSIONS: [(&str, &[u8], &[u8]); 6] = [
    ("the code of one developer",
        b"add d execute allow 0 never Developer%20ID - identifier \"com.example.app\" and anchor apple generic and certificate 1[field.1.2.840.113635.100.6.2.6] /* exists */ and certificate leaf[field.1.2.840.113635.100.6.1.13] /* exists */ and certificate leaf[subject.OU] = \"2DC432GLL2\"\nassess execute 1111111111111111111111111111111111111111 com.example.app 0\nassess execute 2222222222222222222222222222222222222222 com.example.app 0\n",
        b"ok edit=1 rules=1\naccepted at=0 rule=1 latent=none label=Developer%20ID override=none source=rules cache=kept\nrejected at=0 rule=none latent=none label=no%20matching%20rule override=none source=rules cache=kept\n"),
    ("numbers in a version",
        b"add a execute allow 0 never - - info[Version] < \"10.10\"\nassess execute 1111111111111111111111111111111111111111 com.example.app 0\nadd b execute deny 1 never - - info[Build] < \"7\"\nassess execute 1111111111111111111111111111111111111111 com.example.app 0\nadd c execute deny 2 never - - info[Build] <= \"7\"\nassess execute 1111111111111111111111111111111111111111 com.example.app 0\n",
        b"ok edit=1 rules=1\naccepted at=0 rule=1 latent=none label=- override=none source=rules cache=kept\nok edit=2 rules=1\naccepted at=0 rule=1 latent=none label=- override=none source=rules cache=kept\nok edit=3 rules=1\nrejected at=0 rule=3 latent=none label=- override=none source=rules cache=kept\n"),
    ("places of a chain",
        b"add a execute allow 0 never - - certificate 3[subject.OU] absent\nassess execute 1111111111111111111111111111111111111111 com.example.app 0\nadd b execute allow 0 never - - certificate leaf[subject.CN] absent\nassess execute 1111111111111111111111111111111111111111 com.example.app 0\nadd c execute deny 0.000001 never Root - certificate -1 = H\"cccccccccccccccccccccccccccccccccccccccc\"\nassess execute 1111111111111111111111111111111111111111 com.example.app 0\n",
        b"ok edit=1 rules=1\nrejected at=0 rule=none latent=none label=no%20matching%20rule override=none source=rules cache=kept\nok edit=2 rules=1\naccepted at=0 rule=2 latent=none label=- override=none source=rules cache=kept\nok edit=3 rules=1\nrejected at=0 rule=3 latent=none label=Root override=none source=rules cache=kept\n"),
    ("truth values and items",
        b"add a execute allow 0 never - - info[Off] or info[Off] absent\nassess execute 1111111111111111111111111111111111111111 com.example.app 0\nadd b execute allow 0 never Blue%20tag - info[Tags] = blue and info[Nope] absent\nassess execute 1111111111111111111111111111111111111111 com.example.app 0\nassess install 1111111111111111111111111111111111111111 com.example.app 0\n",
        b"ok edit=1 rules=1\nrejected at=0 rule=none latent=none label=no%20matching%20rule override=none source=rules cache=kept\nok edit=2 rules=1\naccepted at=0 rule=2 latent=none label=Blue%20tag override=none source=rules cache=kept\nrejected at=0 rule=none latent=none label=no%20matching%20rule override=none source=rules cache=kept\n"),
    ("a moment and an end",
        b"add a execute allow 10 1000 Developer%20ID default anchor apple generic\ntick 999\nassess execute 1111111111111111111111111111111111111111 com.example.app 0\nassess execute 2222222222222222222222222222222222222222 com.example.app 0\ntick 1000\nassess execute 1111111111111111111111111111111111111111 com.example.app 0\n",
        b"ok edit=1 rules=1\nnow=999\naccepted at=999 rule=1 latent=none label=Developer%20ID override=none source=rules cache=kept\nrejected at=999 rule=none latent=none label=no%20matching%20rule override=none source=rules cache=kept\nnow=1000\nrejected at=1000 rule=none latent=none label=no%20matching%20rule override=none source=rules cache=kept\n"),
    ("a latent rule, and the switch",
        b"add d execute allow 0 never Developer%20ID - anchor apple generic\ndisable b id 1 execute\nassess execute 1111111111111111111111111111111111111111 com.example.app 0\nassess execute 2222222222222222222222222222222222222222 com.example.app 0\nenable c label Developer%20ID any\nassess execute 1111111111111111111111111111111111111111 com.example.app 0\nremove e label Developer%20ID install\nswitch s off\nassess execute 2222222222222222222222222222222222222222 com.example.app 0\nstatus\n",
        b"ok edit=1 rules=1\nok edit=2 rules=1\nrejected at=0 rule=none latent=1 label=Developer%20ID override=none source=rules cache=kept\nrejected at=0 rule=none latent=none label=no%20matching%20rule override=none source=rules cache=kept\nok edit=3 rules=1\naccepted at=0 rule=1 latent=none label=Developer%20ID override=none source=rules cache=kept\nrefused edit 11 NoRule\nok edit=4 rules=0\naccepted at=0 rule=none latent=none label=no%20matching%20rule override=security%20disabled source=rules cache=kept\nstatus assessments=disabled rules=1 receipts=4 objects=2 now=0\n"),
];

fn all_are(alloc: Global) -> bool {
    for (_name, lines, replies) in SESSIONS {
        if is_session(alloc, FACTS, 0, lines, replies) != Some(true) {
            return false;
        }
    }
    true
}

#[test]
fn sessions_over_facts_are_answered(rt: HostRuntime) {
    assert!(rt; all_are(rt.alloc()));
}
