//! Sessions whose keeper fails, with replies that were worked out by hand.

use crate::sessions::is_session;
use std::alloc::Global;

// The keeper's call that fails, lines, and the replies.
#[rattlefmt::skip]
const SESSIONS: [(&str, u64, &[u8], &[u8]); 3] = [
    ("an edit that wasn't kept is tried again under its key", 2,
        b"add k1 execute allow 0 never - - always\nstatus\nadd k1 execute allow 0 never - - always\nadd k1 execute allow 0 never - - always\n",
        b"refused edit 16 KeeperFault\nstatus assessments=enabled rules=0 receipts=0 objects=0 now=0\nok edit=1 rules=1\nrepeated edit=1 rules=1\n"),
    ("an edit that wasn't kept drops no outcome and moves none", 3,
        b"add lo execute allow 1 never - - always\nassess execute 1111111111111111111111111111111111111111 com.example.app 0\nbegin 1 execute 2222222222222222222222222222222222222222 com.example.app 0\nadd hi execute deny 9 never - - always\nassess execute 1111111111111111111111111111111111111111 com.example.app 0\nfinish 1\nadd hi execute deny 9 never - - always\nstatus\n",
        b"ok edit=1 rules=1\naccepted at=0 rule=1 latent=none label=- override=none source=rules cache=kept\nbegun 1 at=0\nrefused edit 16 KeeperFault\naccepted at=0 rule=1 latent=none label=- override=none source=cache cache=none\naccepted at=0 rule=1 latent=none label=- override=none source=rules cache=kept\nok edit=2 rules=1\nstatus assessments=enabled rules=2 receipts=2 objects=0 now=0\n"),
    ("refused and repeated edits don't ask the keeper", 3,
        b"remove r id 1 any\nadd k1 execute allow 0 never - - always\nadd k1 execute allow 0 never - - always\nadd k1 execute deny 0 never - - always\nswitch s off\nswitch s off\n",
        b"refused edit 11 NoRule\nok edit=1 rules=1\nrepeated edit=1 rules=1\nrefused edit 12 KeyReused edit=1 rules=1\nrefused edit 16 KeeperFault\nok edit=2 rules=0\n"),
];

fn all_are(alloc: Global) -> bool {
    let facts = b"cdhash,scope,slot,key,kind,value\n";
    for (_name, failing, lines, replies) in SESSIONS {
        if is_session(alloc, facts, failing, lines, replies) != Some(true) {
            return false;
        }
    }
    true
}

#[test]
fn edits_that_are_not_kept_change_nothing(rt: HostRuntime) {
    assert!(rt; all_are(rt.alloc()));
}
