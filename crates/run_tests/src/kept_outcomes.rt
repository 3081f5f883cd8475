//! Sessions of outcomes that are kept and dropped. The replies were worked out apart from the program.

use crate::transcripts::is_answered_so;
use std::test::Fail;

// Two that are begun at once, and one that is not to be kept.
#[rattlefmt::skip]
const TWICE: &[u8] = b"> begin 1 execute 1111111111111111111111111111111111111111 com.example.app 0
begun 1 at=0
> begin 2 execute 1111111111111111111111111111111111111111 com.example.app 0
begun 2 at=0
> finish 1
rejected at=0 rule=none latent=none label=no%20matching%20rule override=none source=rules cache=kept
> finish 2
rejected at=0 rule=none latent=none label=no%20matching%20rule override=none source=rules cache=twice
> assess install 1111111111111111111111111111111111111111 com.example.app 0 nocache
rejected at=0 rule=none latent=none label=no%20matching%20rule override=none source=rules cache=inhibited
> assess install 1111111111111111111111111111111111111111 com.example.app 0
rejected at=0 rule=none latent=none label=no%20matching%20rule override=none source=rules cache=kept
> assess install 1111111111111111111111111111111111111111 com.example.app 0 nocache
rejected at=0 rule=none latent=none label=no%20matching%20rule override=none source=cache cache=none
> begin 3 open 1111111111111111111111111111111111111111 com.example.app 0 nocache
begun 3 at=0
> finish 3
rejected at=0 rule=none latent=none label=no%20matching%20rule override=none source=rules cache=inhibited
> status
status assessments=enabled rules=0 receipts=0 objects=2 now=0
> assess execute 1111111111111111111111111111111111111111 com.example.app 0
rejected at=0 rule=none latent=none label=no%20matching%20rule override=none source=cache cache=none";

// Outcomes are kept up to the end of their rule.
#[rattlefmt::skip]
const ENDS: &[u8] = b"> add a execute allow 9 100 - - always
ok edit=1 rules=1
> add b execute deny 1 never - - always
ok edit=2 rules=1
> tick 98
now=98
> assess execute 1111111111111111111111111111111111111111 com.example.app 0
accepted at=98 rule=1 latent=none label=- override=none source=rules cache=kept
> tick 99
now=99
> assess execute 1111111111111111111111111111111111111111 com.example.app 0
accepted at=99 rule=1 latent=none label=- override=none source=cache cache=none
> tick 100
now=100
> assess execute 1111111111111111111111111111111111111111 com.example.app 0
rejected at=100 rule=2 latent=none label=- override=none source=rules cache=kept
> status
status assessments=enabled rules=2 receipts=2 objects=1 now=100
> tick 99
now=100
> assess execute 1111111111111111111111111111111111111111 com.example.app 0
rejected at=100 rule=2 latent=none label=- override=none source=cache cache=none";

// A denial by no rule is kept for sixty seconds.
#[rattlefmt::skip]
const SIXTY: &[u8] = b"> tick 200
now=200
> tick 100
now=200
> assess execute 1111111111111111111111111111111111111111 com.example.app 0
rejected at=200 rule=none latent=none label=no%20matching%20rule override=none source=rules cache=kept
> tick 259
now=259
> status
status assessments=enabled rules=0 receipts=0 objects=1 now=259
> assess execute 1111111111111111111111111111111111111111 com.example.app 0
rejected at=259 rule=none latent=none label=no%20matching%20rule override=none source=cache cache=none
> tick 260
now=260
> status
status assessments=enabled rules=0 receipts=0 objects=0 now=260
> assess execute 1111111111111111111111111111111111111111 com.example.app 0
rejected at=260 rule=none latent=none label=no%20matching%20rule override=none source=rules cache=kept
> assess execute 1111111111111111111111111111111111111111 com.example.app 0
rejected at=260 rule=none latent=none label=no%20matching%20rule override=none source=cache cache=none
> status
status assessments=enabled rules=0 receipts=0 objects=1 now=260";

// One that names a disabled rule is kept no longer than that rule.
#[rattlefmt::skip]
const LATENT: &[u8] = b"> add a execute allow 0 30 Old - always
ok edit=1 rules=1
> disable b id 1 any
ok edit=2 rules=1
> assess execute 1111111111111111111111111111111111111111 com.example.app 0
rejected at=0 rule=none latent=1 label=Old override=none source=rules cache=kept
> tick 29
now=29
> assess execute 1111111111111111111111111111111111111111 com.example.app 0
rejected at=29 rule=none latent=1 label=Old override=none source=cache cache=none
> tick 30
now=30
> status
status assessments=enabled rules=1 receipts=2 objects=0 now=30
> assess execute 1111111111111111111111111111111111111111 com.example.app 0
rejected at=30 rule=none latent=none label=no%20matching%20rule override=none source=rules cache=kept
> status
status assessments=enabled rules=1 receipts=2 objects=1 now=30";

// The switch drops nothing, and what is kept is the outcome before it.
#[rattlefmt::skip]
const OVERRIDE: &[u8] = b"> add d execute deny 0 never Blocked - always
ok edit=1 rules=1
> switch s1 off
ok edit=2 rules=0
> assess execute 1111111111111111111111111111111111111111 com.example.app 0
accepted at=0 rule=1 latent=none label=Blocked override=security%20disabled source=rules cache=kept
> status
status assessments=disabled rules=1 receipts=2 objects=1 now=0
> switch s2 on
ok edit=3 rules=0
> assess execute 1111111111111111111111111111111111111111 com.example.app 0
rejected at=0 rule=1 latent=none label=Blocked override=none source=cache cache=none
> begin 7 execute 1111111111111111111111111111111111111111 com.example.app 0
begun 7 at=0
> switch s3 off
ok edit=4 rules=0
> assess execute 1111111111111111111111111111111111111111 com.example.app 0
accepted at=0 rule=1 latent=none label=Blocked override=security%20disabled source=cache cache=none
> finish 7
rejected at=0 rule=1 latent=none label=Blocked override=none source=cache cache=none
> status
status assessments=disabled rules=1 receipts=4 objects=1 now=0";

// A rule that is disabled or enabled drops what rests on it.
#[rattlefmt::skip]
const COUNTED: &[u8] = b"> add a execute allow 0 never Dev%20ID - always
ok edit=1 rules=1
> disable b id 1 execute
ok edit=2 rules=1
> assess execute 1111111111111111111111111111111111111111 com.example.app 0
rejected at=0 rule=none latent=1 label=Dev%20ID override=none source=rules cache=kept
> assess execute 1111111111111111111111111111111111111111 com.example.app 0
rejected at=0 rule=none latent=1 label=Dev%20ID override=none source=cache cache=none
> enable c label Dev%20ID any
ok edit=3 rules=1
> assess execute 1111111111111111111111111111111111111111 com.example.app 0
accepted at=0 rule=1 latent=none label=Dev%20ID override=none source=rules cache=kept
> assess execute 1111111111111111111111111111111111111111 com.example.app 0
accepted at=0 rule=1 latent=none label=Dev%20ID override=none source=cache cache=none
> disable d id 1 any
ok edit=4 rules=1
> status
status assessments=enabled rules=1 receipts=4 objects=0 now=0
> assess execute 1111111111111111111111111111111111111111 com.example.app 0
rejected at=0 rule=none latent=1 label=Dev%20ID override=none source=rules cache=kept
> remove e id 1 any
ok edit=5 rules=1
> assess execute 1111111111111111111111111111111111111111 com.example.app 0
rejected at=0 rule=none latent=none label=no%20matching%20rule override=none source=rules cache=kept
> assess execute 1111111111111111111111111111111111111111 com.example.app 0
rejected at=0 rule=none latent=none label=no%20matching%20rule override=none source=cache cache=none";

// Edits of other kinds, and those that touch no rule above, leave what is kept.
#[rattlefmt::skip]
const KINDS: &[u8] = b"> add a execute allow 5 never A - always
ok edit=1 rules=1
> add b install allow 5 never A - always
ok edit=2 rules=1
> add c execute deny 1 never C - always
ok edit=3 rules=1
> assess execute 1111111111111111111111111111111111111111 com.example.app 0
accepted at=0 rule=1 latent=none label=A override=none source=rules cache=kept
> assess install 1111111111111111111111111111111111111111 com.example.app 0
accepted at=0 rule=2 latent=none label=A override=none source=rules cache=kept
> assess open 1111111111111111111111111111111111111111 com.example.app 0
rejected at=0 rule=none latent=none label=no%20matching%20rule override=none source=rules cache=kept
> status
status assessments=enabled rules=3 receipts=3 objects=3 now=0
> disable d label C any
ok edit=4 rules=1
> status
status assessments=enabled rules=3 receipts=4 objects=3 now=0
> assess execute 1111111111111111111111111111111111111111 com.example.app 0
accepted at=0 rule=1 latent=none label=A override=none source=cache cache=none
> expire e id 3 any 99
ok edit=5 rules=1
> status
status assessments=enabled rules=3 receipts=5 objects=3 now=0
> assess execute 1111111111111111111111111111111111111111 com.example.app 0
accepted at=0 rule=1 latent=none label=A override=none source=cache cache=none
> enable f label A install
ok edit=6 rules=1
> status
status assessments=enabled rules=3 receipts=6 objects=2 now=0
> assess install 1111111111111111111111111111111111111111 com.example.app 0
accepted at=0 rule=2 latent=none label=A override=none source=rules cache=kept
> assess execute 1111111111111111111111111111111111111111 com.example.app 0
accepted at=0 rule=1 latent=none label=A override=none source=cache cache=none
> add g open deny 0 never - - always
ok edit=7 rules=1
> status
status assessments=enabled rules=4 receipts=7 objects=2 now=0
> remove h label A any
ok edit=8 rules=2
> status
status assessments=enabled rules=2 receipts=8 objects=0 now=0
> assess execute 1111111111111111111111111111111111111111 com.example.app 0
rejected at=0 rule=none latent=3 label=C override=none source=rules cache=kept";

#[test]
fn outcomes_are_kept_and_dropped(rt: HostRuntime) -> Result<(), Fail> {
    for transcript in [TWICE, ENDS, SIXTY, LATENT, OVERRIDE, COUNTED, KINDS] {
        let is = is_answered_so(rt.alloc(), transcript)?;
        assert!(rt; is);
    }
    Ok(())
}
