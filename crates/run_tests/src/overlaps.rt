//! Sessions of assessments that overlap with edits. The replies were worked out apart from the program.

use crate::transcripts::is_answered_so;
use std::alloc::{AllocError, Global};
use std::test::Fail;

// A higher rule comes between: the outcome is answered and not kept.
#[rattlefmt::skip]
const HIGHER: &[u8] = b"> add lo execute allow 1 never - - always
ok edit=1 rules=1
> begin 1 execute 1111111111111111111111111111111111111111 com.example.app 0
begun 1 at=0
> add hi execute deny 9 never - - always
ok edit=2 rules=1
> finish 1
accepted at=0 rule=1 latent=none label=- override=none source=rules cache=moved
> assess execute 1111111111111111111111111111111111111111 com.example.app 0
rejected at=0 rule=2 latent=none label=- override=none source=rules cache=kept
> assess execute 1111111111111111111111111111111111111111 com.example.app 0
rejected at=0 rule=2 latent=none label=- override=none source=cache cache=none
> status
status assessments=enabled rules=2 receipts=2 objects=1 now=0";

// A lower rule comes between: the outcome is kept, as the rule that decided is tried before it.
#[rattlefmt::skip]
const LOWER: &[u8] = b"> add lo execute allow 9 never - - always
ok edit=1 rules=1
> begin 1 execute 1111111111111111111111111111111111111111 com.example.app 0
begun 1 at=0
> add hi execute deny 1 never - - always
ok edit=2 rules=1
> finish 1
accepted at=0 rule=1 latent=none label=- override=none source=rules cache=kept
> assess execute 1111111111111111111111111111111111111111 com.example.app 0
accepted at=0 rule=1 latent=none label=- override=none source=cache cache=none
> assess execute 1111111111111111111111111111111111111111 com.example.app 0
accepted at=0 rule=1 latent=none label=- override=none source=cache cache=none
> add z execute deny 0 never - - always
ok edit=3 rules=1
> assess execute 1111111111111111111111111111111111111111 com.example.app 0
accepted at=0 rule=1 latent=none label=- override=none source=cache cache=none
> add y execute deny 10 never - - always
ok edit=4 rules=1
> assess execute 1111111111111111111111111111111111111111 com.example.app 0
rejected at=0 rule=4 latent=none label=- override=none source=rules cache=kept
> assess execute 1111111111111111111111111111111111111111 com.example.app 0
rejected at=0 rule=4 latent=none label=- override=none source=cache cache=none";

// The rule that decided is disabled, enabled, ended, given another end or removed meanwhile, or a rule of another kind is added.
#[rattlefmt::skip]
const CHANGED: &[u8] = b"> add a execute allow 5 100 A - always
ok edit=1 rules=1
> begin 1 execute 1111111111111111111111111111111111111111 com.example.app 0
begun 1 at=0
> begin 2 execute 2222222222222222222222222222222222222222 com.example.app 0
begun 2 at=0
> add b install deny 9 never - - always
ok edit=2 rules=1
> finish 1
accepted at=0 rule=1 latent=none label=A override=none source=rules cache=kept
> disable c id 1 any
ok edit=3 rules=1
> finish 2
accepted at=0 rule=1 latent=none label=A override=none source=rules cache=moved
> begin 3 execute 2222222222222222222222222222222222222222 com.example.app 0
begun 3 at=0
> enable d id 1 any
ok edit=4 rules=1
> finish 3
rejected at=0 rule=none latent=1 label=A override=none source=rules cache=moved
> begin 4 execute 2222222222222222222222222222222222222222 com.example.app 0
begun 4 at=0
> tick 100
now=100
> finish 4
accepted at=0 rule=1 latent=none label=A override=none source=rules cache=expired
> begin 5 execute 2222222222222222222222222222222222222222 com.example.app 0
begun 5 at=100
> tick 159
now=159
> finish 5
rejected at=100 rule=none latent=none label=no%20matching%20rule override=none source=rules cache=kept
> begin 6 execute 3333333333333333333333333333333333333333 com.example.app 0
begun 6 at=159
> expire e id 1 any never
ok edit=5 rules=1
> finish 6
rejected at=159 rule=none latent=none label=no%20matching%20rule override=none source=rules cache=moved
> begin 7 execute 3333333333333333333333333333333333333333 com.example.app 0
begun 7 at=159
> remove f id 1 any
ok edit=6 rules=1
> finish 7
accepted at=159 rule=1 latent=none label=A override=none source=rules cache=moved
> assess execute 3333333333333333333333333333333333333333 com.example.app 0
rejected at=159 rule=none latent=none label=no%20matching%20rule override=none source=rules cache=kept
> status
status assessments=enabled rules=1 receipts=6 objects=1 now=159";

// A rule of the flag inhibit, a moment that comes first, and what is answered as of its beginning.
#[rattlefmt::skip]
const INHIBITED: &[u8] = b"> add a execute allow 5 50 In inhibit always
ok edit=1 rules=1
> assess execute 1111111111111111111111111111111111111111 com.example.app 0
accepted at=0 rule=1 latent=none label=In override=none source=rules cache=inhibited
> assess execute 1111111111111111111111111111111111111111 com.example.app 0
accepted at=0 rule=1 latent=none label=In override=none source=rules cache=inhibited
> begin 1 execute 2222222222222222222222222222222222222222 com.example.app 0
begun 1 at=0
> begin 2 install 2222222222222222222222222222222222222222 com.example.app 0
begun 2 at=0
> begin 3 execute 2222222222222222222222222222222222222222 com.example.app 0
begun 3 at=0
> tick 50
now=50
> finish 1
accepted at=0 rule=1 latent=none label=In override=none source=rules cache=inhibited
> assess execute 1111111111111111111111111111111111111111 com.example.app 0
rejected at=50 rule=none latent=none label=no%20matching%20rule override=none source=rules cache=kept
> finish 3
accepted at=0 rule=1 latent=none label=In override=none source=rules cache=inhibited
> tick 60
now=60
> finish 2
rejected at=0 rule=none latent=none label=no%20matching%20rule override=none source=rules cache=expired
> assess install 2222222222222222222222222222222222222222 com.example.app 0
rejected at=60 rule=none latent=none label=no%20matching%20rule override=none source=rules cache=kept
> begin 4 install 2222222222222222222222222222222222222222 com.example.app 0
begun 4 at=60
> tick 120
now=120
> status
status assessments=enabled rules=1 receipts=1 objects=0 now=120
> finish 4
rejected at=60 rule=none latent=none label=no%20matching%20rule override=none source=cache cache=none
> status
status assessments=enabled rules=1 receipts=1 objects=0 now=120";

// What is kept when it begins is answered even where it is dropped meanwhile.
#[rattlefmt::skip]
const KNOWN: &[u8] = b"> add a execute allow 0 never - - always
ok edit=1 rules=1
> assess execute 1111111111111111111111111111111111111111 com.example.app 0
accepted at=0 rule=1 latent=none label=- override=none source=rules cache=kept
> begin 1 execute 1111111111111111111111111111111111111111 com.example.app 0
begun 1 at=0
> add b execute deny 9 never - - always
ok edit=2 rules=1
> finish 1
accepted at=0 rule=1 latent=none label=- override=none source=cache cache=none
> assess execute 1111111111111111111111111111111111111111 com.example.app 0
rejected at=0 rule=2 latent=none label=- override=none source=rules cache=kept
> begin 2 execute 1111111111111111111111111111111111111111 com.example.app 0
begun 2 at=0
> switch s off
ok edit=3 rules=0
> finish 2
rejected at=0 rule=2 latent=none label=- override=none source=cache cache=none
> assess execute 1111111111111111111111111111111111111111 com.example.app 0
accepted at=0 rule=2 latent=none label=- override=security%20disabled source=cache cache=none";

// What is answered when so many lower rules have come between.
#[rattlefmt::skip]
const MANY_LOWER: [(u16, &[u8]); 2] = [
    (64, b"> finish 1
accepted at=0 rule=1 latent=none label=- override=none source=rules cache=kept
> assess execute 1111111111111111111111111111111111111111 com.example.app 0
accepted at=0 rule=1 latent=none label=- override=none source=cache cache=none"),
    (65, b"> finish 1
accepted at=0 rule=1 latent=none label=- override=none source=rules cache=moved
> assess execute 1111111111111111111111111111111111111111 com.example.app 0
accepted at=0 rule=1 latent=none label=- override=none source=rules cache=kept"),
];

// A rule that decides what is begun, so many rules behind it, and these rows.
fn with_lower_rules(alloc: Global, lower: u16, rows: &[u8]) -> Result<Vec<u8>, AllocError> {
    let mut transcript = Vec::new(alloc);
    transcript.extend_from_slice(
        b"> add lo execute allow 9 never - - always\nok edit=1 rules=1\n",
    )?;
    transcript.extend_from_slice(
        b"> begin 1 execute 1111111111111111111111111111111111111111 com.example.app 0\nbegun 1 at=0\n",
    )?;
    for edit in 2..u32::from(lower) + 2 {
        let pair = format!(in alloc;
            "> add k{edit} execute deny 1 never - - always\nok edit={edit} rules=1\n"
        )?;
        transcript.extend_from_slice(pair.as_bytes())?;
    }
    transcript.extend_from_slice(rows)?;
    Ok(transcript)
}

#[test]
fn sixty_four_lower_rules_are_forgiven_and_no_more(rt: HostRuntime) -> Result<(), Fail> {
    for (lower, rows) in MANY_LOWER {
        let transcript = with_lower_rules(rt.alloc(), lower, rows)?;
        let is = is_answered_so(rt.alloc(), &transcript)?;
        assert!(rt; is);
    }
    Ok(())
}

#[test]
fn assessments_that_overlap_are_answered(rt: HostRuntime) -> Result<(), Fail> {
    for transcript in [HIGHER, LOWER, CHANGED, INHIBITED, KNOWN] {
        let is = is_answered_so(rt.alloc(), transcript)?;
        assert!(rt; is);
    }
    Ok(())
}
