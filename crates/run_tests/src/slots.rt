//! Numbers of open assessments, and lines that fit no form of them. The replies were worked out apart from the program.

use crate::transcripts::is_answered_so;
use std::test::Fail;

// Numbers that are begun, free or written with zeros.
#[rattlefmt::skip]
const SLOTS: &[u8] = b"> begin 1 execute unsigned
begun 1 at=0
> begin 1 execute unsigned
refused session 21 SlotBusy
> finish 2
refused session 22 SlotEmpty
> finish 1
rejected at=0 rule=none latent=none label=no%20usable%20signature override=none source=unsigned cache=none
> finish 1
refused session 22 SlotEmpty
> assess execute
refused line 1 BadLine column=15
> tick  5
refused line 4 BadMoment
> begin 002 execute 1111111111111111111111111111111111111111 com.example.app 0
begun 2 at=0
> begin 2 install unsigned
refused session 21 SlotBusy
> finish 000002
rejected at=0 rule=none latent=none label=no%20matching%20rule override=none source=rules cache=kept
> begin 999999 open unsigned nocache
begun 999999 at=0
> finish 999999
rejected at=0 rule=none latent=none label=no%20usable%20signature override=none source=unsigned cache=none
> begin 000001 execute unsigned
begun 1 at=0
> tick 77
now=77
> finish 1
rejected at=0 rule=none latent=none label=no%20usable%20signature override=none source=unsigned cache=none
> status
status assessments=enabled rules=0 receipts=0 objects=0 now=77";

// Fifty that are begun, and one more.
#[rattlefmt::skip]
const FIFTY: &[u8] = b"> begin 1 execute unsigned
begun 1 at=0
> begin 2 execute unsigned
begun 2 at=0
> begin 3 execute unsigned
begun 3 at=0
> begin 4 execute unsigned
begun 4 at=0
> begin 5 execute unsigned
begun 5 at=0
> begin 6 execute unsigned
begun 6 at=0
> begin 7 execute unsigned
begun 7 at=0
> begin 8 execute unsigned
begun 8 at=0
> begin 9 execute unsigned
begun 9 at=0
> begin 10 execute unsigned
begun 10 at=0
> begin 11 execute unsigned
begun 11 at=0
> begin 12 execute unsigned
begun 12 at=0
> begin 13 execute unsigned
begun 13 at=0
> begin 14 execute unsigned
begun 14 at=0
> begin 15 execute unsigned
begun 15 at=0
> begin 16 execute unsigned
begun 16 at=0
> begin 17 execute unsigned
begun 17 at=0
> begin 18 execute unsigned
begun 18 at=0
> begin 19 execute unsigned
begun 19 at=0
> begin 20 execute unsigned
begun 20 at=0
> begin 21 execute unsigned
begun 21 at=0
> begin 22 execute unsigned
begun 22 at=0
> begin 23 execute unsigned
begun 23 at=0
> begin 24 execute unsigned
begun 24 at=0
> begin 25 execute unsigned
begun 25 at=0
> begin 26 execute unsigned
begun 26 at=0
> begin 27 execute unsigned
begun 27 at=0
> begin 28 execute unsigned
begun 28 at=0
> begin 29 execute unsigned
begun 29 at=0
> begin 30 execute unsigned
begun 30 at=0
> begin 31 execute unsigned
begun 31 at=0
> begin 32 execute unsigned
begun 32 at=0
> begin 33 execute unsigned
begun 33 at=0
> begin 34 execute unsigned
begun 34 at=0
> begin 35 execute unsigned
begun 35 at=0
> begin 36 execute unsigned
begun 36 at=0
> begin 37 execute unsigned
begun 37 at=0
> begin 38 execute unsigned
begun 38 at=0
> begin 39 execute unsigned
begun 39 at=0
> begin 40 execute unsigned
begun 40 at=0
> begin 41 execute unsigned
begun 41 at=0
> begin 42 execute unsigned
begun 42 at=0
> begin 43 execute unsigned
begun 43 at=0
> begin 44 execute unsigned
begun 44 at=0
> begin 45 execute unsigned
begun 45 at=0
> begin 46 execute unsigned
begun 46 at=0
> begin 47 execute unsigned
begun 47 at=0
> begin 48 execute unsigned
begun 48 at=0
> begin 49 execute unsigned
begun 49 at=0
> begin 50 execute unsigned
begun 50 at=0
> begin 51 execute unsigned
refused session 23 SlotsFull
> begin 50 execute unsigned
refused session 21 SlotBusy
> finish 51
refused session 22 SlotEmpty
> finish 7
rejected at=0 rule=none latent=none label=no%20usable%20signature override=none source=unsigned cache=none
> begin 51 execute unsigned
begun 51 at=0
> begin 7 execute unsigned
refused session 23 SlotsFull
> finish 50
rejected at=0 rule=none latent=none label=no%20usable%20signature override=none source=unsigned cache=none
> begin 7 execute unsigned
begun 7 at=0
> status
status assessments=enabled rules=0 receipts=0 objects=0 now=0";

// `begin` and `finish`, each word wrong in turn.
#[rattlefmt::skip]
const BEGUN: &[u8] = b"> begin  execute unsigned
refused line 1 BadLine column=7
> finish 
refused line 1 BadLine column=8
> begin x execute unsigned
refused line 1 BadLine column=7
> finish x
refused line 1 BadLine column=8
> begin 0 execute unsigned
refused line 1 BadLine column=7
> finish 0
refused line 1 BadLine column=8
> begin 000000 execute unsigned
refused line 1 BadLine column=7
> finish 000000
refused line 1 BadLine column=8
> begin 1000000 execute unsigned
refused line 1 BadLine column=7
> finish 1000000
refused line 1 BadLine column=8
> begin 0000001 execute unsigned
refused line 1 BadLine column=7
> finish 0000001
refused line 1 BadLine column=8
> begin -1 execute unsigned
refused line 1 BadLine column=7
> finish -1
refused line 1 BadLine column=8
> begin +1 execute unsigned
refused line 1 BadLine column=7
> finish +1
refused line 1 BadLine column=8
> begin 1.0 execute unsigned
refused line 1 BadLine column=7
> finish 1.0
refused line 1 BadLine column=8
> begin 1x execute unsigned
refused line 1 BadLine column=7
> finish 1x
refused line 1 BadLine column=8
> begin
refused line 1 BadLine column=6
> finish
refused line 1 BadLine column=7
> begin 1
refused line 1 BadLine column=8
> begin 1 
refused line 1 BadLine column=9
> begin 1 run unsigned
refused line 1 BadLine column=9
> begin 1 any unsigned
refused line 1 BadLine column=9
> begin 1 execute
refused line 1 BadLine column=16
> begin 1 execute 
refused line 1 BadLine column=17
> begin 1 execute Unsigned
refused line 1 BadLine column=17
> begin 1 execute 111111111111111111111111111111111111111
refused line 1 BadLine column=17
> begin 1 execute 1111111111111111111111111111111111111111
refused line 1 BadLine column=57
> begin 1 execute 1111111111111111111111111111111111111111 - 0
refused line 1 BadLine column=58
> begin 1 execute 1111111111111111111111111111111111111111 a%00 0
refused line 1 BadLine column=58
> begin 1 execute 1111111111111111111111111111111111111111 a
refused line 1 BadLine column=59
> begin 1 execute 1111111111111111111111111111111111111111 a 256
refused line 1 BadLine column=60
> begin 1 execute 1111111111111111111111111111111111111111 a 0 
refused line 1 BadLine column=62
> begin 1 execute 1111111111111111111111111111111111111111 a 0 cache
refused line 1 BadLine column=62
> begin 1 execute 1111111111111111111111111111111111111111 a 0 nocache 
refused line 1 BadLine column=70
> begin 1 execute unsigned 0
refused line 1 BadLine column=26
> begin 1 execute unsigned nocache x
refused line 1 BadLine column=34
> begin  1 execute unsigned
refused line 1 BadLine column=7
> begin x run
refused line 1 BadLine column=7
> begin 1 execute unsigned nocache nocache
refused line 1 BadLine column=34
> finish 1
refused session 22 SlotEmpty
> finish 1 
refused line 1 BadLine column=10
> finish 1 2
refused line 1 BadLine column=10
> finish  1
refused line 1 BadLine column=8
> finish 1 nocache
refused line 1 BadLine column=10
> status
status assessments=enabled rules=0 receipts=0 objects=0 now=0";

#[test]
fn numbers_of_open_assessments_are_answered(rt: HostRuntime) -> Result<(), Fail> {
    for transcript in [SLOTS, FIFTY, BEGUN] {
        let is = is_answered_so(rt.alloc(), transcript)?;
        assert!(rt; is);
    }
    Ok(())
}
