//! As many later edits as are forgiven, and more.
use crate::steps::{Decided, Step, takes};
use object_cache::{Objects, Offered};
use rule_values::Kind::Execute;
use std::alloc::Global;
use std::test::Fail;

const A: &[u8] = b"com.example.a";

// The rule of priority 9 decided; so many edits come first, the first of all touches priority 9, the others 1.
#[rattlefmt::skip]
const ROWS: [(u32, u64, Offered); 6] = [
    (65,  1, Offered::Kept),
    (66,  1, Offered::Moved),
    (65,  0, Offered::Moved),
    (1,   0, Offered::Moved),
    (70,  6, Offered::Kept),
    (70,  5, Offered::Moved),
];

// Whether an outcome that was decided at this mark comes to this after so many edits.
fn comes_to(alloc: Global, edits: u32, since: u64, wanted: Offered) -> Option<bool> {
    let mut objects = Objects::with_room(alloc, 1).ok()?;
    for number in 0..edits {
        let priority = if number == 0 { 9 } else { 1 };
        takes(&mut objects, &Step::Purge(Execute, priority, 1))?;
    }
    let decided = Decided::Rule(9, 1, None);
    takes(
        &mut objects,
        &Step::Offer(Execute, A, decided, since, 0, false, wanted),
    )
}

#[test]
fn sixty_four_edits_are_forgiven_and_no_more(rt: HostRuntime) -> Result<(), Fail> {
    for (edits, since, wanted) in ROWS {
        let is = comes_to(rt.alloc(), edits, since, wanted);
        assert!(rt; is == Some(true));
    }
    Ok(())
}
