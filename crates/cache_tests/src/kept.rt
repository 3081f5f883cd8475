//! Which outcomes are kept, and until when.
use crate::steps::{Decided, Step, takes};
use object_cache::{Objects, Offered};
use object_model::limits::MOST_ENTRIES;
use rule_values::Kind::{Document, Execute, Install};
use std::alloc::Global;
use std::test::Fail;

const A: &[u8] = b"com.example.a";

const B: &[u8] = b"com.example.b";

// how many of the steps come to what they are to come to, up to the first that doesn't
fn taken(alloc: Global, room: usize, steps: &[Step]) -> usize {
    if room > MOST_ENTRIES {
        return 0;
    }
    let Ok(mut objects) = Objects::with_room(alloc, room) else {
        return 0;
    };
    let mut count = 0;
    for (place, step) in steps.iter().enumerate() {
        if takes(&mut objects, step) != Some(true) {
            return place;
        }
        count = place + 1;
    }
    count
}

// Each refusal where it is the first, with room for two.
#[rattlefmt::skip]
const REFUSALS: [Step; 12] = [
    Step::Offer(Execute, A, Decided::Rule(5, 1, None), 0, 0, false, Offered::Kept),
    Step::Offer(Execute, A, Decided::Rule(5, 1, None), 0, 0, true, Offered::Inhibited),
    Step::Offer(Execute, B, Decided::RuleThatInhibits(5, 1), 0, 0, false, Offered::Inhibited),
    Step::Offer(Execute, A, Decided::Rule(5, 1, None), 0, 0, false, Offered::Twice),
    Step::Offer(Execute, B, Decided::Rule(5, 1, Some(9)), 0, 9, false, Offered::Expired),
    Step::Offer(Execute, A, Decided::Default(9), 0, 9, false, Offered::Expired),
    Step::Offer(Install, A, Decided::Default(60), 0, 0, false, Offered::Kept),
    Step::Offer(Document, A, Decided::Default(60), 0, 0, false, Offered::Full),
    Step::Offer(Install, A, Decided::Default(60), 0, 0, false, Offered::Twice),
    Step::Purge(Document, 0, 1),
    Step::Offer(Document, A, Decided::Default(60), 0, 60, false, Offered::Moved),
    Step::Offer(Document, A, Decided::Default(70), 1, 60, false, Offered::Kept),
];

// An edit drops what rests on a rule that it touched, in its kind alone.
#[rattlefmt::skip]
const PURGES: [Step; 15] = [
    Step::Offer(Execute, A, Decided::Rule(5, 2, None), 0, 0, false, Offered::Kept),
    Step::Offer(Execute, B, Decided::Default(60), 0, 0, false, Offered::Kept),
    Step::Offer(Install, A, Decided::Default(60), 0, 0, false, Offered::Kept),
    Step::Purge(Execute, 5, 3),
    Step::Find(Execute, A, 0, true),
    Step::Find(Execute, B, 0, false),
    Step::Find(Install, A, 0, true),
    Step::Purge(Execute, 5, 2),
    Step::Find(Execute, A, 0, false),
    Step::Offer(Execute, A, Decided::Rule(5, 2, None), 2, 0, false, Offered::Kept),
    Step::Purge(Execute, 6, 9),
    Step::Find(Execute, A, 0, false),
    Step::Mark(Execute, 3),
    Step::Mark(Install, 0),
    Step::Live(0, 1),
];

// A default of moment 200 is kept for 60 seconds; what has ended holds no room.
#[rattlefmt::skip]
const ENDS: [Step; 8] = [
    Step::Offer(Execute, A, Decided::Default(260), 0, 200, false, Offered::Kept),
    Step::Find(Execute, A, 259, true),
    Step::Live(259, 1),
    Step::Offer(Execute, B, Decided::Default(319), 0, 259, false, Offered::Full),
    Step::Find(Execute, A, 260, false),
    Step::Live(260, 0),
    Step::Offer(Execute, A, Decided::Default(320), 0, 260, false, Offered::Kept),
    Step::Live(260, 1),
];

// What has ended makes room before it is said that there is none.
#[rattlefmt::skip]
const ROOM: [Step; 5] = [
    Step::Offer(Execute, A, Decided::Default(60), 0, 0, false, Offered::Kept),
    Step::Offer(Execute, B, Decided::Default(60), 0, 0, false, Offered::Kept),
    Step::Offer(Install, A, Decided::Default(61), 0, 59, false, Offered::Full),
    Step::Offer(Install, A, Decided::Default(61), 0, 60, false, Offered::Kept),
    Step::Live(60, 1),
];

// Edits behind the rule that decided leave an outcome, and one that isn't behind it moves it.
#[rattlefmt::skip]
const BEHIND: [Step; 9] = [
    Step::Purge(Execute, 5, 3),
    Step::Purge(Install, 9, 4),
    Step::Offer(Execute, A, Decided::Rule(5, 2, None), 0, 0, false, Offered::Kept),
    Step::Offer(Execute, B, Decided::Rule(5, 3, None), 0, 0, false, Offered::Moved),
    Step::Offer(Execute, B, Decided::Rule(5, 3, None), 1, 0, false, Offered::Kept),
    Step::Purge(Execute, 6, 5),
    Step::Offer(Execute, A, Decided::Rule(5, 2, None), 0, 0, false, Offered::Moved),
    Step::Offer(Execute, A, Decided::Default(60), 1, 0, false, Offered::Moved),
    Step::Offer(Execute, A, Decided::Default(60), 2, 0, false, Offered::Kept),
];

const NO_ROOM: [Step; 1] = [Step::Offer(
    Execute,
    A,
    Decided::Default(60),
    0,
    0,
    false,
    Offered::Full,
)];

#[test]
fn each_refusal_comes_where_it_is_the_first(rt: HostRuntime) -> Result<(), Fail> {
    assert!(rt; taken(rt.alloc(), 2, &REFUSALS) == REFUSALS.len());
    Ok(())
}

#[test]
fn an_edit_drops_what_rests_on_it(rt: HostRuntime) -> Result<(), Fail> {
    assert!(rt; taken(rt.alloc(), 3, &PURGES) == PURGES.len());
    Ok(())
}

#[test]
fn a_default_is_kept_to_the_second(rt: HostRuntime) -> Result<(), Fail> {
    assert!(rt; taken(rt.alloc(), 1, &ENDS) == ENDS.len());
    Ok(())
}

#[test]
fn what_has_ended_makes_room(rt: HostRuntime) -> Result<(), Fail> {
    assert!(rt; taken(rt.alloc(), 2, &ROOM) == ROOM.len());
    Ok(())
}

#[test]
fn edits_behind_the_rule_leave_an_outcome(rt: HostRuntime) -> Result<(), Fail> {
    assert!(rt; taken(rt.alloc(), 3, &BEHIND) == BEHIND.len());
    Ok(())
}

#[test]
fn no_room_keeps_nothing(rt: HostRuntime) -> Result<(), Fail> {
    assert!(rt; taken(rt.alloc(), 0, &NO_ROOM) == NO_ROOM.len());
    Ok(())
}
