//! A cache with the most room that there is.
use object_cache::{Entry, Objects, Offered};
use object_model::limits::MOST_ENTRIES;
use req_tree::{Hash20, Identifier, Subject};
use rule_values::Kind::Execute;
use rule_values::{Label, Moment, Outcome, Priority, Rank, RuleId};
use std::alloc::Global;
use std::test::Fail;

// code of this number: each has a hash of its own
fn subject(number: u32) -> Option<Subject> {
    let [a, b, c, d] = number.to_be_bytes();
    let bytes = [a, b, c, d, 0, 0, 0, 0, 0, 0, 0, 0, 0, 0, 0, 0, 0, 0, 0, 0];
    Some(Subject {
        cdhash: Hash20 { bytes },
        identifier: Identifier::of(b"com.example.a")?,
        platform: 0,
    })
}

// what becomes of a default's outcome for the code of this number, which ends at 60
fn fate(objects: &mut Objects, number: u32, since: u64, now: u64) -> Option<Offered> {
    let entry = Entry {
        kind: Execute,
        subject: subject(number)?,
        outcome: Outcome::Default {
            latent: None,
            label: Label::empty(),
            until: 60,
        },
    };
    Some(objects.offer(&entry, since, Moment::of(now)?, false))
}

// how many of the offers of different code are kept, up to the first that isn't
fn kept_in_turn(objects: &mut Objects, offers: u32) -> u32 {
    for number in 0..offers {
        if fate(objects, number, 0, 0) != Some(Offered::Kept) {
            return number;
        }
    }
    offers
}

fn first_rank() -> Option<Rank> {
    let priority = Priority::of(0)?;
    let id = RuleId::of(1)?;
    Some(Rank { priority, id })
}

// Filled to the last entry, it keeps no other until an edit has dropped some.
fn fills_and_empties(alloc: Global) -> Option<bool> {
    let mut objects = Objects::with_room(alloc, MOST_ENTRIES).ok()?;
    let kept = kept_in_turn(&mut objects, 16_384);
    let live = objects.live(Moment::of(59)?);
    let one_more = fate(&mut objects, 16_384, 0, 0)?;
    let again = fate(&mut objects, 16_383, 0, 0)?;
    if objects.mark(Execute) == 0 {
        objects.purge(Execute, first_rank()?);
    }
    let after = fate(&mut objects, 16_384, 1, 0)?;
    let left = objects.live(Moment::of(0)?);
    let filled = kept == 16_384 && live == 16_384;
    let refused = one_more == Offered::Full && again == Offered::Twice;
    Some(filled && refused && after == Offered::Kept && left == 1)
}

#[test]
fn it_keeps_16384_outcomes_and_no_more(rt: HostRuntime) -> Result<(), Fail> {
    assert!(rt; fills_and_empties(rt.alloc()) == Some(true));
    Ok(())
}
