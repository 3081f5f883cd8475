//! For how many rules a table has memory.

ghost use Rattle.std.specs.Prelude.{◌≡◌, ◌<◌, ◌≤◌, ◌+◌, ◌++◌, [], ◌∷◌, length, IfOk, OnOk, OnErr, vec_capacity};
ghost use Rattle.policy_model.specs.declared.limits.TheConstants.{MOST_RULES};
ghost use Rattle.held_rules.specs.Rooms as rooms;

use crate::held_rule::HeldRule;
use policy_model::limits::MOST_RULES;
use std::alloc::{AllocError, Global};

/// The first rule of a table takes memory for so many.
pub const FEW_RULES: usize = 64;

/// One more than a few takes memory for so many; one more than these, for as many as a table may hold.
pub const MANY_RULES: usize = 1_000;

/// A table of so many rules has memory for at least so many. It grows in three steps, so few rules are ever moved.
pub(crate) fn room_for(count: usize) -> usize
    ensures { result ≡ rooms.room_for count }
{
    if count == 0 {
        0
    } else if count <= FEW_RULES {
        FEW_RULES
    } else if count <= MANY_RULES {
        MANY_RULES
    } else {
        MOST_RULES
    }
}

ghost use Rattle.held_rules.specs.Spare.{HasRoom, IsSpare};

/// Memory for the rules of a table and for their marks.
#[derive(Drop)]
pub struct Room {
    pub rules: Vec<HeldRule>,
    pub marks: Vec<u32>,
}

/// Memory for one rule more, where a table of so many rules may have none left; else nothing.
pub fn room_behind(alloc: Global, count: usize) -> Result<Room, AllocError>
    requires { count < MOST_RULES }
    ensures { IfOk result (λ room. HasRoom count room) }
{
    let rules = spare_behind(alloc, count)?;
    let marks = spare_behind(alloc, count)?;
    Ok(Room { rules, marks })
}

fn spare_behind<T: Drop>(alloc: Global, count: usize) -> Result<Vec<T>, AllocError>
    requires { count < MOST_RULES }
    ensures { IfOk result (λ room. IsSpare count room) }
{
    let wanted = room_for(count + 1);
    if wanted == room_for(count) {
        Ok(Vec::new(alloc))
    } else {
        Vec::with_capacity(alloc, wanted)
    }
}

/// Adds a rule behind all others; where there is no memory, the rules are as before.
pub fn pushed(rules: &mut Vec<HeldRule>, rule: HeldRule) -> Result<(), AllocError>
    requires held { rooms.room_for (length rules.old.items) ≤ vec_capacity rules.old }
    requires room { length rules.old.items < MOST_RULES }
    ensures held { rooms.room_for (length rules.new.items) ≤ vec_capacity rules.new }
    ensures ok { OnOk result (rules.new.items ≡ rules.old.items ++ rule ∷ []) }
    ensures err { OnErr result (rules.new.items ≡ rules.old.items) }
{
    let count = rules.len();
    rules.reserve(room_for(count + 1) - count)?;
    rules.push_reserved(rule);
    Ok(())
}

/// Takes the memory for one mark more; the marks are as before.
pub fn reserve_mark(marks: &mut Vec<u32>) -> Result<(), AllocError>
    requires { length marks.old.items < MOST_RULES }
    ensures items { marks.new.items ≡ marks.old.items }
    ensures grows { vec_capacity marks.old ≤ vec_capacity marks.new }
    ensures ok { OnOk result (rooms.room_for (length marks.old.items + 1) ≤ vec_capacity marks.new) }
{
    let count = marks.len();
    marks.reserve(room_for(count + 1) - count)
}
