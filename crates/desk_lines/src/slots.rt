//! Assessments that a session holds open.

ghost use Rattle.std.specs.Prelude.{◌≡◌, ◌==◌, IfSome, IfNone};
ghost use Rattle.std.specs.List.{find, position, list_any};
ghost use Rattle.session_model.specs.Slots.{but_first};

use desk_state::Looked;

/// An assessment that is begun and not finished.
#[derive(Drop)]
pub struct OpenSlot {
    pub number: u32,
    pub looked: Looked,
}

/// Whether one of this number is open.
pub fn is_open(slots: &[OpenSlot], number: u32) -> bool
    ensures { result ≡ list_any (λ c. c.number == number) slots.now }
{
    slots.iter().any(|slot| slot.number == number)
}

/// The first of this number, taken out.
pub fn take_slot(slots: &mut Vec<OpenSlot>, number: u32) -> Option<OpenSlot>
    ensures taken { result ≡ find (λ c. c.number == number) slots.old.items }
    ensures left { IfSome result (λ slot. slots.new.items ≡ but_first (λ c. c.number == number) slots.old.items) }
    ensures absent { IfNone result (slots.new.items ≡ slots.old.items) }
{
    match find_slot(slots.as_slice(), number) {
        Some(at) => Some(slots.remove(at)),
        None => None,
    }
}

/// The place of the first of this number.
fn find_slot(slots: &[OpenSlot], number: u32) -> Option<usize>
    ensures { result ≡ position (λ c. c.number == number) slots.now }
{
    slots.iter().position(|slot| slot.number == number)
}
