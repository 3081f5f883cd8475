//! What a lock comes to when it is closed.
ghost use Rattle.std.specs.Prelude.{◌≡◌, ◌≢◌, ℕ, ◌↔◌, [], ◌∷◌, Some};
ghost use Rattle.std.specs.Mem.Slots.{slots_items, slots_len, IsFull};
ghost use Rattle.turn_lock.specs.declared.closed.Closed.TheVariants.{Whole, Stuck};

use std::alloc::Global;

/// The value, if every ticket that was drawn was served.
#[derive(Drop)]
pub enum Closed<T> {
    Whole(T),
    /// A turn was begun and never ended: the two words, which differ.
    Stuck { next: u64, serving: u64 },
}

impl<T: Drop> Closed<T> {
    /// What the two words and the slot come to.
    fn of(next: u64, serving: u64, slot: Option<T>) -> Closed<T>
        requires { next ≡ serving → (x : T) × (slot ≡ Some x) }
        ensures whole { (x : T) → (result ≡ Whole x) ↔ ((next ≡ serving) × (slot ≡ Some x)) }
        ensures stuck { (n s : ℕ) → (result ≡ Stuck n s) ↔ ((n ≡ next) × (s ≡ serving) × (next ≢ serving)) }
    {
        if next != serving {
            return Closed::Stuck { next, serving };
        }
        let Some(value) = slot else { unreachable!() };
        Closed::Whole(value)
    }
}

/// A lock at which no step is made any more: its words `next` and `serving`, and its slot.
pub struct Shut<T> {
    pub table: atomic_table::Closed<Option<T>, Global>,
    ghost full: { IsFull table.words × IsFull table.slots },
    ghost counts: { (slots_len table.words ≡ 2) × (slots_len table.slots ≡ 1) },
}

impl<T: Drop> Shut<T> {
    /// The value where the words agree, and else the words.
    pub fn ends(self) -> Closed<T>
        requires words { (n s : ℕ) × (slots_items self.table.words ≡ n ∷ s ∷ []) }
        requires value { (n : ℕ) → slots_items self.table.words ≡ n ∷ n ∷ []
            → (x : T) × (slots_items self.table.slots ≡ Some x ∷ []) }
        ensures stuck { (n s : ℕ) → (result ≡ Stuck n s) ↔ ((slots_items self.table.words ≡ n ∷ s ∷ []) × (n ≢ s)) }
        ensures whole { (x : T) → (result ≡ Whole x)
            ↔ (((n : ℕ) × (slots_items self.table.words ≡ n ∷ n ∷ [])) × (slots_items self.table.slots ≡ Some x ∷ [])) }
    {
        let Shut { table: mut closed } = self;
        let next = closed.word(0);
        let serving = closed.word(1);
        let slot = closed.take(0);
        closed.free();
        Closed::of(next, serving, slot)
    }
}
