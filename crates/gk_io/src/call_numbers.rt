//! Which calls of a form in memory fail: a test names them by their numbers.

ghost use Rattle.std.specs.Prelude.{◌≡◌, ◌↔◌, ℕ, List, [], ◌∷◌, ◌++◌, OnOk, OnErr, IsTrue, Contains};

use std::alloc::{AllocError, Global};
use std::marker::Model;

/// A list of call numbers. All calls of an object are counted together, from 1.
#[derive(Drop)]
pub struct CallNumbers {
    numbers: Vec<u64>,
}

impl Model for CallNumbers {
    ghost Value = { List ℕ };

    ghost view = { λ c. c.numbers.items };
}

impl CallNumbers {
    pub fn new(alloc: Global) -> CallNumbers
        ensures { result ≡ [] }
    {
        CallNumbers {
            numbers: Vec::new(alloc),
        }
    }

    pub fn push(&mut self, item: u64) -> Result<(), AllocError>
        ensures ok { OnOk result (self.new ≡ self.old ++ item ∷ []) }
        ensures err { OnErr result (self.new ≡ self.old) }
    {
        self.numbers.push(item)?;
        Ok(())
    }

    pub fn as_slice(&self) -> &[u64]
        ensures { result.now ≡ self.now }
    {
        self.numbers.as_slice()
    }

    pub fn contains(&self, call: u64) -> bool
        ensures { IsTrue result ↔ Contains self.now call }
    {
        self.numbers.as_slice().contains(&call)
    }
}
