//! A set of names.

ghost use Rattle.std.specs.Prelude.{◌≡◌, false, OnOk};
ghost use Rattle.fact_values.specs.Keyed.{names_of, with_name};

use std::alloc::{AllocError, Global};
use std::collections::BTreeSet;

/// Names, each of which is kept once.
#[derive(Drop)]
pub struct Names {
    set: BTreeSet<Vec<u8>>,
}

impl Names {
    /// No name.
    pub fn new(alloc: Global) -> Names
        ensures { names_of result ≡ (λ name. false) }
    {
        Names {
            set: BTreeSet::new(alloc),
        }
    }

    pub fn has(&self, name: &[u8]) -> bool
        ensures { result ≡ names_of self.now name.now }
    {
        self.set.contains(name)
    }

    pub fn put(&mut self, alloc: Global, name: &[u8]) -> Result<(), AllocError>
        ensures { OnOk result (names_of self.new ≡ with_name name.now (names_of self.old)) }
    {
        let name = Vec::from_slice(alloc, name)?;
        self.set.insert(name)?;
        Ok(())
    }
}
