//! A list of texts.

ghost use Rattle.std.specs.Prelude.{◌≡◌, ◌↔◌, [], ◌∷◌, ◌++◌, IsTrue, OnOk, OnErr};

use req_tree::Bytes;
use std::alloc::{AllocError, Global};
use std::marker::Model;

/// The members of a value that is a list, in their order.
#[derive(Debug, Drop)]
pub struct Texts {
    texts: Vec<Bytes>,
}

impl Model for Texts {
    ghost use Rattle.std.specs.Prelude.{List, ℕ};

    ghost Value = { List (List ℕ) };

    ghost view = { λ t. t.texts.items };
}

impl Texts {
    /// No texts.
    pub fn new(alloc: Global) -> Texts
        ensures { result ≡ [] }
    {
        Texts {
            texts: Vec::new(alloc),
        }
    }

    /// Adds a text behind all others; where there is no memory, the list is as before.
    pub fn push(&mut self, item: Bytes) -> Result<(), AllocError>
        ensures ok { OnOk result (self.new ≡ self.old ++ item ∷ []) }
        ensures err { OnErr result (self.new ≡ self.old) }
    {
        self.texts.push(item)?;
        Ok(())
    }

    pub fn is_empty(&self) -> bool
        ensures { IsTrue result ↔ (self.now ≡ []) }
    {
        self.texts.is_empty()
    }

    pub fn as_slice(&self) -> &[Bytes]
        ensures { result.now ≡ self.now }
    {
        self.texts.as_slice()
    }
}
