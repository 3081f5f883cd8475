//! A shelf that remembers which file was asked for last.

ghost use Rattle.std.specs.Prelude.{◌≡◌};

use gk_io::{Fetched, Shelf, ShelfFault};
use std::alloc::{AllocError, Global};

/// The file that was asked for last.
#[derive(Drop)]
pub struct Seen {
    pub name: String,
    /// The most bytes that it may have.
    pub limit: usize,
    /// What was handed over, where the shelf keeps it.
    pub bytes: Vec<u8>,
}

/// Hands over what another shelf does. So no file is opened a second time, which a pipe wouldn't bear.
#[derive(Drop)]
pub struct NotedShelf<H> {
    inner: H,
    keeps: bool,
    seen: Option<Seen>,
}

impl<H: Shelf> NotedShelf<H> {
    /// Over this shelf, with a copy of the bytes where they are to be kept.
    pub fn new(inner: H, keeps: bool) -> NotedShelf<H>
        ensures inner { result.inner ≡ inner }
    {
        NotedShelf {
            inner,
            keeps,
            seen: None,
        }
    }

    pub fn seen(&self) -> Option<&Seen> {
        self.seen.as_ref()
    }
}

impl<H: Shelf> Shelf for NotedShelf<H> {
    ghost files = { λ s. H.files s.inner };

    ghost faults = { λ s. H.faults s.inner };

    fn fetch(
        &mut self,
        alloc: Global,
        name: &str,
        limit: usize,
        into: &mut Vec<u8>,
    ) -> Result<Fetched, ShelfFault> {
        let fetched = self.inner.fetch(alloc, name, limit, into);
        let bytes: &[u8] = if self.keeps { into.as_slice() } else { b"" };
        self.seen = seen_of(alloc, name, limit, bytes).ok();
        fetched
    }
}

fn seen_of(alloc: Global, name: &str, limit: usize, bytes: &[u8]) -> Result<Seen, AllocError> {
    Ok(Seen {
        name: String::from_str(alloc, name)?,
        limit,
        bytes: Vec::from_slice(alloc, bytes)?,
    })
}
