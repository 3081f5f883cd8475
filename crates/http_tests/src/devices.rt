//! Sources of these tests. Calls are counted from 1, so that 0 names none.

ghost use Rattle.std.specs.Prelude.{ℕ, List, None};

use gk_io::{CallNumbers, Failed, MemorySource, Source};
use std::alloc::{AllocError, Global};

pub fn source_of(alloc: Global, bytes: &[u8], call: u64) -> Result<MemorySource, AllocError> {
    let mut failing = CallNumbers::new(alloc);
    failing.push(call)?;
    Ok(MemorySource::new(Vec::from_slice(alloc, bytes)?, failing))
}

/// Gives the bytes of another source one at a time, and tells nothing.
#[derive(Drop)]
pub struct Trickle {
    inner: MemorySource,
}

impl Trickle {
    pub fn of(alloc: Global, bytes: &[u8], call: u64) -> Result<Trickle, AllocError> {
        Ok(Trickle {
            inner: source_of(alloc, bytes, call)?,
        })
    }
}

impl Source for Trickle {
    ghost use Rattle.gk_io.specs.Memory.{source_faults};

    ghost left = { λ _. None };

    ghost faults = { λ s. source_faults s.inner };

    fn read(&mut self, buf: &mut [u8]) -> Result<usize, Failed> {
        let count = buf.len().min(1);
        self.inner.read(&mut buf[..count])
    }
}
