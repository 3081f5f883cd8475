//! A sink over a writer of std. It tells nothing of the bytes.

ghost use Rattle.std.specs.Prelude.{◌≡◌, ◌≤◌, ℕ, List, None, OnOk, OnErr, is_some};
ghost use Rattle.std.specs.Io.KnownBytes.{Keeps};
ghost use Rattle.gk_io.specs.Faults.{Rose};
ghost use Rattle.gk_io.specs.Told.{IsFlushed, IsFrontFlushed, PutAppends};

use crate::fault::Failed;
use crate::sink::Sink;
use std::io::{ErrorKind, Write};

/// How often one call is tried again after an interruption by a signal.
const TRIES: u32 = 1_000;

/// Writes to a real file, stream or terminal.
#[derive(Drop)]
pub struct StdSink<W> {
    inner: W,
    faults: u64,
}

impl<W: Write> StdSink<W> {
    pub fn new(inner: W) -> StdSink<W>
        ensures inner { result.inner ≡ inner }
        ensures faults { result.faults ≡ 0 }
    {
        StdSink { inner, faults: 0 }
    }

    // One failure more.
    fn fail(&mut self) -> Failed
        ensures rose { Rose self.old.faults self.new.faults }
        ensures later { self.old.faults ≤ self.new.faults }
        ensures inner { self.new.inner ≡ self.old.inner }
    {
        self.faults = self.faults.saturating_add(1);
        Failed
    }
}

impl<W: Write> Sink for StdSink<W> {
    ghost written = { λ _. None };

    ghost faults = { λ s. s.faults };

    fn put(&mut self, bytes: &[u8]) -> Result<(), Failed>
        ensures bytes { PutAppends None None result bytes.now }
        ensures keeps { Keeps None None }
        ensures front { IsFrontFlushed None None → IsFrontFlushed None None }
        ensures telling { is_some {T = List ℕ} None ≡ is_some {T = List ℕ} None }
        ensures flushed_telling { is_some {T = List ℕ} None ≡ is_some {T = List ℕ} None }
        ensures later { self.old.faults ≤ self.new.faults }
        ensures cause { OnErr result (Rose self.old.faults self.new.faults) }
        ensures steady { OnOk result (self.new.faults ≡ self.old.faults) }

        // Where the writer tells its bytes, it gained all of them, or a front at a failure.
        ensures passes { PutAppends (W.contents self.old.inner) (W.contents self.new.inner) result bytes.now }
    {
        let mut rest = bytes;
        let mut tries = TRIES;
        while !rest.is_empty() {
            match self.inner.write(rest) {
                // A writer that takes nothing would take nothing for ever.
                Ok(0) => return Err(self.fail()),
                Ok(count) => rest = &rest[count..],
                Err(error) => {
                    if tries == 0 || error.kind() != ErrorKind::Interrupted {
                        return Err(self.fail());
                    }
                    tries -= 1;
                }
            }
        }
        Ok(())
    }

    fn flush(&mut self) -> Result<(), Failed>
        ensures bytes { Keeps None None }
        ensures flushes { OnOk result (IsFlushed None None) }
        ensures front { IsFrontFlushed None None → IsFrontFlushed None None }
        ensures telling { is_some {T = List ℕ} None ≡ is_some {T = List ℕ} None }
        ensures flushed_telling { is_some {T = List ℕ} None ≡ is_some {T = List ℕ} None }
        ensures later { self.old.faults ≤ self.new.faults }
        ensures cause { OnErr result (Rose self.old.faults self.new.faults) }
        ensures steady { OnOk result (self.new.faults ≡ self.old.faults) }
        ensures passes { Keeps (W.contents self.old.inner) (W.contents self.new.inner) }
    {
        for _turn in 0..TRIES {
            match self.inner.flush() {
                Ok(()) => return Ok(()),
                Err(error) => {
                    if error.kind() != ErrorKind::Interrupted {
                        break;
                    }
                }
            }
        }
        Err(self.fail())
    }
}
