//! A sink into memory of a fixed room, some of whose calls fail.

ghost use Rattle.std.specs.Prelude.{◌≡◌, ◌≤◌, ◌<◌, ◌+◌, ◌⊎◌, ◌↔◌, Some, List, [], OnOk, OnErr, IfOk, IsErr, Contains, is_ok, is_some, length, vec_capacity, if◌then◌else◌};
ghost use Rattle.std.specs.Io.KnownBytes.{Keeps};
ghost use Rattle.gk_io.specs.Faults.{Rose, counted};
ghost use Rattle.gk_io.specs.Told.{IsFlushed, IsFrontFlushed, PutAppends};

use crate::call_numbers::CallNumbers;
use crate::fault::Failed;
use crate::sink::Sink;
use std::alloc::{AllocError, Global};

/// Keeps the bytes that are written, up to its room, and tells them. The room is taken when it is made.
#[derive(Drop)]
pub struct MemorySink {
    bytes: Vec<u8>,
    flushed: usize,
    room: usize,
    failing: CallNumbers,
    calls: u64,
    faults: u64,
    ghost front: { flushed ≤ length bytes.items },
    ghost within: { length bytes.items ≤ room },
    ghost taken: { room ≤ vec_capacity bytes },
}

impl MemorySink {
    ghost use Rattle.gk_io.specs.Memory.{sink_written, sink_flushed, sink_room, sink_failing, sink_calls, sink_faults};

    pub fn with_room(
        alloc: Global,
        room: usize,
        failing: CallNumbers,
    ) -> Result<MemorySink, AllocError>
        ensures written { IfOk result (λ s. sink_written s ≡ []) }
        ensures flushed { IfOk result (λ s. sink_flushed s ≡ []) }
        ensures room { IfOk result (λ s. sink_room s ≡ room) }
        ensures failing { IfOk result (λ s. sink_failing s ≡ failing) }
        ensures calls { IfOk result (λ s. sink_calls s ≡ 0) }
        ensures faults { IfOk result (λ s. sink_faults s ≡ 0) }
    {
        let bytes = Vec::with_capacity(alloc, room)?;
        Ok(MemorySink {
            bytes,
            flushed: 0,
            room,
            failing,
            calls: 0,
            faults: 0,
        })
    }

    pub fn written(&self) -> &[u8]
        ensures { result.now ≡ sink_written self.now }
    {
        self.bytes.as_slice()
    }

    /// What was written by the last call of `flush` that didn't fail.
    pub fn flushed(&self) -> &[u8]
        ensures { result.now ≡ sink_flushed self.now }
    {
        &self.bytes.as_slice()[..self.flushed]
    }

    /// How many of its calls failed, up to the greatest u64.
    pub fn faults(&self) -> u64
        ensures { result ≡ sink_faults self.now }
    {
        self.faults
    }
}

impl Sink for MemorySink {
    ghost use Rattle.gk_io.specs.Memory.{sink_written, sink_flushed, sink_room, sink_failing, sink_calls, sink_faults};

    ghost written = { λ s. Some (sink_written s) };

    ghost flushed = { λ s. Some (sink_flushed s) };

    ghost faults = { sink_faults };

    fn put(&mut self, bytes: &[u8]) -> Result<(), Failed>
        ensures bytes { PutAppends (Some (sink_written self.old)) (Some (sink_written self.new)) result bytes.now }
        ensures keeps { Keeps (Some (sink_flushed self.old)) (Some (sink_flushed self.new)) }
        ensures front { IsFrontFlushed (Some (sink_flushed self.old)) (Some (sink_written self.old))
            → IsFrontFlushed (Some (sink_flushed self.new)) (Some (sink_written self.new)) }
        ensures telling { is_some (Some (sink_written self.new)) ≡ is_some (Some (sink_written self.old)) }
        ensures flushed_telling { is_some (Some (sink_flushed self.new)) ≡ is_some (Some (sink_flushed self.old)) }
        ensures later { sink_faults self.old ≤ sink_faults self.new }
        ensures cause { OnErr result (Rose (sink_faults self.old) (sink_faults self.new)) }
        ensures steady { OnOk result (sink_faults self.new ≡ sink_faults self.old) }

        // A call that fails writes nothing. Those that fail are the named ones and those of too many bytes, and each
        // is counted.
        ensures whole { OnErr result (sink_written self.new ≡ sink_written self.old) }
        ensures fails { IsErr result ↔ (Contains (sink_failing self.old) (counted (sink_calls self.old))
            ⊎ (sink_room self.old < length (sink_written self.old) + length bytes.now)) }
        ensures failing { sink_failing self.new ≡ sink_failing self.old }
        ensures room { sink_room self.new ≡ sink_room self.old }
        ensures calls { sink_calls self.new ≡ counted (sink_calls self.old) }
        ensures faults { sink_faults self.new
            ≡ (if is_ok result then sink_faults self.old else counted (sink_faults self.old)) }
    {
        self.calls = self.calls.saturating_add(1);
        if self.failing.contains(self.calls) || self.room - self.bytes.len() < bytes.len() {
            self.faults = self.faults.saturating_add(1);
            return Err(Failed);
        }
        match self.bytes.extend_from_slice(bytes) {
            Ok(()) => Ok(()),
            // The room was taken when the sink was made.
            Err(_) => unreachable!(),
        }
    }

    fn flush(&mut self) -> Result<(), Failed>
        ensures bytes { Keeps (Some (sink_written self.old)) (Some (sink_written self.new)) }
        ensures flushes { OnOk result (IsFlushed (Some (sink_flushed self.new)) (Some (sink_written self.new))) }
        ensures front { IsFrontFlushed (Some (sink_flushed self.old)) (Some (sink_written self.old))
            → IsFrontFlushed (Some (sink_flushed self.new)) (Some (sink_written self.new)) }
        ensures telling { is_some (Some (sink_written self.new)) ≡ is_some (Some (sink_written self.old)) }
        ensures flushed_telling { is_some (Some (sink_flushed self.new)) ≡ is_some (Some (sink_flushed self.old)) }
        ensures later { sink_faults self.old ≤ sink_faults self.new }
        ensures cause { OnErr result (Rose (sink_faults self.old) (sink_faults self.new)) }
        ensures steady { OnOk result (sink_faults self.new ≡ sink_faults self.old) }

        // A call that fails flushes nothing. Those that fail are the named ones, and each is counted.
        ensures kept { sink_flushed self.new ≡ (if is_ok result then sink_written self.old else sink_flushed self.old) }
        ensures fails { IsErr result ↔ Contains (sink_failing self.old) (counted (sink_calls self.old)) }
        ensures failing { sink_failing self.new ≡ sink_failing self.old }
        ensures room { sink_room self.new ≡ sink_room self.old }
        ensures calls { sink_calls self.new ≡ counted (sink_calls self.old) }
        ensures faults { sink_faults self.new
            ≡ (if is_ok result then sink_faults self.old else counted (sink_faults self.old)) }
    {
        self.calls = self.calls.saturating_add(1);
        if self.failing.contains(self.calls) {
            self.faults = self.faults.saturating_add(1);
            return Err(Failed);
        }
        self.flushed = self.bytes.len();
        Ok(())
    }
}
