//! A super-blob that is written part by part.

ghost use Rattle.std.specs.Prelude.{◌≡◌, ◌+◌, ◌*◌, ◌≤◌, ◌<◌, ◌^◌, ◌++◌, ◌∷◌, [], ℕ, List, length, IfOk, IfErr, OnOk, OnErr, IsErrOf, MatchResult};
ghost use Rattle.cs_blob.specs.Blobs.{IsSized};
ghost use Rattle.cs_blob.specs.SuperBlobs.{IsSuperBlob};
ghost use Rattle.std.specs.Prelude.{None, Some, ◌⊎◌};
ghost use Rattle.cs_blob.specs.Writing as spec;
ghost use Rattle.cs_blob.specs.Writing.{add_fault, written, index_bytes, body_bytes, total_of, Holds};
ghost use Rattle.cs_blob.specs.Numbers.{word};

use crate::fault::WriterFault;
use crate::limits::{GREATEST_SIZE, MOST_PARTS};
use byteorder::{BigEndian, ByteOrder};
use req_tree::Bytes;
use std::alloc::{AllocError, Global};
use std::marker::Model;
/// Parts under their types, in the order in which they were added.
#[derive(Drop)]
pub struct SuperWriter {
    magic: u32,
    parts: Vec<(u32, Bytes)>,
    size: usize,
}

impl Model for SuperWriter {
    ghost use Rattle.std.specs.Prelude.{◌≡◌, ◌<◌, ◌^◌};
    ghost use Rattle.cs_blob.specs.Writing.{Draft, IsDraft, total_of};

    ghost Value = { Draft };

    ghost view = { λ w. record { magic = w.magic; parts = w.parts.items } };

    ghost invariant = { λ w. IsDraft w.parts.items × (w.size ≡ total_of w.parts.items) × (w.magic < 2 ^ 32) };
}

impl SuperWriter {
    /// A super-blob of this magic without parts, which takes no memory.
    pub fn new(alloc: Global, magic: u32) -> SuperWriter
        ensures { result ≡ record { magic = magic; parts = [] } }
    {
        SuperWriter {
            magic,
            parts: Vec::new(alloc),
            size: 12,
        }
    }

    /// Adds a copy of a blob as the last part.
    pub fn add(&mut self, alloc: Global, kind: u32, part: &[u8]) -> Result<(), WriterFault>
        requires { IsSized part.now }
        ensures added { OnOk result (self.new ≡ record self.old { parts = self.old.parts ++ (kind, part.now) ∷ [] }) }
        ensures fits { OnOk result (add_fault self.old.parts kind part.now ≡ None) }
        ensures first { IfErr result (λ fault. (add_fault self.old.parts kind part.now ≡ Some fault) ⊎ (fault ≡ WriterFault.OutOfMemory)) }
        ensures unchanged { OnErr result (self.new ≡ self.old) }
    {
        if has_kind(&self.parts, kind) {
            return Err(WriterFault::PartTwice);
        }
        if self.parts.len() >= MOST_PARTS {
            return Err(WriterFault::TooManyParts);
        }
        if self.size + 8 + part.len() > GREATEST_SIZE {
            return Err(WriterFault::TooLong);
        }
        let copy = Bytes::copy_of(alloc, part)?;
        self.parts.push((kind, copy))?;
        self.size += 8 + part.len();
        Ok(())
    }

    /// The super-blob. Its parts stand close behind the index, the first that was added foremost, and it
    /// reads back as just these parts.
    pub fn finish(self) -> Result<Bytes, AllocError>
        ensures written { IfOk result (λ bytes. bytes ≡ written self) }
        ensures reads { IfOk result (λ bytes. IsSuperBlob self.magic bytes × Holds self.parts bytes) }
    {
        let SuperWriter { magic, parts, size } = self;
        match write(magic, &parts, size) {
            Ok(bytes) => Ok(bytes),
            Err(fault) => Err(fault),
        }
    }
}

fn has_kind(parts: &[(u32, Bytes)], kind: u32) -> bool
    ensures { result ≡ spec.has_kind parts.now kind }
{
    parts.iter().any(|part| part.0 == kind)
}

fn write(magic: u32, parts: &Vec<(u32, Bytes)>, size: usize) -> Result<Bytes, AllocError>
    requires sized { size ≡ total_of parts.now.items }
    requires short { size < 2 ^ 32 }
    ensures { IfOk result (λ bytes. bytes ≡ written (record { magic = magic; parts = parts.now.items })) }
{
    let mut out = Vec::with_capacity(*parts.allocator(), size)?;
    push_number(&mut out, magic)?;
    push_number(&mut out, size as u32)?;
    push_number(&mut out, parts.len() as u32)?;
    push_index(&mut out, parts)?;
    push_body(&mut out, parts)?;
    Ok(Bytes::from_vec(out))
}

#[tactic(auto, unfolding(crate::specs::Numbers::word))]
fn push_number(out: &mut Vec<u8>, number: u32) -> Result<(), AllocError>
    ensures { OnOk result (out.new.items ≡ out.old.items ++ word number) }
{
    let mut bytes = [0; 4];
    BigEndian::write_u32(&mut bytes, number);
    out.extend_from_slice(&bytes)?;
    Ok(())
}

fn push_index(out: &mut Vec<u8>, parts: &[(u32, Bytes)]) -> Result<(), AllocError>
    requires { total_of parts.now < 2 ^ 32 }
    ensures { OnOk result (out.new.items ≡ out.old.items ++ index_bytes (12 + 8 * length parts.now) parts.now) }
{
    let mut offset = 12 + 8 * parts.len() as u32;
    for part in parts {
        push_number(out, part.0)?;
        push_number(out, offset)?;
        offset += part.1.as_slice().len() as u32;
    }
    Ok(())
}

fn push_body(out: &mut Vec<u8>, parts: &[(u32, Bytes)]) -> Result<(), AllocError>
    ensures { OnOk result (out.new.items ≡ out.old.items ++ body_bytes parts.now) }
{
    for part in parts {
        out.extend_from_slice(part.1.as_slice())?;
    }
    Ok(())
}
