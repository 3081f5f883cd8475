//! An embedded signature: its parts, and the code directory that is used.

ghost use Rattle.std.specs.Prelude.{◌≡◌, None, Some, [], ◌∷◌, option_map, MatchOption, MatchResult};
ghost use Rattle.std.specs.List.{flat_map};
ghost use Rattle.cs_blob.specs.SuperBlobs.{IsSuperBlob};
ghost use Rattle.code_directory.specs.declared.layout.TheConstants.{SIGNATURE_MAGIC};
ghost use Rattle.code_directory.specs.Signatures.{directories_fault, kind_fault, kinds_fault, directories, directories_of, part_of, placed, used, first_of, by_hash};

use crate::checks::check_directory;
use crate::directory::Directory;
use crate::fault::CodeFault;
use crate::layout::{REQUIREMENTS, SIGNATURE_MAGIC};
use crate::pages::check_pages;
use cs_blob::SuperBlob;
use req_tree::{Hash20, Subject};
use std::marker::Model;

/// The types of code directories, by which they are looked at in turn.
const KINDS: [u32; 6] = [0, 0x1000, 0x1001, 0x1002, 0x1003, 0x1004];

/// The types of digests, the one that is wanted most first.
const HASH_ORDER: [u8; 4] = [4, 2, 3, 1];

/// An embedded signature, whose code directories have all passed their checks. It takes no memory: parts,
/// slots and pages are looked at where they lie.
#[derive(Drop)]
pub struct Signature<'a> {
    blob: SuperBlob<'a>,
    directory: Directory<'a>,
}

impl<'a> Model for Signature<'a> {
    ghost use Rattle.cs_blob.specs.SuperBlobs.{IsSuperBlob};
    ghost use Rattle.code_directory.specs.declared.layout.TheConstants.{SIGNATURE_MAGIC};
    ghost use Rattle.code_directory.specs.Signatures.{View};

    ghost Value = { View };

    ghost view = { λ signature. record { whole = signature.blob.whole; kind = signature.directory.kind; directory = signature.directory.bytes } };

    ghost invariant = { λ signature. IsSuperBlob SIGNATURE_MAGIC signature.blob.whole };
}

impl<'a> Signature<'a> {
    ghost use Rattle.std.specs.Prelude.{◌≡◌, None, Some, IfOk, IfErr, IsOkAnd, MatchOption, MatchResult};
    ghost use Rattle.req_tree.specs.Subject.{subject_of};
    ghost use Rattle.code_directory.specs.declared.layout.TheConstants.{REQUIREMENTS};
    ghost use Rattle.code_directory.specs.Signatures.{View, Views, SignatureFails, part_of};
    ghost use Rattle.code_directory.specs.Signatures as spec;
    ghost use Rattle.code_directory.specs.Agreement.{PartAgrees, PartFails, PagesAgree, CodeFails};

    /// The embedded signature at the front of the bytes, or the first check that fails: those of the
    /// super-blob, that there is a directory, and those of each directory by rising type of its part. What
    /// follows the super-blob is passed over, as the padding of a segment.
    pub fn read(bytes: &'a [u8]) -> Result<Signature<'a>, CodeFault>
        ensures found { IfOk result (λ signature. Views bytes.now signature) }
        ensures only { (view : View) → Views bytes.now view → IsOkAnd result (λ signature. signature ≡ view) }
        ensures first { IfErr result (λ fault. SignatureFails bytes.now fault) }
    {
        match SuperBlob::read(bytes, SIGNATURE_MAGIC) {
            Ok(blob) => Signature::over(blob),
            Err(fault) => Err(CodeFault::Super(fault)),
        }
    }

    fn over(blob: SuperBlob<'a>) -> Result<Signature<'a>, CodeFault>
        requires { IsSuperBlob SIGNATURE_MAGIC blob.whole }
        ensures { MatchResult result (λ signature. (signature.whole ≡ blob.entry.whole) × (directories_fault blob.entry.whole ≡ None) × (used blob.entry.whole ≡ Some (spec.placed signature.kind signature.directory)))
            (λ fault. directories_fault blob.entry.whole ≡ Some fault) }
    {
        match check_directories(&blob) {
            Ok(()) => {
                let directory = used_of(&blob);
                Ok(Signature { blob, directory })
            }
            Err(fault) => Err(fault),
        }
    }

    /// The digest of the whole directory, cut to 20 bytes, whatever the type of the digest.
    pub fn cdhash(&self) -> Hash20
        ensures { result.bytes ≡ spec.cdhash self.now }
    {
        self.directory.cdhash()
    }

    /// The cdhash, the identifier and the platform.
    pub fn subject(&self) -> Subject
        ensures { subject_of result ≡ spec.subject self.now }
    {
        self.directory.subject()
    }

    /// The part of the requirement set, with its magic and its length.
    pub fn requirements(&self) -> Option<&'a [u8]>
        ensures { MatchOption result (part_of self.now.whole REQUIREMENTS ≡ None) (λ part. part_of self.now.whole REQUIREMENTS ≡ Some part.now) }
    {
        part_at(&self.blob, REQUIREMENTS)
    }

    /// Whether a part has its digest in its slot of the directory. A slot without a part isn't looked at.
    pub fn check_part(&self, kind: u32) -> Result<(), CodeFault>
        ensures { MatchResult result (λ _. PartAgrees self.now kind) (λ fault. PartFails self.now kind fault) }
    {
        match part_at(&self.blob, kind) {
            Some(part) if !self.directory.has_part(kind, part) => {
                Err(CodeFault::PartDiffers { kind })
            }
            _ => Ok(()),
        }
    }

    /// Whether each page of the code has the digest in its slot, or the first that has not. Longer code is
    /// fine.
    pub fn check_pages(&self, code: &[u8]) -> Result<(), CodeFault>
        ensures { MatchResult result (λ _. PagesAgree self.now.directory code.now) (λ fault. CodeFails self.now.directory code.now fault) }
    {
        check_pages(&self.directory, code)
    }
}

/// The part of a type.
fn part_at<'a>(blob: &SuperBlob<'a>, kind: u32) -> Option<&'a [u8]>
    requires { IsSuperBlob SIGNATURE_MAGIC blob.now.whole }
    ensures { MatchOption result (part_of blob.now.whole kind ≡ None) (λ part. part_of blob.now.whole kind ≡ Some part.now) }
{
    blob.part(kind)
}

/// That there is a directory, and that each passes its checks.
fn check_directories(blob: &SuperBlob<'_>) -> Result<(), CodeFault>
    requires { IsSuperBlob SIGNATURE_MAGIC blob.now.whole }
    ensures { MatchResult result (λ _. directories_fault blob.now.whole ≡ None) (λ fault. directories_fault blob.now.whole ≡ Some fault) }
{
    match part_at(blob, 0) {
        None => Err(CodeFault::NoDirectory),
        Some(_) => check_kinds(blob, &KINDS),
    }
}

fn check_kinds(blob: &SuperBlob<'_>, kinds: &[u32]) -> Result<(), CodeFault>
    requires { IsSuperBlob SIGNATURE_MAGIC blob.now.whole }
    ensures { MatchResult result (λ _. kinds_fault blob.now.whole kinds.now ≡ None) (λ fault. kinds_fault blob.now.whole kinds.now ≡ Some fault) }
{
    for kind in kinds {
        match check_kind(blob, *kind) {
            Ok(()) => {}
            Err(fault) => return Err(fault),
        }
    }
    Ok(())
}

fn check_kind(blob: &SuperBlob<'_>, kind: u32) -> Result<(), CodeFault>
    requires { IsSuperBlob SIGNATURE_MAGIC blob.now.whole }
    ensures { MatchResult result (λ _. kind_fault kind (part_of blob.now.whole kind) ≡ None) (λ fault. kind_fault kind (part_of blob.now.whole kind) ≡ Some fault) }
{
    match part_at(blob, kind) {
        None => Ok(()),
        Some(part) => check_directory(kind, part),
    }
}

/// The directory that is used: by its digests, and then by the type of its part.
fn used_of<'a>(blob: &SuperBlob<'a>) -> Directory<'a>
    requires whole { IsSuperBlob SIGNATURE_MAGIC blob.now.whole }
    requires fine { directories_fault blob.now.whole ≡ None }
    ensures { used blob.now.whole ≡ Some result }
{
    match first_in_order(blob, &HASH_ORDER) {
        Some(directory) => directory,
        None => unreachable!(),
    }
}

/// The first directory of the first of these types of digests that any has.
fn first_in_order<'a>(blob: &SuperBlob<'a>, order: &[u8]) -> Option<Directory<'a>>
    requires whole { IsSuperBlob SIGNATURE_MAGIC blob.now.whole }
    requires fine { directories_fault blob.now.whole ≡ None }
    ensures { result ≡ first_of (flat_map (by_hash (directories blob.now.whole)) order.now) }
{
    for hash_type in order {
        match with_hash(blob, &KINDS, *hash_type) {
            Some(directory) => return Some(directory),
            None => {}
        }
    }
    None
}

/// The first directory of these types whose digests have this type.
fn with_hash<'a>(blob: &SuperBlob<'a>, kinds: &[u32], hash_type: u8) -> Option<Directory<'a>>
    requires whole { IsSuperBlob SIGNATURE_MAGIC blob.now.whole }
    requires fine { kinds_fault blob.now.whole kinds.now ≡ None }
    ensures { result ≡ first_of (by_hash (directories_of blob.now.whole kinds.now) hash_type) }
{
    for kind in kinds {
        match of_hash(blob, *kind, hash_type) {
            Some(directory) => return Some(directory),
            None => {}
        }
    }
    None
}

/// The directory of this type, if its digests have this type.
fn of_hash<'a>(blob: &SuperBlob<'a>, kind: u32, hash_type: u8) -> Option<Directory<'a>>
    requires whole { IsSuperBlob SIGNATURE_MAGIC blob.now.whole }
    requires fine { kind_fault kind (part_of blob.now.whole kind) ≡ None }
    ensures { result ≡ first_of (by_hash (directories_of blob.now.whole (kind ∷ [])) hash_type) }
{
    match passed(blob, kind) {
        Some(directory) if directory.hash_type() == hash_type => Some(directory),
        _ => None,
    }
}

/// The directory in a part of this type, which has passed its checks.
fn passed<'a>(blob: &SuperBlob<'a>, kind: u32) -> Option<Directory<'a>>
    requires whole { IsSuperBlob SIGNATURE_MAGIC blob.now.whole }
    requires fine { kind_fault kind (part_of blob.now.whole kind) ≡ None }
    ensures { result ≡ option_map (placed kind) (part_of blob.now.whole kind) }
{
    match part_at(blob, kind) {
        None => None,
        Some(part) => Some(Directory::passed(kind, part)),
    }
}
