//! A row of a facts file, over the bytes of its record.

use crate::slot::Slot;
use fact_values::{FactFlag, Place};
use req_tree::{Hash20, Oid};

/// What a key is given.
#[derive(Clone, Copy, Debug, Drop)]
pub enum Given<'a> {
    Text(&'a [u8]),
    Truth(bool),
    /// One member of a list.
    Item(&'a [u8]),
}

/// The key of an entry; that of an extension or a policy is an object identifier.
#[derive(Drop)]
pub enum Key<'a> {
    Text(&'a [u8]),
    Oid(Oid),
}

/// What a row says of its code.
#[derive(Drop)]
pub enum Fact<'a> {
    Flag(FactFlag),
    AnchorName(&'a [u8]),
    CodeName(&'a [u8]),
    Certificate {
        place: Slot,
        hash: Hash20,
    },
    Trust {
        place: Slot,
    },
    Entry {
        place: Place,
        key: Key<'a>,
        given: Given<'a>,
    },
}

/// A fact about the code of a hash.
#[derive(Drop)]
pub struct Row<'a> {
    pub hash: Hash20,
    pub fact: Fact<'a>,
}
