//! The receipts of accepted edits.

ghost use Rattle.std.specs.Prelude.{◌≡◌, ◌-◌, ◌<◌, ◌≤◌, ◌↔◌, [], ◌∷◌, ◌++◌, length, take, IsTrue, OnOk, OnErr, Some, None, option_map, option_to_list, List};
ghost use Rattle.std.specs.Option.{option_copied};
ghost use Rattle.policy_model.specs.declared.limits.TheConstants.{MOST_RECEIPTS};
ghost use Rattle.policy_model.specs.Edits.{kept};
ghost use Rattle.rule_edits.specs.EditKey.{key_bytes};

use policy_model::limits::MOST_RECEIPTS;
use req_tree::Bytes;
use rule_edits::EditKey;
use std::alloc::{AllocError, Global};
use std::collections::BTreeMap;
use std::marker::Model;

/// What is kept of an accepted edit, for good.
#[derive(Drop)]
pub struct Receipt {
    pub number: u32,
    pub key: EditKey,
    /// The canonical text of the edit's content.
    pub content: Bytes,
    pub rules: u32,
}

/// Up to `MOST_RECEIPTS` receipts, in the order of their numbers; each is found by its key.
#[derive(Drop)]
pub struct Receipts {
    receipts: Vec<Receipt>,
    /// Where in the list the receipt of a key stands.
    places: BTreeMap<EditKey, u32>,
}

impl Model for Receipts {
    ghost use Rattle.std.specs.Prelude.{List, ◌≤◌, length};
    ghost use Rattle.policy_model.specs.declared.limits.TheConstants.{MOST_RECEIPTS};
    ghost use Rattle.edit_receipts.specs.declared.receipts.Receipt.{Receipt};
    ghost use Rattle.edit_receipts.specs.Receipts.{HasPlaces};

    ghost Value = { List Receipt };

    ghost view = { λ r. r.receipts.items };

    ghost invariant = { λ r. (length r.receipts.items ≤ MOST_RECEIPTS) × HasPlaces r.places r.receipts.items };
}

impl Receipts {
    ghost use Rattle.edit_receipts.specs.declared.receipts.Receipt.{Receipt};
    ghost use Rattle.edit_receipts.specs.Receipts.{receipt_of, receipts_of};

    pub fn new(alloc: Global) -> Receipts
        ensures { result ≡ [] }
    {
        Receipts {
            receipts: Vec::new(alloc),
            places: BTreeMap::new(alloc),
        }
    }

    pub fn count(&self) -> u32
        ensures count { result ≡ length self.now }
        ensures room { result ≤ MOST_RECEIPTS }
    {
        self.receipts.len() as u32
    }

    pub fn is_full(&self) -> bool
        ensures full { IsTrue result ↔ (length self.now ≡ MOST_RECEIPTS) }
        ensures room { length self.now ≤ MOST_RECEIPTS }
    {
        self.receipts.len() == MOST_RECEIPTS as usize
    }

    /// The receipt that is kept for a key.
    pub fn find(&self, key: &EditKey) -> Option<&Receipt>
        ensures { option_map receipt_of (option_copied result) ≡ kept (receipts_of self.now) (key_bytes key.now) }
    {
        match self.places.get(key) {
            None => None,
            Some(place) => self.receipts.get(*place as usize),
        }
    }

    /// Adds a receipt behind all others, whose key isn't kept; where there is no memory, nothing changes.
    pub fn push(&mut self, receipt: Receipt) -> Result<(), AllocError>
        requires room { length self.old < MOST_RECEIPTS }
        requires new { kept (receipts_of self.old) (key_bytes receipt.key) ≡ None }
        ensures ok { OnOk result (self.new ≡ self.old ++ receipt ∷ []) }
        ensures err { OnErr result (self.new ≡ self.old) }
    {
        let place = self.receipts.len() as u32;
        self.receipts.reserve(1)?;
        self.places.insert(receipt.key.copied(), place)?;
        let _ = self.receipts.push(receipt);
        Ok(())
    }

    /// Takes the last receipt back, whose key no earlier one has.
    pub fn pop(&mut self) -> Option<Receipt>
        requires alone { (rest : List Receipt) (last : Receipt) → self.old ≡ rest ++ last ∷ [] → kept (receipts_of rest) (key_bytes last.key) ≡ None }
        ensures last { self.old ≡ self.new ++ option_to_list result }
        ensures rest { self.new ≡ take (length self.old - 1) self.old }
    {
        match self.receipts.pop() {
            None => None,
            Some(receipt) => {
                let _place = self.places.remove(&receipt.key);
                Some(receipt)
            }
        }
    }
}
