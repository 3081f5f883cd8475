//! Stored receipts.

ghost use Rattle.std.specs.Prelude.{◌≡◌, ◌-◌, [], ◌∷◌, ◌++◌, take, length, IfOk, OnOk, OnErr};

use line_text::Bytes;
use std::alloc::{AllocError, Global};
use std::marker::Model;

/// A stored receipt of an accepted edit.
#[derive(Drop)]
pub struct RawReceipt {
    pub num: i64,
    pub key: Bytes,
    /// The canonical text of the edit's content.
    pub content: Bytes,
    /// How many rules the edit touched.
    pub rules: i64,
}

impl Clone for RawReceipt {
    ghost is_clone = { λ a b. b ≡ a };

    fn clone(&self) -> Result<RawReceipt, AllocError> {
        let key = self.key.clone()?;
        let content = self.content.clone()?;
        Ok(RawReceipt {
            num: self.num,
            key,
            content,
            rules: self.rules,
        })
    }
}

/// Stored receipts in the order of their numbers.
#[derive(Drop)]
pub struct RawReceipts {
    rows: Vec<RawReceipt>,
}

impl Model for RawReceipts {
    ghost use Rattle.std.specs.Prelude.{List};
    ghost use Rattle.raw_tables.specs.declared.receipt.RawReceipt.{RawReceipt};

    ghost Value = { List RawReceipt };

    ghost view = { λ r. r.rows.items };
}

impl RawReceipts {
    /// No receipt.
    pub fn new(alloc: Global) -> RawReceipts
        ensures { result ≡ [] }
    {
        RawReceipts {
            rows: Vec::new(alloc),
        }
    }

    /// The same receipts, without memory.
    pub fn from_vec(rows: Vec<RawReceipt>) -> RawReceipts
        ensures { result ≡ rows.items }
    {
        RawReceipts { rows }
    }

    /// The same receipts, without memory.
    pub fn into_vec(self) -> Vec<RawReceipt>
        ensures { result.items ≡ self }
    {
        self.rows
    }

    pub fn len(&self) -> usize
        ensures { result ≡ length self.now }
    {
        self.rows.len()
    }

    pub fn as_slice(&self) -> &[RawReceipt]
        ensures { result.now ≡ self.now }
    {
        self.rows.as_slice()
    }

    /// Adds a receipt behind all others; where there is no memory, the list is as before.
    pub fn push(&mut self, item: RawReceipt) -> Result<(), AllocError>
        ensures ok { OnOk result (self.new ≡ self.old ++ item ∷ []) }
        ensures err { OnErr result (self.new ≡ self.old) }
    {
        self.rows.push(item)?;
        Ok(())
    }

    /// Takes the last receipt off.
    pub fn pop(&mut self)
        ensures { self.new ≡ take (length self.old - 1) self.old }
    {
        let _ = self.rows.pop();
    }

    /// Copies of the receipts.
    pub fn copied(&self) -> Result<RawReceipts, AllocError>
        ensures { IfOk result (λ copy. copy ≡ self.now) }
    {
        let rows = self.rows.clone()?;
        Ok(RawReceipts { rows })
    }
}
