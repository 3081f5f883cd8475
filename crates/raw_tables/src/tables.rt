//! All rows of a store.

use crate::receipt::RawReceipts;
use crate::rule::RawRules;
use std::alloc::AllocError;

/// All that a store holds.
#[derive(Drop)]
pub struct RawTables {
    pub format: i64,
    /// 1 where assessments are switched on, else 0.
    pub switch: i64,
    pub receipts: RawReceipts,
    pub rules: RawRules,
}

impl RawTables {
    ghost use Rattle.std.specs.Prelude.{◌≡◌, IfOk};

    /// A copy of all rows.
    pub fn copied(&self) -> Result<RawTables, AllocError>
        ensures { IfOk result (λ copy. copy ≡ self.now) }
    {
        let receipts = self.receipts.copied()?;
        let rules = self.rules.copied()?;
        Ok(RawTables {
            format: self.format,
            switch: self.switch,
            receipts,
            rules,
        })
    }
}
