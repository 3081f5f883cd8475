//! A whole store.

ghost use Rattle.std.specs.Prelude.{◌≡◌, IfOk, IfErr};
ghost use Rattle.raw_tables.specs.Raw.{plain_tables};
ghost use Rattle.store_model.specs.Accepted.{Accepts, IsWithin};
ghost use Rattle.store_model.specs.Stored.{Holds, bool_number};
ghost use Rattle.store_reading.specs.Fault.{IsRefused};
ghost use Rattle.store_reading.specs.Tables.{tables_of};

use crate::fault::{StoreFault, StoreRow};
use crate::numbers::read_bool;
use crate::receipts::read_receipts;
use crate::rules::read_rules;
use authority_table::Table;
use edit_receipts::Receipts;
use raw_tables::RawTables;
use std::alloc::Global;
use store_model::limits::STORE_FORMAT;

/// The tables of a store.
#[derive(Drop)]
pub struct StoredTables {
    pub table: Table,
    pub receipts: Receipts,
    /// Whether assessments are switched on.
    pub enabled: bool,
}

/// The tables that stored rows mean. The rows stay as they are, and what is made of them is a copy.
pub fn read_store(alloc: Global, raw: &RawTables) -> Result<StoredTables, StoreFault>
    ensures meant { IfOk result (λ stored. Holds (plain_tables raw.now) (tables_of stored)) }
    ensures accepted { IfOk result (λ stored. Accepts (plain_tables raw.now)) }
    ensures refused { IfErr result (λ fault. IsRefused fault (plain_tables raw.now)) }
{
    if raw.format != STORE_FORMAT {
        return Err(StoreFault::BadStore(StoreRow::Format));
    }
    let Some(enabled) = read_bool(raw.switch) else {
        return Err(StoreFault::BadStore(StoreRow::Switch));
    };
    let receipts = read_receipts(alloc, raw.receipts.as_slice())?;
    let table = read_rules(alloc, raw.receipts.as_slice(), raw.rules.as_slice())?;
    Ok(StoredTables {
        table,
        receipts,
        enabled,
    })
}
