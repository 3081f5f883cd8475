//! The rows of a store as they are read from its three tables, inside a transaction.

ghost use Rattle.std.specs.Prelude.{◌≡◌};

use crate::fault::SqlFault;
use line_text::Bytes;
use raw_tables::{RawReceipt, RawReceipts, RawRule, RawRules, RawTables};
use sqlite::{Alter, Row, Transaction, params};
use std::alloc::Global;

/// All that is stored.
pub(crate) fn read_tables<F: Alter>(
    alloc: Global,
    db: &mut Transaction<'_, F>,
) -> Result<RawTables, SqlFault>
    ensures same_reference { db.new.conn.ghost_name ≡ db.old.conn.ghost_name }
{
    let format = read_meta(db, "format")?;
    let switch = read_meta(db, "switch")?;
    let receipts = read_receipts(alloc, db)?;
    let rules = read_rules(alloc, db)?;
    Ok(RawTables {
        format,
        switch,
        receipts,
        rules,
    })
}

fn read_meta<F: Alter>(db: &mut Transaction<'_, F>, name: &str) -> Result<i64, SqlFault>
    ensures same_reference { db.new.conn.ghost_name ≡ db.old.conn.ghost_name }
{
    let row = db.query_row("SELECT value FROM meta WHERE name = ?1", params![name])?;
    let value = row.get(0)?;
    Ok(value)
}

fn read_receipts<F: Alter>(
    alloc: Global,
    db: &mut Transaction<'_, F>,
) -> Result<RawReceipts, SqlFault>
    ensures same_reference { db.new.conn.ghost_name ≡ db.old.conn.ghost_name }
{
    let rows = db.query_all(
        "SELECT num, edit_key, content, rules FROM receipt ORDER BY num",
        &[],
    )?;
    receipts_of(alloc, rows.as_slice())
}

fn read_rules<F: Alter>(alloc: Global, db: &mut Transaction<'_, F>) -> Result<RawRules, SqlFault>
    ensures same_reference { db.new.conn.ghost_name ≡ db.old.conn.ghost_name }
{
    let rows = db.query_all(
        "SELECT id, kind, allow, disabled, expires, priority, flags, label, requirement FROM authority ORDER BY id",
        &[],
    )?;
    rules_of(alloc, rows.as_slice())
}

fn receipts_of(alloc: Global, rows: &[Row]) -> Result<RawReceipts, SqlFault> {
    let mut receipts = RawReceipts::new(alloc);
    for row in rows {
        let receipt = receipt_of(row)?;
        receipts.push(receipt)?;
    }
    Ok(receipts)
}

fn rules_of(alloc: Global, rows: &[Row]) -> Result<RawRules, SqlFault> {
    let mut rules = RawRules::new(alloc);
    for row in rows {
        let rule = rule_of(row)?;
        rules.push(rule)?;
    }
    Ok(rules)
}

fn receipt_of(row: &Row) -> Result<RawReceipt, SqlFault> {
    let num = row.get(0)?;
    let key = text_at(row, 1)?;
    let content = bytes_at(row, 2)?;
    let rules = row.get(3)?;
    Ok(RawReceipt {
        num,
        key,
        content,
        rules,
    })
}

fn rule_of(row: &Row) -> Result<RawRule, SqlFault> {
    let id = row.get(0)?;
    let kind = row.get(1)?;
    let allow = row.get(2)?;
    let disabled = row.get(3)?;
    let expires = row.get(4)?;
    let priority = row.get(5)?;
    let flags = row.get(6)?;
    let label = bytes_at(row, 7)?;
    let requirement = bytes_at(row, 8)?;
    Ok(RawRule {
        id,
        kind,
        allow,
        disabled,
        expires,
        priority,
        flags,
        label,
        requirement,
    })
}

fn text_at(row: &Row, at: usize) -> Result<Bytes, SqlFault> {
    let text: String = row.get(at)?;
    Ok(Bytes::from_vec(text.into_bytes()))
}

fn bytes_at(row: &Row, at: usize) -> Result<Bytes, SqlFault> {
    let bytes: Vec<u8> = row.get(at)?;
    Ok(Bytes::from_vec(bytes))
}
