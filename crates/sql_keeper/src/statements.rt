//! The statements on the three tables of a store, inside a transaction.

ghost use Rattle.std.specs.Prelude.{◌≡◌};

use crate::fault::SqlFault;
use policy_keeper::{expiry_number, kind_number};
use raw_tables::{RawReceipt, RawRule};
use rule_values::{Kind, Moment, RowChange, Selector, Which};
use sqlite::types::ValueRef;
use sqlite::{Alter, Transaction, params};

/// Makes those of the three tables that aren't there.
pub(crate) fn make_tables<F: Alter>(db: &mut Transaction<'_, F>) -> Result<(), SqlFault>
    ensures same_reference { db.new.conn.ghost_name ≡ db.old.conn.ghost_name }
{
    make_table(
        db,
        "meta",
        "CREATE TABLE meta(name TEXT PRIMARY KEY, value INTEGER NOT NULL)",
    )?;
    make_table(
        db,
        "receipt",
        "CREATE TABLE receipt(num INTEGER PRIMARY KEY, edit_key TEXT NOT NULL UNIQUE, content BLOB NOT NULL, rules INTEGER NOT NULL)",
    )?;
    make_table(
        db,
        "authority",
        "CREATE TABLE authority(id INTEGER PRIMARY KEY, kind INTEGER NOT NULL, allow INTEGER NOT NULL, disabled INTEGER NOT NULL, expires INTEGER, priority INTEGER NOT NULL, flags INTEGER NOT NULL, label BLOB NOT NULL, requirement BLOB NOT NULL)",
    )
}

/// Makes a table by this statement, unless one has the name. The store keeps the statement as it is written here.
fn make_table<F: Alter>(
    db: &mut Transaction<'_, F>,
    name: &str,
    statement: &str,
) -> Result<(), SqlFault>
    ensures same_reference { db.new.conn.ghost_name ≡ db.old.conn.ghost_name }
{
    if has_table(db, name)? {
        Ok(())
    } else {
        run(db, statement, &[])
    }
}

fn has_table<F: Alter>(db: &mut Transaction<'_, F>, name: &str) -> Result<bool, SqlFault>
    ensures same_reference { db.new.conn.ghost_name ≡ db.old.conn.ghost_name }
{
    let row = db.query_row(
        "SELECT count(*) FROM sqlite_schema WHERE name = ?1",
        params![name],
    )?;
    let count: i64 = row.get(0)?;
    Ok(count > 0)
}

/// Makes those of the two meta rows that aren't there.
pub(crate) fn make_meta<F: Alter>(db: &mut Transaction<'_, F>) -> Result<(), SqlFault>
    ensures same_reference { db.new.conn.ghost_name ≡ db.old.conn.ghost_name }
{
    run(
        db,
        "INSERT OR IGNORE INTO meta(name, value) VALUES ('format', 1)",
        &[],
    )?;
    run(
        db,
        "INSERT OR IGNORE INTO meta(name, value) VALUES ('switch', 1)",
        &[],
    )
}

/// Adds a receipt's row.
pub(crate) fn add_receipt<F: Alter>(
    db: &mut Transaction<'_, F>,
    row: &RawReceipt,
) -> Result<(), SqlFault>
    ensures same_reference { db.new.conn.ghost_name ≡ db.old.conn.ghost_name }
{
    match std::str::from_utf8(row.key.as_slice()) {
        Err(_) => Err(SqlFault::Refused),
        Ok(key) => run(
            db,
            "INSERT INTO receipt(num, edit_key, content, rules) VALUES (?1, ?2, ?3, ?4)",
            params![row.num, key, row.content.as_slice(), row.rules],
        ),
    }
}

/// Adds a rule's row.
pub(crate) fn add_rule<F: Alter>(db: &mut Transaction<'_, F>, row: &RawRule) -> Result<(), SqlFault>
    ensures same_reference { db.new.conn.ghost_name ≡ db.old.conn.ghost_name }
{
    run(
        db,
        "INSERT INTO authority(id, kind, allow, disabled, expires, priority, flags, label, requirement) VALUES (?1, ?2, ?3, ?4, ?5, ?6, ?7, ?8, ?9)",
        params![
            row.id,
            row.kind,
            row.allow,
            row.disabled,
            row.expires,
            row.priority,
            row.flags,
            row.label.as_slice(),
            row.requirement.as_slice()
        ],
    )
}

/// Changes the rows of the selected rules, or takes them out.
pub(crate) fn change_rules<F: Alter>(
    db: &mut Transaction<'_, F>,
    selector: &Selector,
    change: &RowChange,
) -> Result<(), SqlFault>
    ensures same_reference { db.new.conn.ghost_name ≡ db.old.conn.ghost_name }
{
    match change {
        RowChange::Remove => change_selected(
            db,
            selector,
            "DELETE FROM authority WHERE id = ?1 AND (?2 IS NULL OR kind = ?2)",
            "DELETE FROM authority WHERE label = ?1 AND (?2 IS NULL OR kind = ?2)",
        ),
        RowChange::Enable => change_selected(
            db,
            selector,
            "UPDATE authority SET disabled = 0 WHERE id = ?1 AND (?2 IS NULL OR kind = ?2)",
            "UPDATE authority SET disabled = 0 WHERE label = ?1 AND (?2 IS NULL OR kind = ?2)",
        ),
        RowChange::Disable => change_selected(
            db,
            selector,
            "UPDATE authority SET disabled = disabled + 1 WHERE id = ?1 AND (?2 IS NULL OR kind = ?2)",
            "UPDATE authority SET disabled = disabled + 1 WHERE label = ?1 AND (?2 IS NULL OR kind = ?2)",
        ),
        RowChange::Expire(end) => end_selected(db, selector, *end),
    }
}

/// Runs the first statement for a rule's number, or the second for a label; both take that and a kind or none.
fn change_selected<F: Alter>(
    db: &mut Transaction<'_, F>,
    selector: &Selector,
    by_id: &str,
    by_label: &str,
) -> Result<(), SqlFault>
    ensures same_reference { db.new.conn.ghost_name ≡ db.old.conn.ghost_name }
{
    let kind = stored_kind(selector.kind);
    match &selector.which {
        Which::Id(id) => run(db, by_id, params![id.get() as i64, kind]),
        Which::Label(label) => run(db, by_label, params![label.as_slice(), kind]),
    }
}

fn end_selected<F: Alter>(
    db: &mut Transaction<'_, F>,
    selector: &Selector,
    end: Option<Moment>,
) -> Result<(), SqlFault>
    ensures same_reference { db.new.conn.ghost_name ≡ db.old.conn.ghost_name }
{
    let kind = stored_kind(selector.kind);
    let end = expiry_number(end);
    match &selector.which {
        Which::Id(id) => run(
            db,
            "UPDATE authority SET expires = ?3 WHERE id = ?1 AND (?2 IS NULL OR kind = ?2)",
            params![id.get() as i64, kind, end],
        ),
        Which::Label(label) => run(
            db,
            "UPDATE authority SET expires = ?3 WHERE label = ?1 AND (?2 IS NULL OR kind = ?2)",
            params![label.as_slice(), kind, end],
        ),
    }
}

fn stored_kind(kind: Option<Kind>) -> Option<i64> {
    match kind {
        None => None,
        Some(kind) => Some(kind_number(kind)),
    }
}

/// Stores whether assessments are switched on.
pub(crate) fn switch_to<F: Alter>(db: &mut Transaction<'_, F>, on: bool) -> Result<(), SqlFault>
    ensures same_reference { db.new.conn.ghost_name ≡ db.old.conn.ghost_name }
{
    run(
        db,
        "UPDATE meta SET value = ?1 WHERE name = 'switch'",
        params![on as i64],
    )
}

/// Runs a statement that shows no rows.
fn run<F: Alter>(
    db: &mut Transaction<'_, F>,
    statement: &str,
    values: &[ValueRef<'_>],
) -> Result<(), SqlFault>
    ensures same_reference { db.new.conn.ghost_name ≡ db.old.conn.ghost_name }
{
    db.execute(statement, values)?;
    Ok(())
}
