//! A keeper over a connection to a SQLite store.

ghost use Rattle.std.specs.Prelude.{◌≡◌, ◌≤◌, None, false};
ghost use Rattle.gk_io.specs.Faults.{Rose};

use crate::fault::SqlFault;
use crate::reading::read_tables;
use crate::statements::{add_receipt, add_rule, change_rules, make_meta, make_tables, switch_to};
use policy_keeper::{Change, KeepFault, Keeper, added_rule};
use raw_tables::{RawReceipt, RawRule, RawTables};
use rule_edits::Content;
use rule_values::{RowChange, Selector};
use sqlite::{Alter, Connection};
use std::alloc::Global;

/// Keeps the rows in a SQLite store, and tells none of them. Each call is one transaction.
#[derive(Drop)]
pub struct SqlKeeper<F: Alter> {
    connection: Connection<F>,
    faults: u64,
    ghost idle: { connection.in_transaction ≡ false },
}

impl<F: Alter> SqlKeeper<F> {
    pub fn adopt(connection: Connection<F>) -> SqlKeeper<F>
        requires { connection.in_transaction ≡ false }
        ensures same { result.connection ≡ connection }
        ensures faults { result.faults ≡ 0 }
    {
        SqlKeeper {
            connection,
            faults: 0,
        }
    }

    pub fn release(self) -> Connection<F>
        ensures same { result ≡ self.connection }
        ensures idle { result.in_transaction ≡ false }
    {
        self.connection
    }

    /// How many of its calls failed, up to the greatest u64.
    pub fn faults(&self) -> u64
        ensures { result ≡ self.now.faults }
    {
        self.faults
    }

    /// What a fault is to the caller; each that isn't out of memory is counted.
    fn told(&mut self, fault: SqlFault) -> KeepFault
        ensures later { self.old.faults ≤ self.new.faults }
        ensures cause { result ≡ KeepFault.Failed → Rose (self.old.faults) (self.new.faults) }
        ensures steady { (result ≡ KeepFault.Failed → ⊥) → self.new.faults ≡ self.old.faults }
    {
        match fault {
            SqlFault::OutOfMemory => KeepFault::OutOfMemory,
            SqlFault::Refused => {
                self.faults = self.faults.saturating_add(1);
                KeepFault::Failed
            }
        }
    }
}

impl<F: Alter> Keeper for SqlKeeper<F> {
    ghost told = { λ _. None };

    ghost faults = { λ k. k.faults };

    /// Makes the tables and the two meta rows where they aren't there.
    fn load(&mut self, alloc: Global) -> Result<RawTables, KeepFault> {
        match load_all(alloc, &mut self.connection) {
            Ok(tables) => Ok(tables),
            Err(fault) => Err(self.told(fault)),
        }
    }

    fn apply(&mut self, alloc: Global, change: &Change) -> Result<(), KeepFault> {
        match make_change(alloc, &mut self.connection, change) {
            Ok(()) => Ok(()),
            Err(fault) => Err(self.told(fault)),
        }
    }
}

/// Makes what isn't there and reads all rows, in one transaction.
fn load_all<F: Alter>(alloc: Global, connection: &mut Connection<F>) -> Result<RawTables, SqlFault>
    requires { connection.old.in_transaction ≡ false }
    ensures idle { connection.new.in_transaction ≡ false }
{
    let mut db = connection.transaction();
    make_tables(&mut db)?;
    make_meta(&mut db)?;
    let tables = read_tables(alloc, &mut db)?;
    db.commit()?;
    Ok(tables)
}

fn make_change<F: Alter>(
    alloc: Global,
    connection: &mut Connection<F>,
    change: &Change,
) -> Result<(), SqlFault>
    requires { connection.old.in_transaction ≡ false }
    ensures idle { connection.new.in_transaction ≡ false }
{
    let receipt = change.receipt(alloc)?;
    match &change.edit.content {
        Content::Add(rule) => {
            let row = added_rule(alloc, change.number, rule)?;
            add_both(connection, &receipt, &row)
        }
        Content::Remove(selector) => {
            change_both(connection, &receipt, selector, &RowChange::Remove)
        }
        Content::Enable(selector) => {
            change_both(connection, &receipt, selector, &RowChange::Enable)
        }
        Content::Disable(selector) => {
            change_both(connection, &receipt, selector, &RowChange::Disable)
        }
        Content::Expire(selector, end) => {
            change_both(connection, &receipt, selector, &RowChange::Expire(*end))
        }
        Content::Switch(on) => switch_both(connection, &receipt, *on),
    }
}

/// Adds a receipt and a rule, in one transaction.
fn add_both<F: Alter>(
    connection: &mut Connection<F>,
    receipt: &RawReceipt,
    rule: &RawRule,
) -> Result<(), SqlFault>
    requires { connection.old.in_transaction ≡ false }
    ensures idle { connection.new.in_transaction ≡ false }
{
    let mut db = connection.transaction();
    add_receipt(&mut db, receipt)?;
    add_rule(&mut db, rule)?;
    db.commit()?;
    Ok(())
}

/// Adds a receipt and changes the selected rules, in one transaction.
fn change_both<F: Alter>(
    connection: &mut Connection<F>,
    receipt: &RawReceipt,
    selector: &Selector,
    change: &RowChange,
) -> Result<(), SqlFault>
    requires { connection.old.in_transaction ≡ false }
    ensures idle { connection.new.in_transaction ≡ false }
{
    let mut db = connection.transaction();
    add_receipt(&mut db, receipt)?;
    change_rules(&mut db, selector, change)?;
    db.commit()?;
    Ok(())
}

/// Adds a receipt and switches assessments, in one transaction.
fn switch_both<F: Alter>(
    connection: &mut Connection<F>,
    receipt: &RawReceipt,
    on: bool,
) -> Result<(), SqlFault>
    requires { connection.old.in_transaction ≡ false }
    ensures idle { connection.new.in_transaction ≡ false }
{
    let mut db = connection.transaction();
    add_receipt(&mut db, receipt)?;
    switch_to(&mut db, on)?;
    db.commit()?;
    Ok(())
}
