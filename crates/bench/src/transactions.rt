//! Transactions on a file by SQL alone, with the rows of a session's edits that each add a rule.

ghost use Rattle.std.specs.Prelude.{◌≡◌, false};

use crate::plan::read_plan;
use sqlite::{Alter, Connection, Error, File, FileStore, params};
use std::alloc::Global;
use std::time::Instant;
use std::{env, io};

/// No more transactions than these are made.
const MOST: u64 = 1_000_000;

/// The words are the name of a new file and how many transactions; with the word `time` each line has the
/// nanoseconds.
pub fn measure(rt: &HostRuntime) -> io::Result<()> {
    let plan = read_plan(rt, 1000)?;
    for word in env::args(rt)?.skip(2) {
        let word = word.as_str();
        if word != "time" && word.parse::<u64>().is_err() {
            measure_file(rt, word, plan.times, plan.timed)?;
        }
    }
    Ok(())
}

/// Fills one file, and prints how many transactions were made.
fn measure_file(rt: &HostRuntime, name: &str, times: u64, timed: bool) -> io::Result<()> {
    let start = Instant::now(rt)?;
    let made = match Connection::open(rt, name) {
        Ok(connection) => fill(rt.alloc(), connection, times),
        Err(_) => 0,
    };
    let filling = start.elapsed(rt)?.as_nanos();
    if timed {
        println!(rt; "{name}: {made} transactions {filling}")
    } else {
        println!(rt; "{name}: {made} transactions")
    }
}

/// How many transactions were made, up to the first that failed.
fn fill(alloc: Global, mut connection: Connection<FileStore<File>>, times: u64) -> u64
    requires { connection.in_transaction ≡ false }
{
    let mut made = 0;
    if make_tables(&mut connection).is_ok() {
        for number in 1..=times.min(MOST) {
            if add_both(alloc, &mut connection, number as i64).is_err() {
                break;
            }
            made = number;
        }
    }
    let _ = connection.close();
    made
}

fn make_tables<F: Alter>(connection: &mut Connection<F>) -> Result<(), Error>
    requires { connection.old.in_transaction ≡ false }
    ensures idle { connection.new.in_transaction ≡ false }
{
    let mut db = connection.transaction();
    db.execute(
        "CREATE TABLE receipt(num INTEGER PRIMARY KEY, edit_key TEXT NOT NULL UNIQUE, content BLOB NOT NULL, rules INTEGER NOT NULL)",
        &[],
    )?;
    db.execute(
        "CREATE TABLE authority(id INTEGER PRIMARY KEY, kind INTEGER NOT NULL, allow INTEGER NOT NULL, disabled INTEGER NOT NULL, expires INTEGER, priority INTEGER NOT NULL, flags INTEGER NOT NULL, label BLOB NOT NULL, requirement BLOB NOT NULL)",
        &[],
    )?;
    db.commit()?;
    Ok(())
}

/// Adds a receipt and a rule of this number, in one transaction.
fn add_both<F: Alter>(
    alloc: Global,
    connection: &mut Connection<F>,
    number: i64,
) -> Result<(), Error>
    requires { connection.old.in_transaction ≡ false }
    ensures idle { connection.new.in_transaction ≡ false }
{
    let key = format!(in alloc; "k{number}")?;
    let need = format!(in alloc; "identifier com.example.app{number}")?;
    let content = format!(in alloc; "add execute allow 0 never - - {need}")?;
    let never: Option<i64> = None;
    let mut db = connection.transaction();
    db.execute(
        "INSERT INTO receipt(num, edit_key, content, rules) VALUES (?1, ?2, ?3, ?4)",
        params![number, key.as_str(), content.as_bytes(), 1i64],
    )?;
    db.execute(
        "INSERT INTO authority(id, kind, allow, disabled, expires, priority, flags, label, requirement) VALUES (?1, ?2, ?3, ?4, ?5, ?6, ?7, ?8, ?9)",
        params![
            number,
            1i64,
            1i64,
            0i64,
            never,
            0i64,
            0i64,
            &b""[..],
            need.as_bytes()
        ],
    )?;
    db.commit()?;
    Ok(())
}
