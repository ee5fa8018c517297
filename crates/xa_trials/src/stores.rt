//! Rows of stores that are opened as a keeper's. The first field after the kind says how the store begins:
//! `empty`, or `keeper`, with the tables of a keeper without domains. Statements of SQL follow, which are
//! run. Then a crash is taken of its files, in memory. What it leaves is opened at both of its ends, which
//! have to be answered alike. The answer says whether the keeper is opened, and whether the store has a
//! keeper's tables and no others. Of a store that is refused it says whether it holds something else than
//! before.
use crate::answer::Answer;
use crate::field::first_field_and_rest;
use crate::files::{File, StoreOfFiles, after_crash, files_under, keeper_of, new_files};
use crate::keepers::{open_keeper, run_all};
use crate::no_answer::NoAnswer;
use sqlite::{Alter, Connection, Files, Row};
use std::alloc::Global;

/// A connection to the store in the files.
fn connection_in<S: StoreOfFiles>(
    alloc: Global,
    files: Files<File>,
) -> Result<Connection<S>, NoAnswer> {
    S::connection_to(alloc, files)
        .ok()
        .ok_or(NoAnswer::NotOpened)
}

/// A store in files, without tables.
pub fn empty_store<S: StoreOfFiles>(alloc: Global) -> Result<Connection<S>, NoAnswer> {
    connection_in(alloc, new_files(alloc))
}

/// A store in files that begins as the word says.
fn new_store<S: StoreOfFiles>(alloc: Global, word: &str) -> Result<Connection<S>, NoAnswer> {
    match word {
        "empty" => empty_store(alloc),
        "keeper" => {
            let records = keeper_of::<S>(alloc, new_files(alloc)).ok();
            Ok(records.ok_or(NoAnswer::NotOpened)?.into_connection())
        }
        _ => Err(NoAnswer::Malformed),
    }
}

/// The rows that the query shows.
fn rows_of<S: Alter>(conn: &mut Connection<S>, sql: &str) -> Result<Vec<Row>, NoAnswer> {
    conn.query_all(sql, &[]).ok().ok_or(NoAnswer::Malformed)
}

/// Adds the rows of the table of this row of the schema.
fn push_table<S: Alter>(
    alloc: Global,
    conn: &mut Connection<S>,
    held: &mut String,
    table: &Row,
) -> Result<(), NoAnswer> {
    let name = table.get::<String>(0).ok().ok_or(NoAnswer::Memory)?;
    let rows = rows_of(conn, &format!(in alloc; "SELECT * FROM {name}")?)?;
    write!(held, "{rows:?}")?;
    Ok(())
}

/// What the store holds: each table by the statement that made it, and its rows.
fn contents<S: Alter>(alloc: Global, conn: &mut Connection<S>) -> Result<String, NoAnswer> {
    let made = rows_of(
        conn,
        "SELECT name, sql FROM sqlite_schema WHERE type = 'table' ORDER BY name",
    )?;
    let mut held = format!(in alloc; "{made:?}")?;
    for table in &made {
        push_table(alloc, conn, &mut held, table)?;
    }
    Ok(held)
}

/// Opens the store in the files as a keeper's. Adds whether it has a keeper's tables and no others; or why it
/// isn't opened, and whether it then holds something else.
fn judge<S: StoreOfFiles>(answer: &mut Answer, files: Files<File>) -> Result<(), NoAnswer> {
    let alloc = answer.alloc();
    let mut conn = connection_in::<S>(alloc, files)?;
    let before = contents(alloc, &mut conn)?;
    match open_keeper(alloc, conn) {
        Ok(keeper) => {
            answer.push_word("opened");
            if keeper.has_only_our_tables() {
                answer.push_word("ours");
            }
        }
        Err((error, mut conn)) => {
            answer.push_shown("!", &error);
            if contents(alloc, &mut conn)?.as_str() != before.as_str() {
                answer.push_word("changed");
            }
        }
    }
    Ok(())
}

/// What opening the store answers after a crash: after one that leaves only what was synced, and after one
/// that leaves all that was written, which has to be answered the same.
pub fn opening<S: StoreOfFiles>(answer: &mut Answer, fields: &[&str]) -> Result<(), NoAnswer> {
    let (word, statements) = first_field_and_rest(fields)?;
    let alloc = answer.alloc();
    let mut conn = new_store::<S>(alloc, word)?;
    run_all(alloc, &mut conn, statements)?;
    let (synced, written) = after_crash(alloc, files_under(conn))?;
    judge::<S>(answer, synced)?;
    let mut other = Answer::new(alloc);
    judge::<S>(&mut other, written)?;
    answer.compare(&other);
    Ok(())
}
