//! The rows of one table, one at a time, so that one body at a time is in memory.
ghost use Rattle.std.specs.Prelude.{◌≡◌, ℕ, List, [], IsTrue, OnOk};
ghost use Rattle.sqlite.specs.Given.{HasGiven, row_if};
ghost use Rattle.sqlite.specs.Held.{state};
ghost use Rattle.sqlite.specs.Order.{Row as SqlRow};
ghost use Rattle.sqlite.specs.State.{HasCleanDisk, IsUnchanged};
ghost use Rattle.xa_store.specs.keeping.Check.{IsKeptOrUndone, Moves, SurvivesOver, TellsNext};
ghost use Rattle.xa_store.specs.keeping.Check.{TellsRowid, Walked};
ghost use Rattle.xa_store.specs.keeping.Check.{comes_after, has_table};

use crate::check::row::{is_sound_row, rowid_in};
use crate::error::OpenError;
use crate::failure::error_of_check;
use crate::schema::checked_table::CheckedTable;
use crate::schema::version::Checking;
use sqlite::{Alter, Connection, Row, Rows};
use std::alloc::Global;

/// Whether the rowid is above the last.
fn comes_after(last: Option<i64>, rowid: i64) -> bool
    ensures { result ≡ comes_after last rowid }
{
    match last {
        Some(last) => last < rowid,
        None => true,
    }
}

/// The rowid of the row, if it is a sound one that comes after the last.
fn sound_rowid(
    alloc: Global,
    table: CheckedTable,
    next_domain: i64,
    last: Option<i64>,
    row: &Row,
) -> Result<i64, OpenError>
    ensures { TellsRowid table next_domain last row.now result }
{
    let Some(rowid) = rowid_in(row) else {
        return Err(OpenError::Damaged);
    };
    if is_sound_row(alloc, table, next_domain, row)? && comes_after(last, rowid) {
        Ok(rowid)
    } else {
        Err(OpenError::Damaged)
    }
}

/// The rowid of the row at which the query stands, or none past the last.
fn rowid_here<S: Alter>(
    alloc: Global,
    table: CheckedTable,
    next_domain: i64,
    last: Option<i64>,
    rows: &Rows<'_, S>,
) -> Result<Option<i64>, OpenError>
    ensures { TellsNext table next_domain last (row_if rows.now.has_row rows.now.conn.now) result }
{
    match rows.get() {
        Some(row) => Ok(Some(sound_rowid(alloc, table, next_domain, last, row)?)),
        None => Ok(None),
    }
}

/// The rowid of the next row, if there is one.
fn rowid_of_next<S: Alter>(
    alloc: Global,
    table: CheckedTable,
    next_domain: i64,
    last: Option<i64>,
    rows: &mut Rows<'_, S>,
) -> Result<Option<i64>, OpenError>
    ensures same_reference { rows.new.conn.ghost_name ≡ rows.old.conn.ghost_name }
    ensures survives { SurvivesOver S.Store rows.old.conn.now rows.new.conn.now }
    ensures same { HasCleanDisk (state S.Store rows.new.conn.now)
        → OnOk result (IsUnchanged (state S.Store rows.old.conn.now) (state S.Store rows.new.conn.now)) }
    ensures kept { HasCleanDisk (state S.Store rows.new.conn.now)
        → IsKeptOrUndone S.Store rows.old.conn.now rows.new.conn.now }
    ensures moves { HasCleanDisk (state S.Store rows.new.conn.now)
        → (sql : List ℕ) → (given : List SqlRow) → HasGiven S.Store sql [] rows.old.conn.now given
        → Moves S.Store table next_domain last rows.old.conn.now rows.new.conn.now sql given result }
{
    match rows.advance() {
        Ok(()) => rowid_here(alloc, table, next_domain, last, rows),
        Err(error) => Err(error_of_check(error)),
    }
}

/// Checks all rows of the table, in the order of their rowids.
pub(crate) fn walk<S: Alter>(
    alloc: Global,
    conn: &mut Connection<S>,
    table: CheckedTable,
    checking: Checking,
) -> Result<(), OpenError>
    requires { IsTrue (has_table table checking.version) }
    ensures { Walked checking.version table checking.next_domain
        (state S.Store conn.old) (state S.Store conn.new) result }
{
    let mut last = None;
    let mut rows = match conn.query(table.rows_query(), &[]) {
        Ok(rows) => rows,
        Err(error) => return Err(error_of_check(error)),
    };
    // Bounded, as no clause of the kit bounds what a query shows; the count never ends a walk that a file
    // could hold. For the proof: the label names the loop.
    'rows: for _ in 0..u64::MAX {
        match rowid_of_next(alloc, table, checking.next_domain, last, &mut rows)? {
            Some(rowid) => last = Some(rowid),
            None => return Ok(()),
        }
    }
    Err(OpenError::Store)
}
