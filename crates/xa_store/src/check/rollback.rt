//! The check of tables that aren't a keeper's alone: in a transaction that is undone, so they stay as
//! they were, whatever the queries do.
ghost use Rattle.std.specs.Prelude.{◌≢◌};
ghost use Rattle.sqlite.specs.Held.{state};
ghost use Rattle.xa_store.specs.keeping.Check.{Begins, IsIdle, Tested, Undoes, found_as};
ghost use Rattle.xa_store.specs.Opened.{schema_of};
ghost use Rattle.xa_store.specs.declared.keeper.tables.Tables.TheVariants.{WithOthers};

use crate::check::tables::check;
use crate::error::OpenError;
use crate::failure::error_of_statement;
use crate::schema::version::SchemaVersion;
use crate::sql;
use sqlite::{Alter, Connection};
use std::alloc::Global;

/// Begins a transaction.
fn begin_transaction<S: Alter>(conn: &mut Connection<S>) -> Result<(), OpenError>
    ensures { Begins (state S.Store conn.old) (state S.Store conn.new) result }
{
    match conn.execute(sql::BEGIN, &[]) {
        Ok(_) => Ok(()),
        Err(error) => Err(error_of_statement(error)),
    }
}

/// Undoes the transaction, if an error has not yet done so.
fn undo_transaction<S: Alter>(conn: &mut Connection<S>) -> Result<(), OpenError>
    ensures { Undoes (state S.Store conn.old) (state S.Store conn.new) result }
{
    if conn.is_autocommit() {
        return Ok(());
    }
    match conn.execute(sql::ROLLBACK, &[]) {
        Ok(_) => Ok(()),
        Err(error) => Err(error_of_statement(error)),
    }
}

/// Checks the tables as those of that schema, beside others.
pub(crate) fn check_in_undone_transaction<S: Alter>(
    alloc: Global,
    conn: &mut Connection<S>,
    version: SchemaVersion,
) -> Result<(), OpenError>
    requires quiet { IsIdle (state S.Store conn.old) }
    requires other { (state S.Store conn.old).now.schema ≢ schema_of version }
    ensures { Tested version (state S.Store conn.old) (state S.Store conn.new) (found_as WithOthers result) }
{
    begin_transaction(conn)?;
    let checked = check(alloc, conn, version);
    undo_transaction(conn)?;
    checked
}
