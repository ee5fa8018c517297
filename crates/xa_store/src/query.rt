//! Plain queries of a keeper's tables, which change nothing. `reading` has the readings of a domain by its
//! name: its `domain` is found, and by its number its `token`s, its `document`s, its `root` and its `source`
//! are asked for. `name`, `number` and `count` ask what else a reading or a plan needs. What a `row` tells is
//! read `cell` by `cell`, at the places that `columns` has.
ghost use Rattle.std.specs.Prelude.{IfErr, IfOk, IsErrOf};
ghost use Rattle.sqlite.specs.Given.{IsPlain};
ghost use Rattle.sqlite.specs.Held.{state};
ghost use Rattle.sqlite.specs.Listing.{understood};
ghost use Rattle.sqlite.specs.State.{HasCleanDisk};
ghost use Rattle.sqlite.specs.Values.{bound};
ghost use Rattle.sqlite.specs.declared.error.Error.TheVariants.{SqliteFailure};
ghost use Rattle.sqlite.specs.declared.error.ErrorCode.TheVariants.{OutOfMemory};
ghost use Rattle.xa_records.specs.declared.refusal.Failure.TheVariants.{Memory};
ghost use Rattle.xa_store.specs.keeping.Quiet.{FailsToQueryOver, OnlyReadsOver, ShownOver};
ghost use Rattle.xa_store.specs.Tables.{schema_2};

pub(crate) mod cell;
pub(crate) mod columns;
pub(crate) mod count;
pub(crate) mod document;
pub(crate) mod document_row;
pub(crate) mod domain;
pub(crate) mod name;
pub(crate) mod number;
pub(crate) mod reading;
pub(crate) mod root;
pub(crate) mod row;
pub(crate) mod source;
pub(crate) mod token;

use crate::failure::failure_of;
use sqlite::types::ValueRef;
use sqlite::{Alter, Connection, Error, Row};
use xa_records::Failure;

/// All rows that a plain query of these tables shows. It changes nothing. For the proof: in a function of its
/// own, the error is the database's.
fn rows_shown<S: Alter>(
    conn: &mut Connection<S>,
    sql: &str,
    given: &[ValueRef<'_>],
) -> Result<Vec<Row>, Error>
    requires { IsPlain (understood schema_2 sql.now) }
    ensures only_reads { OnlyReadsOver S.Store conn.old conn.new result }
    ensures fails { HasCleanDisk (state S.Store conn.new)
        → IfErr result (FailsToQueryOver S.Store sql.now (bound given.now) conn.old conn.new) }
    ensures shows { HasCleanDisk (state S.Store conn.new) → IfOk result (λ rows.
        ShownOver S.Store sql.now (bound given.now) conn.old conn.new rows.items) }
{
    conn.query_all(sql, given)
}

/// All rows that a plain query of these tables shows. `Memory` only if the database told want of memory.
/// The connection keeps the plan of each text, so none is prepared.
pub(crate) fn query_rows<S: Alter>(
    conn: &mut Connection<S>,
    sql: &str,
    given: &[ValueRef<'_>],
) -> Result<Vec<Row>, Failure>
    requires { IsPlain (understood schema_2 sql.now) }
    ensures only_reads { OnlyReadsOver S.Store conn.old conn.new result }
    ensures wants { HasCleanDisk (state S.Store conn.new) → IsErrOf result Memory
        → FailsToQueryOver S.Store sql.now (bound given.now) conn.old conn.new (SqliteFailure OutOfMemory) }
    ensures shows { HasCleanDisk (state S.Store conn.new) → IfOk result (λ rows.
        ShownOver S.Store sql.now (bound given.now) conn.old conn.new rows.items) }
{
    rows_shown(conn, sql, given).map_err(failure_of)
}
