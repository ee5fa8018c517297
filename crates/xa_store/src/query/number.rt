//! The number that the next domain gets.
ghost use Rattle.std.specs.Prelude.{IfOk};
ghost use Rattle.xa_store.specs.keeping.Lookup.{IsNext, TellNext};
ghost use Rattle.xa_store.specs.keeping.Quiet.{OnlyReadsOver, ReadsRows};

use crate::query::cell::number_in;
use crate::query::columns::next_row;
use crate::query::query_rows;
use crate::sql;
use sqlite::{Alter, Connection, Row};
use xa_records::Failure;

/// The number that the one row of `sql::SHOW_NEXT_NUMBER` tells. No row, and several, are a failure of the
/// store.
fn read_next(rows: &[Row]) -> Result<i64, Failure>
    ensures { IfOk result (TellNext rows.now) }
{
    match rows {
        [row] => {
            let number = number_in(row, next_row::NEXT_NUMBER)?;
            if number < 0 {
                return Err(Failure::Store);
            }
            Ok(number)
        }
        _ => Err(Failure::Store),
    }
}

/// The number that the next domain gets. A point query.
#[tactic(auto, using(crate::proofs::NextLemmas::next_plain))]
pub(crate) fn next_number<S: Alter>(conn: &mut Connection<S>) -> Result<i64, Failure>
    ensures only_reads { OnlyReadsOver S.Store conn.old conn.new result }
    ensures finds { ReadsRows S.Store conn.old conn.new result IsNext }
{
    let rows = query_rows(conn, sql::SHOW_NEXT_NUMBER, &[])?;
    read_next(rows.as_slice())
}
