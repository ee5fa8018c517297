//! The source of attributes of a domain, row by row.
ghost use Rattle.std.specs.Prelude.{◌≡◌, IfOk};
ghost use Rattle.sqlite.specs.Order.{column};
ghost use Rattle.sqlite_typed.specs.Columns.{bytes_of, int_of};
ghost use Rattle.xa_store.specs.Meaning.{state_at};
ghost use Rattle.xa_store.specs.keeping.Quiet.{OnlyReadsOver, ReadsRows};
ghost use Rattle.xa_store.specs.Rows.{value_in};
ghost use Rattle.xa_store.specs.keeping.Columns.{source_told};
ghost use Rattle.xa_store.specs.keeping.ShownColumns.{source_value, source_value_type};

use crate::query::cell::{text_if_any, text_in, type_in};
use crate::query::columns::source_row;
use crate::query::query_rows;
use crate::query::row::{FromRow, read_all};
use crate::sql;
use sqlite::types::ValueRef;
use sqlite::{Alter, Connection, Row};
use std::alloc::Global;
use xa_decide::SourceRow;
use xa_records::Failure;
use xa_value::{Items, Value};

/// Read from the columns of `sql::SHOW_SOURCE`.
impl FromRow for SourceRow {
    ghost told = { source_told };

    fn from_row(alloc: Global, row: &Row) -> Result<SourceRow, Failure> {
        let category = text_in(row, source_row::CATEGORY)?;
        let entity = text_in(row, source_row::ENTITY)?;
        let attribute_id = text_in(row, source_row::ATTRIBUTE)?;
        let value = value_in(alloc, row)?;
        let issuer = text_if_any(row, source_row::ISSUER)?;
        Ok(SourceRow {
            category,
            entity,
            attribute_id,
            value,
            issuer,
        })
    }
}

/// The value that two columns of the row hold: its data type, and its text.
#[tactic(auto, unfolding(crate::specs::Rows::value_in))]
fn value_in(alloc: Global, row: &Row) -> Result<Value, Failure>
    ensures { IfOk result (λ value. value
        ≡ value_in (int_of (column row.now source_value_type)) (bytes_of (column row.now source_value))) }
{
    let data_type = type_in(row, source_row::VALUE_TYPE)?;
    let text = text_in(row, source_row::VALUE)?;
    Ok(Value::read(alloc, data_type, text.as_str())?)
}

/// The rows of the source of the domain of that number, in the order of their places. In time in
/// proportion to their number; there are 4,096 at most.
#[tactic(auto, using(crate::proofs::SourceLemmas::source_plain))]
pub(crate) fn source_of<S: Alter>(
    alloc: Global,
    conn: &mut Connection<S>,
    number: i64,
) -> Result<Items<SourceRow>, Failure>
    ensures only_reads { OnlyReadsOver S.Store conn.old conn.new result }
    ensures reads { ReadsRows S.Store conn.old conn.new result
        (λ rows source. source ≡ (state_at rows number).source) }
{
    let rows = query_rows(conn, sql::SHOW_SOURCE, &[ValueRef::Int(number)])?;
    read_all(alloc, rows)
}
