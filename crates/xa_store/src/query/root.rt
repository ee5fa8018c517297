//! The root of a domain.
ghost use Rattle.std.specs.Prelude.{◌≡◌};
ghost use Rattle.xa_store.specs.Meaning.{state_at};
ghost use Rattle.xa_store.specs.keeping.Quiet.{OnlyReadsOver, ReadsRows};
ghost use Rattle.xa_store.specs.keeping.Columns.{root_told};

use crate::query::cell::{kind_in, pattern_if_any, text_in, version_if_any};
use crate::query::columns::root_row;
use crate::query::query_rows;
use crate::query::row::{FromRow, read_one};
use crate::sql;
use sqlite::types::ValueRef;
use sqlite::{Alter, Connection, Row};
use std::alloc::Global;
use xa_policy::Reference;
use xa_records::Failure;

/// Read from the columns of `sql::SHOW_ROOT`.
impl FromRow for Reference {
    ghost told = { root_told };

    fn from_row(_: Global, row: &Row) -> Result<Reference, Failure> {
        let kind = kind_in(row, root_row::KIND)?;
        let id = text_in(row, root_row::ID)?;
        let version = pattern_if_any(row, root_row::PATTERN)?;
        let earliest = version_if_any(row, root_row::EARLIEST)?;
        let latest = version_if_any(row, root_row::LATEST)?;
        Ok(Reference {
            kind,
            id,
            version,
            earliest,
            latest,
        })
    }
}

/// The root of the domain of that number, if one is set: a point query.
#[tactic(auto, using(crate::proofs::RootLemmas::root_plain))]
pub(crate) fn root_of<S: Alter>(
    alloc: Global,
    conn: &mut Connection<S>,
    number: i64,
) -> Result<Option<Reference>, Failure>
    ensures only_reads { OnlyReadsOver S.Store conn.old conn.new result }
    ensures reads { ReadsRows S.Store conn.old conn.new result
        (λ rows root. root ≡ (state_at rows number).root) }
{
    let rows = query_rows(conn, sql::SHOW_ROOT, &[ValueRef::Int(number)])?;
    read_one(alloc, rows.as_slice())
}
