//! The names of all domains.
ghost use Rattle.std.specs.Prelude.{◌≡◌};
ghost use Rattle.xa_records.specs.Kept.{names_of};
ghost use Rattle.xa_store.specs.Meaning.{kept_of};
ghost use Rattle.xa_store.specs.keeping.Quiet.{OnlyReadsOver, ReadsRows};
ghost use Rattle.xa_store.specs.keeping.Columns.{name_told};

use crate::query::cell::text_in;
use crate::query::columns::name_row;
use crate::query::query_rows;
use crate::query::row::{FromRow, read_all};
use crate::sql;
use sqlite::{Alter, Connection, Row};
use std::alloc::Global;
use xa_records::Failure;
use xa_value::{Items, Text};

/// Read from the column of `sql::SHOW_DOMAIN_NAMES`.
impl FromRow for Text {
    ghost told = { name_told };

    fn from_row(_: Global, row: &Row) -> Result<Text, Failure> {
        text_in(row, name_row::NAME)
    }
}

/// The names of all domains, in the order of their bytes. In time in proportion to their number.
#[tactic(auto, using(crate::proofs::NameLemmas::names_plain))]
pub(crate) fn names_in<S: Alter>(
    alloc: Global,
    conn: &mut Connection<S>,
) -> Result<Items<Text>, Failure>
    ensures only_reads { OnlyReadsOver S.Store conn.old conn.new result }
    ensures reads { ReadsRows S.Store conn.old conn.new result
        (λ rows names. names ≡ names_of (kept_of rows)) }
{
    let rows = query_rows(conn, sql::SHOW_DOMAIN_NAMES, &[])?;
    read_all(alloc, rows)
}
