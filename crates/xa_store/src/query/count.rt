//! How many tokens and documents a domain has.
ghost use Rattle.std.specs.Prelude.{◌≡◌};
ghost use Rattle.std.specs.FinMap.{len};
ghost use Rattle.xa_store.specs.Meaning.{state_at};
ghost use Rattle.xa_store.specs.keeping.Quiet.{OnlyReadsOver, ReadsRows};

use crate::query::query_rows;
use crate::sql;
use sqlite::types::ValueRef;
use sqlite::{Alter, Connection};
use xa_records::Failure;

/// How many tokens the domain of that number has: 32 at most. In time in proportion to that.
#[tactic(auto, using(crate::proofs::TokenLemmas::tokens_plain))]
pub(crate) fn token_count<S: Alter>(conn: &mut Connection<S>, number: i64) -> Result<usize, Failure>
    ensures only_reads { OnlyReadsOver S.Store conn.old conn.new result }
    ensures reads { ReadsRows S.Store conn.old conn.new result
        (λ rows n. n ≡ len (state_at rows number).tokens) }
{
    let rows = query_rows(conn, sql::SHOW_TOKENS, &[ValueRef::Int(number)])?;
    Ok(rows.as_slice().len())
}

/// How many documents the domain of that number has: 1,024 at most. Their keys are put in order; their
/// texts aren't read, however long they are.
#[tactic(auto, using(crate::proofs::DocumentLemmas::kinds_plain))]
pub(crate) fn document_count<S: Alter>(
    conn: &mut Connection<S>,
    number: i64,
) -> Result<usize, Failure>
    ensures only_reads { OnlyReadsOver S.Store conn.old conn.new result }
    ensures reads { ReadsRows S.Store conn.old conn.new result
        (λ rows n. n ≡ len (state_at rows number).documents) }
{
    let rows = query_rows(conn, sql::SHOW_DOCUMENT_KINDS, &[ValueRef::Int(number)])?;
    Ok(rows.as_slice().len())
}
