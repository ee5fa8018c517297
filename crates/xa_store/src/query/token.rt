//! The tokens of a domain: the role of one, and all of them.
ghost use Rattle.std.specs.Prelude.{◌≡◌, map, IfOk};
ghost use Rattle.std.specs.FinMap.{entries};
ghost use Rattle.sqlite_typed.specs.Columns.{bytes_of};
ghost use Rattle.sqlite.specs.Order.{column};
ghost use Rattle.xa_records.specs.Readings.{token_of};
ghost use Rattle.xa_store.specs.keeping.Lookup.{FindsRole};
ghost use Rattle.xa_store.specs.Meaning.{state_at};
ghost use Rattle.xa_store.specs.keeping.Quiet.{OnlyReadsOver, ReadsRows};
ghost use Rattle.xa_store.specs.keeping.Columns.{role_told, token_told};

use crate::query::cell::{bytes_in, role_in};
use crate::query::columns::{role_row, token_row};
use crate::query::query_rows;
use crate::query::row::{FromRow, read_all, read_one};
use crate::sql;
use sqlite::types::ValueRef;
use sqlite::{Alter, Connection, Row};
use std::alloc::Global;
use xa_notation::Role;
use xa_records::{Digest, Failure, Token};
use xa_value::Items;

/// How many bytes a SHA-256 digest has (FIPS 180-4): that is what is kept of a token.
pub(crate) const DIGEST_BYTES: usize = 32;

/// Read from the column of `sql::SHOW_ROLE`.
impl FromRow for Role {
    ghost told = { role_told };

    fn from_row(_: Global, row: &Row) -> Result<Role, Failure> {
        role_in(row, role_row::ROLE)
    }
}

/// Read from the columns of `sql::SHOW_TOKENS`.
impl FromRow for Token {
    ghost told = { token_told };

    fn from_row(_: Global, row: &Row) -> Result<Token, Failure> {
        let digest = digest_in(row, token_row::DIGEST)?;
        let role = role_in(row, token_row::ROLE)?;
        Ok(Token { digest, role })
    }
}

/// The digest in a column.
fn digest_in(row: &Row, at: usize) -> Result<Digest, Failure>
    ensures { IfOk result (λ digest. digest ≡ bytes_of (column row.now at)) }
{
    let bytes = bytes_in(row, at)?;
    let bytes = <[u8; DIGEST_BYTES]>::try_from(bytes.as_slice()).map_err(|_| Failure::Store)?;
    Ok(Digest::from_bytes(bytes))
}

/// The role of the token in the domain of that number, if it has that token: a point query.
#[tactic(auto, using(crate::proofs::TokenLemmas::role_plain))]
pub(crate) fn role_of<S: Alter>(
    alloc: Global,
    conn: &mut Connection<S>,
    number: i64,
    digest: &Digest,
) -> Result<Option<Role>, Failure>
    ensures only_reads { OnlyReadsOver S.Store conn.old conn.new result }
    ensures finds { ReadsRows S.Store conn.old conn.new result (FindsRole number digest.now) }
{
    let rows = query_rows(
        conn,
        sql::SHOW_ROLE,
        &[ValueRef::Int(number), ValueRef::Blob(digest.as_bytes())],
    )?;
    read_one(alloc, rows.as_slice())
}

/// All tokens of the domain of that number, in the order of their digests; there are 32 at most. In time
/// in proportion to their number.
#[tactic(auto, using(crate::proofs::TokenLemmas::tokens_plain))]
pub(crate) fn tokens_of<S: Alter>(
    alloc: Global,
    conn: &mut Connection<S>,
    number: i64,
) -> Result<Items<Token>, Failure>
    ensures only_reads { OnlyReadsOver S.Store conn.old conn.new result }
    ensures reads { ReadsRows S.Store conn.old conn.new result
        (λ rows tokens. tokens ≡ map token_of (entries (state_at rows number).tokens)) }
{
    let rows = query_rows(conn, sql::SHOW_TOKENS, &[ValueRef::Int(number)])?;
    read_all(alloc, rows)
}
