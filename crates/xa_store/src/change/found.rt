//! The domain, the document and the token that a change is of. If they are absent, it is refused.
ghost use Rattle.std.specs.Prelude.{None, Some, IfErr};
ghost use Rattle.xa_store.specs.keeping.Lookup.{FindsDocument, FindsDomain, FindsRole, IsDomain, TellsAbsent};
ghost use Rattle.xa_store.specs.keeping.Quiet.{OnlyReadsForChangeOver, OverRows, ReadsRows};

use crate::query::document::document_of;
use crate::query::document_row::FoundDocument;
use crate::query::domain::{FoundDomain, domain_named};
use crate::query::token::role_of;
use sqlite::{Alter, Connection};
use std::alloc::Global;
use xa_notation::Role;
use xa_policy::DocumentKey;
use xa_records::{ChangeError, Digest, Refusal};
use xa_value::Text;

/// The domain of that name.
pub(crate) fn domain_to_change<S: Alter>(
    conn: &mut Connection<S>,
    name: &Text,
) -> Result<FoundDomain, ChangeError>
    ensures only_reads { OnlyReadsForChangeOver S.Store conn.old conn.new result }
    ensures finds { ReadsRows S.Store conn.old conn.new result (IsDomain name.now) }
    ensures absent { OverRows S.Store conn.old conn.new
        (λ rows. IfErr result (TellsAbsent (FindsDomain name.now rows None))) }
{
    let found = domain_named(conn, name)?;
    found.ok_or(ChangeError::Refused(Refusal::Absent))
}

/// The document of that key in the domain of that number.
pub(crate) fn document_to_change<S: Alter>(
    alloc: Global,
    conn: &mut Connection<S>,
    number: i64,
    key: &DocumentKey,
) -> Result<FoundDocument, ChangeError>
    ensures only_reads { OnlyReadsForChangeOver S.Store conn.old conn.new result }
    ensures finds { ReadsRows S.Store conn.old conn.new result
        (λ rows there. FindsDocument number key.now rows (Some there)) }
    ensures absent { OverRows S.Store conn.old conn.new
        (λ rows. IfErr result (TellsAbsent (FindsDocument number key.now rows None))) }
{
    let found = document_of(alloc, conn, number, key)?;
    found.ok_or(ChangeError::Refused(Refusal::Absent))
}

/// The role of that token in the domain of that number.
pub(crate) fn role_to_change<S: Alter>(
    alloc: Global,
    conn: &mut Connection<S>,
    number: i64,
    digest: &Digest,
) -> Result<Role, ChangeError>
    ensures only_reads { OnlyReadsForChangeOver S.Store conn.old conn.new result }
    ensures finds { ReadsRows S.Store conn.old conn.new result
        (λ rows role. FindsRole number digest.now rows (Some role)) }
    ensures absent { OverRows S.Store conn.old conn.new
        (λ rows. IfErr result (TellsAbsent (FindsRole number digest.now rows None))) }
{
    let found = role_of(alloc, conn, number, digest)?;
    found.ok_or(ChangeError::Refused(Refusal::Absent))
}
