//! The domain of a name: its number and its epoch.
ghost use Rattle.std.specs.Prelude.{IfOk};
ghost use Rattle.xa_store.specs.keeping.Lookup.{FindsDomain, TellDomain};
ghost use Rattle.xa_store.specs.keeping.Quiet.{OnlyReadsOver, ReadsRows};

use crate::query::cell::number_in;
use crate::query::columns::found_domain;
use crate::query::query_rows;
use crate::sql;
use sqlite::types::ValueRef;
use sqlite::{Alter, Connection, Row};
use xa_records::Failure;
use xa_value::Text;

/// A domain that was found.
#[derive(Clone, Copy, Debug)]
pub(crate) struct FoundDomain {
    /// Its number.
    pub number: i64,
    /// Its epoch.
    pub epoch: i64,
}

/// The domain that rows of `sql::SHOW_DOMAIN` tell: none if there is no row, and a failure if there are
/// several.
fn read_domain(rows: &[Row]) -> Result<Option<FoundDomain>, Failure>
    ensures { IfOk result (TellDomain rows.now) }
{
    match rows {
        [] => Ok(None),
        [row] => {
            let number = number_in(row, found_domain::NUMBER)?;
            let epoch = number_in(row, found_domain::EPOCH)?;
            if number < 0 || epoch < 0 {
                return Err(Failure::Store);
            }
            Ok(Some(FoundDomain { number, epoch }))
        }
        _ => Err(Failure::Store),
    }
}

/// The domain of that name, if there is one: neither its number nor its epoch is negative. A point
/// query, whatever the number of domains.
#[tactic(auto, using(crate::proofs::DomainLemmas::domain_plain))]
pub(crate) fn domain_named<S: Alter>(
    conn: &mut Connection<S>,
    name: &Text,
) -> Result<Option<FoundDomain>, Failure>
    ensures only_reads { OnlyReadsOver S.Store conn.old conn.new result }
    ensures finds { ReadsRows S.Store conn.old conn.new result (FindsDomain name.now) }
{
    let rows = query_rows(conn, sql::SHOW_DOMAIN, &[ValueRef::Text(name.as_bytes())])?;
    read_domain(rows.as_slice())
}
