//! The documents of a domain: the one of a key, the list of all, and the texts of the active ones.
ghost use Rattle.std.specs.Prelude.{◌≡◌, [], ◌∷◌, IfOk};
ghost use Rattle.std.specs.List.Sorted.{IsPermutation, IsSorted};
ghost use Rattle.std.specs.Ordering.{on};
ghost use Rattle.sqlite.specs.Held.{state};
ghost use Rattle.sqlite.specs.State.{HasCleanDisk};
ghost use Rattle.sqlite.specs.declared.types.Value.TheVariants.{Int, Text as SqlText};
ghost use Rattle.xa_policy.specs.declared.document_key.DocumentKey.{DocumentKey as Key};
ghost use Rattle.xa_policy.specs.DocumentKey.{compare_keys};
ghost use Rattle.xa_policy.specs.Version.{version_text};
ghost use Rattle.xa_records.specs.Readings.{active_texts, listing_of_state};
ghost use Rattle.xa_store.specs.keeping.Lookup.{FindsDocument};
ghost use Rattle.xa_store.specs.Meaning.{state_at};
ghost use Rattle.xa_store.specs.keeping.Quiet.{OnlyReadsOver, ReadsRows, ShownOver};
ghost use Rattle.xa_store.specs.Rows.{kind_number};
ghost use Rattle.xa_store.specs.keeping.Texts.{show_document};

use crate::parameter::kind_number;
use crate::query::document_row::FoundDocument;
use crate::query::query_rows;
use crate::query::row::{read_all, read_one};
use crate::sql;
use sqlite::types::ValueRef;
use sqlite::{Alter, Connection, Row};
use std::alloc::Global;
use xa_policy::DocumentKey;
use xa_records::{ActiveText, Failure, Listed};
use xa_value::{Items, Text};

/// What has a document's key.
pub(crate) trait Keyed {
    /// Its key.
    ghost key_of: { Self → Key };

    /// Its key.
    fn key(&self) -> &DocumentKey
        ensures { result.now ≡ key_of self.now };
}

impl Keyed for Listed {
    ghost key_of = { λ listed. listed.key };

    fn key(&self) -> &DocumentKey {
        &self.key
    }
}

impl Keyed for ActiveText {
    ghost key_of = { λ active. active.key };

    fn key(&self) -> &DocumentKey {
        &self.key
    }
}

/// The items in the order of their keys: n of them take some n log n comparisons at most. SQL compares the
/// texts of versions, and keys the numbers.
fn in_order<T: Keyed>(items: Items<T>) -> Vec<T>
    ensures same { IsPermutation items result.items }
    ensures sorted { IsSorted (on T.Keyed.key_of compare_keys) result.items }
{
    let mut items = items.into_vec();
    items.sort_unstable_by(|one, other| one.key().cmp(other.key()));
    items
}

/// The row of the document of that key, whose version stands beside it as a column holds it. For the proof:
/// in a function of its own, the version's text is known by a clause.
#[tactic(auto, using(crate::proofs::DocumentLemmas::document_plain))]
fn document_rows<'k, S: Alter>(
    conn: &mut Connection<S>,
    number: i64,
    key: &'k DocumentKey,
    version: &'k Text,
) -> Result<Vec<Row>, Failure>
    requires version { version.now ≡ version_text key.now.version }
    ensures only_reads { OnlyReadsOver S.Store conn.old conn.new result }
    ensures shows { HasCleanDisk (state S.Store conn.new)
        → IfOk result (λ rows. ShownOver S.Store show_document (Int number
        ∷ Int (kind_number key.now.kind) ∷ SqlText key.now.id ∷ SqlText (version_text key.now.version) ∷ [])
        conn.old conn.new rows.items) }
{
    query_rows(
        conn,
        sql::SHOW_DOCUMENT,
        &[
            ValueRef::Int(number),
            ValueRef::Int(kind_number(key.kind)),
            ValueRef::Text(key.id.as_bytes()),
            ValueRef::Text(version.as_bytes()),
        ],
    )
}

/// The document of that key in the domain of that number, if it is there: a point query, and the text
/// once more.
pub(crate) fn document_of<S: Alter>(
    alloc: Global,
    conn: &mut Connection<S>,
    number: i64,
    key: &DocumentKey,
) -> Result<Option<FoundDocument>, Failure>
    ensures only_reads { OnlyReadsOver S.Store conn.old conn.new result }
    ensures finds { ReadsRows S.Store conn.old conn.new result (FindsDocument number key.now) }
{
    // For the proof: the version reads back from its text.
    key.version.reads_back();
    let version = key.version.to_text(alloc)?;
    let rows = document_rows(conn, number, key, &version)?;
    read_one(alloc, rows.as_slice())
}

/// All documents of the domain of that number, in the order of their keys; there are 1,024 at most. In
/// time in proportion to their texts, since each row is read whole.
#[tactic(auto, using(crate::proofs::DocumentLemmas::documents_plain))]
pub(crate) fn documents_of<S: Alter>(
    alloc: Global,
    conn: &mut Connection<S>,
    number: i64,
) -> Result<Items<Listed>, Failure>
    ensures only_reads { OnlyReadsOver S.Store conn.old conn.new result }
    ensures reads { ReadsRows S.Store conn.old conn.new result
        (λ rows listed. listed ≡ listing_of_state (state_at rows number)) }
{
    let rows = query_rows(conn, sql::SHOW_DOCUMENTS, &[ValueRef::Int(number)])?;
    let listed = read_all::<Listed>(alloc, rows)?;
    Ok(Items::from_vec(in_order(listed)))
}

/// The texts of the active documents of the domain of that number, in the order of their keys. A view
/// gives them all, so one query reads them all; the connection has them once more, in a buffer that it
/// keeps. In time in proportion to all texts of the domain, active or not, since each row is read whole.
#[tactic(auto, using(crate::proofs::DocumentLemmas::active_plain))]
pub(crate) fn active_texts_of<S: Alter>(
    alloc: Global,
    conn: &mut Connection<S>,
    number: i64,
) -> Result<Items<ActiveText>, Failure>
    ensures only_reads { OnlyReadsOver S.Store conn.old conn.new result }
    ensures reads { ReadsRows S.Store conn.old conn.new result
        (λ rows texts. texts ≡ active_texts (state_at rows number)) }
{
    let rows = query_rows(conn, sql::SHOW_ACTIVE_DOCUMENTS, &[ValueRef::Int(number)])?;
    let active = read_all::<ActiveText>(alloc, rows)?;
    Ok(Items::from_vec(in_order(active)))
}
