//! The readings of a domain by its name: its gate, its view, a document's text, and its list of
//! documents.
ghost use Rattle.std.specs.Prelude.{◌≡◌, pos, Some, IfOk};
ghost use Rattle.xa_records.specs.Readings.{gate_of, kept_view_of, listing_of, text_in, text_of};
ghost use Rattle.xa_records.specs.Readings.{view_of_state};
ghost use Rattle.xa_store.specs.keeping.Lookup.{TellsGate};
ghost use Rattle.xa_store.specs.Meaning.{kept_of, state_at};
ghost use Rattle.xa_store.specs.keeping.Quiet.{OnlyReadsOver, ReadsRows};

use crate::query::document::{active_texts_of, document_of, documents_of};
use crate::query::domain::{FoundDomain, domain_named};
use crate::query::root::root_of;
use crate::query::source::source_of;
use crate::query::token::tokens_of;
use sqlite::{Alter, Connection};
use std::alloc::Global;
use xa_policy::DocumentKey;
use xa_records::{Failure, Gate, KeptView, Listed, Token};
use xa_value::{Items, Text};

/// The number, which isn't negative.
fn natural_of(number: i64) -> Result<u64, Failure>
    ensures { IfOk result (λ n. number ≡ pos n) }
{
    u64::try_from(number).map_err(|_| Failure::Store)
}

/// The gate of the domain that was found, by its tokens.
fn gate_by(domain: FoundDomain, tokens: Items<Token>) -> Result<Gate, Failure>
    ensures { IfOk result (TellsGate domain tokens) }
{
    let number = natural_of(domain.number)?;
    let epoch = natural_of(domain.epoch)?;
    Ok(Gate {
        number,
        epoch,
        tokens,
    })
}

/// What lets messages into the domain: two queries, and time in proportion to its tokens.
pub(crate) fn gate_by_name<S: Alter>(
    alloc: Global,
    conn: &mut Connection<S>,
    name: &Text,
) -> Result<Option<Gate>, Failure>
    ensures only_reads { OnlyReadsOver S.Store conn.old conn.new result }
    ensures reads { ReadsRows S.Store conn.old conn.new result
        (λ rows gate. gate ≡ gate_of name.now (kept_of rows)) }
{
    let found = domain_named(conn, name)?;
    let Some(domain) = found else {
        return Ok(None);
    };
    let tokens = tokens_of(alloc, conn, domain.number)?;
    let gate = gate_by(domain, tokens)?;
    Ok(Some(gate))
}

/// The text of the document of that key in the domain of that number.
fn text_at<S: Alter>(
    alloc: Global,
    conn: &mut Connection<S>,
    number: i64,
    key: &DocumentKey,
) -> Result<Option<Items<u8>>, Failure>
    ensures only_reads { OnlyReadsOver S.Store conn.old conn.new result }
    ensures reads { ReadsRows S.Store conn.old conn.new result
        (λ rows text. text ≡ text_in key.now (state_at rows number)) }
{
    match document_of(alloc, conn, number, key)? {
        Some(document) => Ok(Some(document.text)),
        None => Ok(None),
    }
}

/// The text of the document of that key: two point queries, and time in proportion to the text.
pub(crate) fn text_by_name<S: Alter>(
    alloc: Global,
    conn: &mut Connection<S>,
    name: &Text,
    key: &DocumentKey,
) -> Result<Option<Items<u8>>, Failure>
    ensures only_reads { OnlyReadsOver S.Store conn.old conn.new result }
    ensures reads { ReadsRows S.Store conn.old conn.new result
        (λ rows text. text ≡ text_of name.now key.now (kept_of rows)) }
{
    let found = domain_named(conn, name)?;
    let Some(domain) = found else {
        return Ok(None);
    };
    text_at(alloc, conn, domain.number, key)
}

/// The domain's documents, in the order of their keys: two queries, and time in proportion to their texts,
/// since the query for them reads each row whole.
pub(crate) fn listing_by_name<S: Alter>(
    alloc: Global,
    conn: &mut Connection<S>,
    name: &Text,
) -> Result<Option<Items<Listed>>, Failure>
    ensures only_reads { OnlyReadsOver S.Store conn.old conn.new result }
    ensures reads { ReadsRows S.Store conn.old conn.new result
        (λ rows listed. listed ≡ listing_of name.now (kept_of rows)) }
{
    let found = domain_named(conn, name)?;
    let Some(domain) = found else {
        return Ok(None);
    };
    let listed = documents_of(alloc, conn, domain.number)?;
    Ok(Some(listed))
}

/// What decides in the domain of that number.
fn view_at<S: Alter>(
    alloc: Global,
    conn: &mut Connection<S>,
    number: i64,
) -> Result<KeptView, Failure>
    ensures only_reads { OnlyReadsOver S.Store conn.old conn.new result }
    ensures reads { ReadsRows S.Store conn.old conn.new result
        (λ rows view. view ≡ view_of_state (state_at rows number)) }
{
    let texts = active_texts_of(alloc, conn, number)?;
    let root = root_of(alloc, conn, number)?;
    let source = source_of(alloc, conn, number)?;
    Ok(KeptView {
        texts,
        root,
        source,
    })
}

/// What decides in the domain: four queries, and time in proportion to all its texts, active or not, and to
/// its source.
pub(crate) fn view_by_name<S: Alter>(
    alloc: Global,
    conn: &mut Connection<S>,
    name: &Text,
) -> Result<Option<KeptView>, Failure>
    ensures only_reads { OnlyReadsOver S.Store conn.old conn.new result }
    ensures reads { ReadsRows S.Store conn.old conn.new result
        (λ rows view. view ≡ kept_view_of name.now (kept_of rows)) }
{
    let found = domain_named(conn, name)?;
    let Some(domain) = found else {
        return Ok(None);
    };
    let view = view_at(alloc, conn, domain.number)?;
    Ok(Some(view))
}
