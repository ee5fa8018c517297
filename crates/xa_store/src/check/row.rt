//! Which rows are those of a keeper, table by table.
ghost use Rattle.std.specs.Prelude.{◌≡◌, IfOk};
ghost use Rattle.sqlite.specs.Order.{column};
ghost use Rattle.xa_notation.specs.Document.{document_of};
ghost use Rattle.xa_value.specs.Reading.{read};
ghost use Rattle.xa_store.specs.CheckedColumns.{rowid};
ghost use Rattle.xa_store.specs.Opened.{holds_body, holds_key_of, holds_typed_value, holds_value};
ghost use Rattle.xa_store.specs.Opened.{holds_value_text, int_in, is_printed, is_sound_row};
ghost use Rattle.xa_store.specs.Opened.{is_value, known_next, next_of, type_numbered};
ghost use Rattle.xa_store.specs.keeping.Check.{follows, place_told};
ghost use Rattle.xa_store.specs.declared.schema.checked_table.CheckedTable.TheVariants.{Attributes, Sources};
ghost use Rattle.xa_store.specs.declared.schema.checked_table.CheckedTable.TheVariants.{Documents, Domains};
ghost use Rattle.xa_store.specs.declared.schema.checked_table.CheckedTable.TheVariants.{Roots, Tokens};

use crate::check::cell::{
    holds_assigned, holds_bit, holds_count, holds_digest, holds_name, holds_number,
    holds_pattern_if_any, holds_text, holds_text_if_any, holds_this_text, holds_version_if_any,
};
use crate::check::columns::{ROWID, document, domain, meta, root, source, source_place, token};
use crate::parameter::kind_number;
use crate::query::cell::type_numbered;
use crate::schema::checked_table::CheckedTable;
use crate::schema::version::SchemaVersion;
use sqlite::Row;
use sqlite::types::ValueRef;
use std::alloc::{AllocError, Global};
use std::str;
use xa_notation::Parsed;
use xa_value::{DataType, Value, memory_apart};

/// A domain and a place in its source.
#[derive(Clone, Copy, Debug)]
pub(crate) struct SourcePlace {
    /// The number of the domain.
    pub(crate) domain: i64,
    /// The place, as an index: the first is 0.
    pub(crate) index: i64,
}

/// Whether the row is one of a table of domains.
fn is_domain(next_domain: i64, row: &Row) -> bool
    ensures { result ≡ is_sound_row Domains next_domain row.now }
{
    holds_assigned(row, domain::NUMBER, next_domain)
        && holds_name(row, domain::NAME)
        && holds_count(row, domain::EPOCH)
}

/// Whether the row is one of a table of tokens.
fn is_token(next_domain: i64, row: &Row) -> bool
    ensures { result ≡ is_sound_row Tokens next_domain row.now }
{
    holds_assigned(row, token::NUMBER, next_domain)
        && holds_digest(row, token::DIGEST)
        && holds_bit(row, token::ROLE)
}

/// Whether the row is one of a table of roots.
fn is_root(next_domain: i64, row: &Row) -> bool
    ensures { result ≡ is_sound_row Roots next_domain row.now }
{
    holds_assigned(row, root::NUMBER, next_domain)
        && holds_bit(row, root::KIND)
        && holds_text(row, root::ID)
        && holds_pattern_if_any(row, root::PATTERN)
        && holds_version_if_any(row, root::EARLIEST)
        && holds_version_if_any(row, root::LATEST)
}

/// Whether the columns hold the key of the document.
fn holds_key_of(alloc: Global, row: &Row, parsed: &Parsed) -> Result<bool, AllocError>
    ensures { IfOk result (λ b. b ≡ holds_key_of row.now (Ok parsed.now)) }
{
    let version = parsed.version().to_text(alloc)?;
    let kind = kind_number(parsed.kind());
    Ok(
        holds_number(row, document::KIND, kind)
            && holds_this_text(row, document::ID, parsed.id().as_bytes())
            && holds_this_text(row, document::VERSION, version.as_bytes()),
    )
}

/// Whether the body is a document of the key that the columns hold.
#[tactic(auto, using(xa_value::proofs::GivesLemmas::told_apart))]
fn is_body(alloc: Global, row: &Row, body: &[u8]) -> Result<bool, AllocError>
    ensures { IfOk result (λ b. b ≡ holds_key_of row.now (document_of body.now)) }
{
    match memory_apart(Parsed::read(alloc, body))? {
        Ok(parsed) => holds_key_of(alloc, row, &parsed),
        Err(_) => Ok(false),
    }
}

/// Whether a column holds a body of the key that the others hold.
fn holds_body(alloc: Global, row: &Row) -> Result<bool, AllocError>
    ensures { IfOk result (λ b. b ≡ holds_body row.now) }
{
    match row.get_ref(document::BODY) {
        Ok(ValueRef::Blob(body)) => is_body(alloc, row, body),
        _ => Ok(false),
    }
}

/// Whether the row is one of a table of documents.
fn is_document(alloc: Global, next_domain: i64, row: &Row) -> Result<bool, AllocError>
    ensures { IfOk result (λ b. b ≡ is_sound_row Documents next_domain row.now) }
{
    if holds_assigned(row, document::NUMBER, next_domain) && holds_bit(row, document::ACTIVE) {
        holds_body(alloc, row)
    } else {
        Ok(false)
    }
}

/// Whether the text is that of a value of the type as it is printed.
#[tactic(auto, using(xa_value::proofs::GivesLemmas::told_apart))]
fn is_printed(alloc: Global, data_type: DataType, text: &str) -> Result<bool, AllocError>
    ensures { IfOk result (λ b. b ≡ is_printed text.now (read data_type text.now)) }
{
    match memory_apart(Value::read(alloc, data_type, text))? {
        Ok(value) => Ok(value.to_text(alloc)?.as_str() == text),
        Err(_) => Ok(false),
    }
}

/// Whether the text is the printed one of a value of the type of that number.
fn is_value(alloc: Global, number: i64, text: &str) -> Result<bool, AllocError>
    ensures { IfOk result (λ b. b ≡ is_value text.now (type_numbered number)) }
{
    match type_numbered(number) {
        Some(data_type) => is_printed(alloc, data_type, text),
        None => Ok(false),
    }
}

/// Whether the bytes are the printed text of a value of the type of that number.
#[tactic(auto, using(crate::proofs::OpenedLemmas::is_text, crate::proofs::OpenedLemmas::is_no_text))]
fn is_value_text(alloc: Global, number: i64, bytes: &[u8]) -> Result<bool, AllocError>
    ensures { IfOk result (λ b. b ≡ holds_value number bytes.now) }
{
    match str::from_utf8(bytes) {
        Ok(text) => is_value(alloc, number, text),
        Err(_) => Ok(false),
    }
}

/// Whether a column holds the printed text of a value of the type of that number.
fn holds_value_text(alloc: Global, row: &Row, number: i64) -> Result<bool, AllocError>
    ensures { IfOk result (λ b. b ≡ holds_value_text row.now number) }
{
    match row.get_ref(source::VALUE) {
        Ok(ValueRef::Text(bytes)) => is_value_text(alloc, number, bytes),
        _ => Ok(false),
    }
}

/// Whether two columns hold a value, by its type and its printed text.
fn holds_typed_value(alloc: Global, row: &Row) -> Result<bool, AllocError>
    ensures { IfOk result (λ b. b ≡ holds_typed_value row.now) }
{
    match row.get_ref(source::VALUE_TYPE) {
        Ok(ValueRef::Int(number)) => holds_value_text(alloc, row, number),
        _ => Ok(false),
    }
}

/// Whether the row is one of a source in schema 1.
fn is_attribute(alloc: Global, next_domain: i64, row: &Row) -> Result<bool, AllocError>
    ensures { IfOk result (λ b. b ≡ is_sound_row Attributes next_domain row.now) }
{
    if holds_assigned(row, source::NUMBER, next_domain)
        && holds_text(row, source::CATEGORY)
        && holds_text(row, source::ENTITY)
        && holds_text(row, source::ATTRIBUTE)
    {
        holds_typed_value(alloc, row)
    } else {
        Ok(false)
    }
}

/// Whether the row is one of a source in schema 2.
fn is_source(alloc: Global, next_domain: i64, row: &Row) -> Result<bool, AllocError>
    ensures { IfOk result (λ b. b ≡ is_sound_row Sources next_domain row.now) }
{
    Ok(is_attribute(alloc, next_domain, row)? && holds_text_if_any(row, source::ISSUER))
}

/// Whether the row is one of that table; `next_domain` is the number of the next.
pub(crate) fn is_sound_row(
    alloc: Global,
    table: CheckedTable,
    next_domain: i64,
    row: &Row,
) -> Result<bool, AllocError>
    ensures { IfOk result (λ b. b ≡ is_sound_row table next_domain row.now) }
{
    match table {
        CheckedTable::Domains => Ok(is_domain(next_domain, row)),
        CheckedTable::Tokens => Ok(is_token(next_domain, row)),
        CheckedTable::Documents => is_document(alloc, next_domain, row),
        CheckedTable::Roots => Ok(is_root(next_domain, row)),
        CheckedTable::Attributes => is_attribute(alloc, next_domain, row),
        CheckedTable::Sources => is_source(alloc, next_domain, row),
    }
}

/// The number in a column, if it holds one.
fn number_at(row: &Row, at: usize) -> Option<i64>
    ensures { result ≡ int_in (column row.now at) }
{
    match row.get_ref(at) {
        Ok(ValueRef::Int(number)) => Some(number),
        _ => None,
    }
}

/// The rowid of the row, by which the table keeps it.
pub(crate) fn rowid_in(row: &Row) -> Option<i64>
    ensures { result ≡ int_in (column row.now rowid) }
{
    number_at(row, ROWID)
}

/// The place that the row shows.
pub(crate) fn place_told(row: &Row) -> Option<SourcePlace>
    ensures { result ≡ place_told row.now }
{
    let domain = number_at(row, source_place::NUMBER)?;
    let index = number_at(row, source_place::PLACE)?;
    Some(SourcePlace { domain, index })
}

/// Whether the place comes after the last: the first of a domain is 0.
pub(crate) fn follows(last: SourcePlace, place: SourcePlace) -> bool
    ensures { result ≡ follows last place }
{
    if place.domain != last.domain {
        return place.index == 0;
    }
    last.index.checked_add(1) == Some(place.index)
}

/// The number of the next domain, if the row is of that schema.
fn next_of(version: SchemaVersion, row: &Row) -> Option<i64>
    ensures { result ≡ next_of version row.now }
{
    if !holds_number(row, meta::ID, 1) || !holds_number(row, meta::SCHEMA, version.number()) {
        return None;
    }
    number_at(row, meta::NEXT)
}

/// The number of the next domain, if the rows of `meta` are one row of that schema.
pub(crate) fn known_next(version: SchemaVersion, rows: &[Row]) -> Option<i64>
    ensures { result ≡ known_next version rows.now }
{
    match rows {
        [row] => next_of(version, row),
        _ => None,
    }
}
