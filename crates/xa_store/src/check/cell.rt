//! What one column of a row holds. A column that a row hasn't reads as NULL, as in SQLite and in the
//! definitions (`column`).
ghost use Rattle.std.specs.Prelude.{◌≡◌, ℕ, false, true, List, is_ok, bytes_eq};
ghost use Rattle.std.specs.Fn.{FnOnceReturnsAt};
ghost use Rattle.std.specs.Ordering.{int_eq};
ghost use Rattle.std.specs.Str.{is_utf8};
ghost use Rattle.sqlite.specs.Order.{column};
ghost use Rattle.sqlite.specs.declared.types.Value.TheVariants.{Null, Text};
ghost use Rattle.xa_records.specs.DomainName.{is_domain_name};
ghost use Rattle.xa_store.specs.Opened.{holds_int, holds_text, holds_text_if_any, holds_blob, is_bit};
ghost use Rattle.xa_store.specs.Opened.{is_assigned, is_count, is_digest, is_pattern, is_version};

use crate::query::token::DIGEST_BYTES;
use sqlite::Row;
use sqlite::types::ValueRef;
use std::str;
use xa_policy::{Pattern, Version};
use xa_records::is_domain_name;

/// Whether it is an epoch or a number, of which none is negative.
pub(crate) fn is_count(number: i64) -> bool
    ensures { result ≡ is_count number }
{
    0 <= number
}

/// Whether the number has been assigned to a domain; `next_domain` is that of the next.
fn is_assigned(next_domain: i64, number: i64) -> bool
    ensures { result ≡ is_assigned next_domain number }
{
    is_count(number) && number < next_domain
}

/// Whether it stands for a role, for a kind of documents or for whether a document is active.
fn is_bit(number: i64) -> bool
    ensures { result ≡ is_bit number }
{
    is_count(number) && number <= 1
}

/// Whether the bytes are UTF-8.
fn is_text(bytes: &[u8]) -> bool
    ensures { result ≡ is_utf8 bytes.now }
{
    str::from_utf8(bytes).is_ok()
}

/// Whether the text is a pattern of versions.
#[tactic(auto, using(crate::proofs::OpenedLemmas::is_text, crate::proofs::OpenedLemmas::is_no_text))]
fn is_pattern(bytes: &[u8]) -> bool
    ensures { result ≡ is_pattern bytes.now }
{
    str::from_utf8(bytes).is_ok_and(|text| Pattern::read(text).is_ok())
}

/// Whether the text is a version.
#[tactic(auto, using(crate::proofs::OpenedLemmas::is_text, crate::proofs::OpenedLemmas::is_no_text))]
fn is_version(bytes: &[u8]) -> bool
    ensures { result ≡ is_version bytes.now }
{
    str::from_utf8(bytes).is_ok_and(|text| Version::read(text).is_ok())
}

/// Whether the column holds a number that has been assigned to a domain.
pub(crate) fn holds_assigned(row: &Row, at: usize, next_domain: i64) -> bool
    ensures { result ≡ holds_int (is_assigned next_domain) (column row.now at) }
{
    matches!(row.get_ref(at), Ok(ValueRef::Int(number)) if is_assigned(next_domain, number))
}

/// Whether the column holds a number that isn't negative.
pub(crate) fn holds_count(row: &Row, at: usize) -> bool
    ensures { result ≡ holds_int is_count (column row.now at) }
{
    matches!(row.get_ref(at), Ok(ValueRef::Int(number)) if is_count(number))
}

/// Whether the column holds 0 or 1.
pub(crate) fn holds_bit(row: &Row, at: usize) -> bool
    ensures { result ≡ holds_int is_bit (column row.now at) }
{
    matches!(row.get_ref(at), Ok(ValueRef::Int(number)) if is_bit(number))
}

/// Whether the column holds this number.
pub(crate) fn holds_number(row: &Row, at: usize, wanted: i64) -> bool
    ensures { result ≡ holds_int (int_eq wanted) (column row.now at) }
{
    matches!(row.get_ref(at), Ok(ValueRef::Int(number)) if wanted == number)
}

/// Whether the column holds the name of a domain.
pub(crate) fn holds_name(row: &Row, at: usize) -> bool
    ensures { result ≡ holds_text is_domain_name (column row.now at) }
{
    matches!(row.get_ref(at), Ok(ValueRef::Text(bytes)) if is_domain_name(bytes))
}

/// Whether the column holds a text.
pub(crate) fn holds_text(row: &Row, at: usize) -> bool
    ensures { result ≡ holds_text is_utf8 (column row.now at) }
{
    matches!(row.get_ref(at), Ok(ValueRef::Text(bytes)) if is_text(bytes))
}

/// Whether the column holds a text that passes the test, or nothing.
fn holds_such_text_if_any<F: FnOnce(&[u8]) -> bool>(row: &Row, at: usize, test: F) -> bool
    requires { F.IsAlwaysCallable test }
    ensures nothing { column row.now at ≡ Null → result ≡ true }
    ensures text { (bytes : List ℕ) → column row.now at ≡ Text bytes
        → FnOnceReturnsAt F.FnOnce test bytes result }
    ensures other { holds_text_if_any (λ _. true) (column row.now at) ≡ false → result ≡ false }
{
    match row.get_ref(at) {
        Ok(ValueRef::Text(bytes)) => test(bytes),
        Ok(ValueRef::Null) | Err(_) => true,
        _ => false,
    }
}

/// Whether the column holds a text, or nothing.
pub(crate) fn holds_text_if_any(row: &Row, at: usize) -> bool
    ensures { result ≡ holds_text_if_any is_utf8 (column row.now at) }
{
    holds_such_text_if_any(row, at, is_text)
}

/// Whether the column holds this text.
pub(crate) fn holds_this_text(row: &Row, at: usize, wanted: &[u8]) -> bool
    ensures { result ≡ holds_text (bytes_eq wanted.now) (column row.now at) }
{
    matches!(row.get_ref(at), Ok(ValueRef::Text(bytes)) if wanted == bytes)
}

/// Whether the column holds the digest of a token.
pub(crate) fn holds_digest(row: &Row, at: usize) -> bool
    ensures { result ≡ holds_blob is_digest (column row.now at) }
{
    matches!(row.get_ref(at), Ok(ValueRef::Blob(bytes)) if bytes.len() == DIGEST_BYTES)
}

/// Whether the column holds a pattern of versions, or nothing.
pub(crate) fn holds_pattern_if_any(row: &Row, at: usize) -> bool
    ensures { result ≡ holds_text_if_any is_pattern (column row.now at) }
{
    holds_such_text_if_any(row, at, is_pattern)
}

/// Whether the column holds a version, or nothing.
pub(crate) fn holds_version_if_any(row: &Row, at: usize) -> bool
    ensures { result ≡ holds_text_if_any is_version (column row.now at) }
{
    holds_such_text_if_any(row, at, is_version)
}
