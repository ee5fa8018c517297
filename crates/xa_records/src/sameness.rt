//! Whether roots and source rows are the very same, so that an epoch need not rise.
//!
//! Each function compares as the derived `==` does. A derived `==` says no more than that the parts are `==`,
//! and a contract asks whether the whole is identical: so each type is compared by a function of its own
//! that says so, and a whole by those of its parts.
ghost use Rattle.std.specs.Prelude.{◌≡◌, ◌↔◌, IsTrue};

use xa_decide::SourceRow;
use xa_policy::{DocumentKind, Pattern, PatternPart, Reference, Version};
use xa_value::{Items, Text, Value};

/// Whether the two texts are the same.
fn is_same_text(one: &Text, other: &Text) -> bool
    ensures { IsTrue result ↔ (one.now ≡ other.now) }
{
    one == other
}

/// Whether the two texts are the same, or neither is there.
fn is_same_text_if_any(one: &Option<Text>, other: &Option<Text>) -> bool
    ensures { IsTrue result ↔ (one.now ≡ other.now) }
{
    match (one, other) {
        (Some(one), Some(other)) => is_same_text(one, other),
        (None, None) => true,
        (Some(_), None) | (None, Some(_)) => false,
    }
}

/// Whether the two kinds are the same.
fn is_same_kind(one: DocumentKind, other: DocumentKind) -> bool
    ensures { IsTrue result ↔ (one ≡ other) }
{
    one == other
}

/// Whether the two versions are the same, or neither is there.
fn is_same_version(one: &Option<Version>, other: &Option<Version>) -> bool
    ensures { IsTrue result ↔ (one.now ≡ other.now) }
{
    one == other
}

/// Whether the two parts are the same.
fn is_same_part(one: &PatternPart, other: &PatternPart) -> bool
    ensures { IsTrue result ↔ (one.now ≡ other.now) }
{
    one == other
}

/// Whether the parts are the same, in the same order.
fn are_same_parts(one: &[PatternPart], other: &[PatternPart]) -> bool
    ensures { IsTrue result ↔ (one.now ≡ other.now) }
{
    if one.len() != other.len() {
        return false;
    }
    for place in 0..one.len() {
        if !is_same_part(&one[place], &other[place]) {
            return false;
        }
    }
    true
}

/// Whether the two patterns are the same, or neither is there.
fn is_same_pattern(one: &Option<Pattern>, other: &Option<Pattern>) -> bool
    ensures { IsTrue result ↔ (one.now ≡ other.now) }
{
    match (one, other) {
        (Some(one), Some(other)) => are_same_parts(one.parts(), other.parts()),
        (None, None) => true,
        (Some(_), None) | (None, Some(_)) => false,
    }
}

/// Whether the two references are the same.
fn is_same_reference(one: &Reference, other: &Reference) -> bool
    ensures { IsTrue result ↔ (one.now ≡ other.now) }
{
    is_same_kind(one.kind, other.kind)
        && is_same_text(&one.id, &other.id)
        && is_same_pattern(&one.version, &other.version)
        && is_same_version(&one.earliest, &other.earliest)
        && is_same_version(&one.latest, &other.latest)
}

/// Whether the two roots are the same, or neither is there.
pub fn is_same_root(one: &Option<Reference>, other: &Option<Reference>) -> bool
    ensures { IsTrue result ↔ (one.now ≡ other.now) }
{
    match (one, other) {
        (Some(one), Some(other)) => is_same_reference(one, other),
        (None, None) => true,
        (Some(_), None) | (None, Some(_)) => false,
    }
}

/// Whether the two values are the same.
pub fn is_same_value(one: &Value, other: &Value) -> bool
    ensures { IsTrue result ↔ (one.now ≡ other.now) }
{
    one == other
}

/// Whether the two rows are the same.
fn is_same_row(one: &SourceRow, other: &SourceRow) -> bool
    ensures { IsTrue result ↔ (one.now ≡ other.now) }
{
    is_same_text(&one.category, &other.category)
        && is_same_text(&one.entity, &other.entity)
        && is_same_text(&one.attribute_id, &other.attribute_id)
        && is_same_value(&one.value, &other.value)
        && is_same_text_if_any(&one.issuer, &other.issuer)
}

/// Whether the rows are the same, in the same order.
fn are_same_rows(one: &[SourceRow], other: &[SourceRow]) -> bool
    ensures { IsTrue result ↔ (one.now ≡ other.now) }
{
    if one.len() != other.len() {
        return false;
    }
    for place in 0..one.len() {
        if !is_same_row(&one[place], &other[place]) {
            return false;
        }
    }
    true
}

/// Whether the sources have the same rows, in the same order.
pub fn is_same_source(one: &Items<SourceRow>, other: &Items<SourceRow>) -> bool
    ensures { IsTrue result ↔ (one.now ≡ other.now) }
{
    are_same_rows(one.as_slice(), other.as_slice())
}

/// Whether a document is active both times, or neither time.
pub fn is_same_activity(one: bool, other: bool) -> bool
    ensures { IsTrue result ↔ (one ≡ other) }
{
    one == other
}
