//! What a statement is given for the values of Rust: numbers for kinds, roles, data types and activities,
//! and texts, or NULL for none.
ghost use Rattle.std.specs.Prelude.{◌≡◌, IfOk, option_map};
ghost use Rattle.sqlite.specs.Values.{bound_value};
ghost use Rattle.sqlite_value.specs.Value.{owned};
ghost use Rattle.xa_policy.specs.Pattern.{pattern_text};
ghost use Rattle.xa_policy.specs.Version.{version_text};
ghost use Rattle.xa_store.specs.keeping.Execution.{text_column};
ghost use Rattle.xa_store.specs.Rows.{activity_number, kind_number, role_number, type_number};

use sqlite::types::ValueRef;
use std::alloc::{AllocError, Global};
use xa_notation::Role;
use xa_policy::{DocumentKind, Pattern, Version};
use xa_value::{Text, Value};

/// The number of a kind of documents.
pub(crate) fn kind_number(kind: DocumentKind) -> i64
    ensures { result ≡ kind_number kind }
{
    i64::from(kind.place())
}

/// The number of a role.
pub(crate) fn role_number(role: Role) -> i64
    ensures { result ≡ role_number role }
{
    match role {
        Role::Ask => 0,
        Role::Admin => 1,
    }
}

/// The number of the value's data type.
pub(crate) fn type_number(value: &Value) -> i64
    ensures { result ≡ type_number value.now }
{
    i64::from(value.data_type().number())
}

/// The number of an activity.
#[tactic(auto, using(crate::proofs::ColumnNumbers::bit_counted))]
pub(crate) fn activity_number(active: bool) -> i64
    ensures { result ≡ activity_number active }
{
    i64::from(active)
}

/// The pattern's text, if there is a pattern.
pub(crate) fn text_of_pattern(
    alloc: Global,
    pattern: &Option<Pattern>,
) -> Result<Option<Text>, AllocError>
    ensures { IfOk result (λ text. text ≡ option_map pattern_text pattern.now) }
{
    match pattern {
        Some(pattern) => Ok(Some(pattern.to_text(alloc)?)),
        None => Ok(None),
    }
}

/// The version's text, if there is a version.
pub(crate) fn text_of_version(
    alloc: Global,
    version: &Option<Version>,
) -> Result<Option<Text>, AllocError>
    ensures { IfOk result (λ text. text ≡ option_map version_text version.now) }
{
    match version {
        Some(version) => Ok(Some(version.to_text(alloc)?)),
        None => Ok(None),
    }
}

/// The text as a column holds it.
pub(crate) fn text_or_null<'a>(text: &'a Option<Text>) -> ValueRef<'a>
    ensures { bound_value (owned result) ≡ text_column text.now }
{
    match text {
        Some(text) => ValueRef::Text(text.as_bytes()),
        None => ValueRef::Null,
    }
}
