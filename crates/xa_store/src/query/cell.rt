//! What one column of a row holds, as a value: a number, a text, bytes, a flag, a role, a kind of documents,
//! a data type, a version or a pattern.
ghost use Rattle.std.specs.Prelude.{◌≡◌, option_and_then, IfOk};
ghost use Rattle.std.specs.Result.{result_ok};
ghost use Rattle.sqlite.specs.Order.{column};
ghost use Rattle.sqlite.specs.declared.types.Value.TheVariants.{Int};
ghost use Rattle.sqlite_typed.specs.Columns.{bytes_of, int_of, unless_null};
ghost use Rattle.xa_policy.specs.Pattern.{read_pattern};
ghost use Rattle.xa_policy.specs.Version.{read_version};
ghost use Rattle.xa_store.specs.Opened.{type_numbered};
ghost use Rattle.xa_store.specs.Rows.{flag_in, kind_in, role_in, type_in, version_in};

use crate::failure::failure_of;
use sqlite::Row;
use xa_notation::Role;
use xa_policy::{DocumentKind, Pattern, Version};
use xa_records::Failure;
use xa_value::{DataType, Items, Text};

/// The number in a column.
pub(crate) fn number_in(row: &Row, at: usize) -> Result<i64, Failure>
    ensures { IfOk result (λ n. column row.now at ≡ Int n) }
{
    row.get::<i64>(at).map_err(failure_of)
}

/// The text in a column.
pub(crate) fn text_in(row: &Row, at: usize) -> Result<Text, Failure>
    ensures { IfOk result (λ text. text ≡ bytes_of (column row.now at)) }
{
    let text = row.get::<String>(at).map_err(failure_of)?;
    Ok(Text::from_string(text))
}

/// The bytes in a column.
pub(crate) fn bytes_in(row: &Row, at: usize) -> Result<Items<u8>, Failure>
    ensures { IfOk result (λ bytes. bytes ≡ bytes_of (column row.now at)) }
{
    let bytes = row.get::<Vec<u8>>(at).map_err(failure_of)?;
    Ok(Items::from_vec(bytes))
}

/// The text in a column that may hold none.
pub(crate) fn text_if_any(row: &Row, at: usize) -> Result<Option<Text>, Failure>
    ensures { IfOk result (λ text. text ≡ unless_null bytes_of (column row.now at)) }
{
    let text = row.get::<Option<String>>(at).map_err(failure_of)?;
    Ok(text.map(Text::from_string))
}

/// The flag in a column: 0 or 1.
pub(crate) fn flag_in(row: &Row, at: usize) -> Result<bool, Failure>
    ensures { IfOk result (λ flag. flag ≡ flag_in (int_of (column row.now at))) }
{
    match number_in(row, at)? {
        0 => Ok(false),
        1 => Ok(true),
        _ => Err(Failure::Store),
    }
}

/// The role in a column: 0 or 1.
pub(crate) fn role_in(row: &Row, at: usize) -> Result<Role, Failure>
    ensures { IfOk result (λ role. role ≡ role_in (int_of (column row.now at))) }
{
    match number_in(row, at)? {
        0 => Ok(Role::Ask),
        1 => Ok(Role::Admin),
        _ => Err(Failure::Store),
    }
}

/// The kind of documents in a column: 0 or 1.
pub(crate) fn kind_in(row: &Row, at: usize) -> Result<DocumentKind, Failure>
    ensures { IfOk result (λ kind. kind ≡ kind_in (int_of (column row.now at))) }
{
    match number_in(row, at)? {
        0 => Ok(DocumentKind::Policy),
        1 => Ok(DocumentKind::PolicySet),
        _ => Err(Failure::Store),
    }
}

/// The data type of that number.
pub(crate) fn type_numbered(number: i64) -> Option<DataType>
    ensures { result ≡ type_numbered number }
{
    match u8::try_from(number) {
        Ok(number) => DataType::from_number(number),
        Err(_) => None,
    }
}

/// The data type in a column.
pub(crate) fn type_in(row: &Row, at: usize) -> Result<DataType, Failure>
    ensures { IfOk result (λ data_type. data_type ≡ type_in (int_of (column row.now at))) }
{
    let number = number_in(row, at)?;
    type_numbered(number).ok_or(Failure::Store)
}

/// The version in a column.
#[tactic(auto, unfolding(crate::specs::Rows::version_in))]
pub(crate) fn version_in(row: &Row, at: usize) -> Result<Version, Failure>
    ensures { IfOk result (λ version. version ≡ version_in (bytes_of (column row.now at))) }
{
    let text = text_in(row, at)?;
    Version::read(text.as_str()).map_err(|_| Failure::Store)
}

/// The version in a column that may hold none.
pub(crate) fn version_if_any(row: &Row, at: usize) -> Result<Option<Version>, Failure>
    ensures { IfOk result (λ version. version
        ≡ option_and_then (λ text. result_ok (read_version text))
        (unless_null bytes_of (column row.now at))) }
{
    text_if_any(row, at)?
        .map(|text| Version::read(text.as_str()).map_err(|_| Failure::Store))
        .transpose()
}

/// The pattern of versions in a column that may hold none.
pub(crate) fn pattern_if_any(row: &Row, at: usize) -> Result<Option<Pattern>, Failure>
    ensures { IfOk result (λ pattern. pattern
        ≡ option_and_then (λ text. result_ok (read_pattern text))
        (unless_null bytes_of (column row.now at))) }
{
    text_if_any(row, at)?
        .map(|text| Pattern::read(text.as_str()).map_err(|_| Failure::Store))
        .transpose()
}
