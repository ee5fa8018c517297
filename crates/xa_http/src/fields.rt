//! The fields of a head, by their names.
ghost use Rattle.std.specs.Prelude.{◌≡◌, ◌∷◌, [], MatchOption};
ghost use Rattle.std.specs.List.{list_any};
ghost use Rattle.xa_http.specs.Fields.{is_named, values_of};

use crate::message::Field;

/// Whether the field has that name.
pub(crate) fn is_named(field: &Field, name: &str) -> bool
    ensures { result ≡ is_named name.now field.now }
{
    field.name.as_slice().eq_ignore_ascii_case(name.as_bytes())
}

/// Whether a field has that name.
pub(crate) fn has_field(fields: &[Field], name: &str) -> bool
    ensures { result ≡ list_any (is_named name.now) fields.now }
{
    fields.iter().any(|field| is_named(field, name))
}

/// The value of the first field of that name, and the fields after it.
pub(crate) fn first_value<'a>(fields: &'a [Field], name: &str) -> Option<(&'a [u8], &'a [Field])>
    ensures { MatchOption result (values_of name.now fields.now ≡ [])
        (λ found. values_of name.now fields.now ≡ found.0.now ∷ values_of name.now found.1.now) }
{
    for (i, field) in fields.iter().enumerate() {
        if is_named(field, name) {
            return Some((field.value.as_slice(), &fields[i + 1..]));
        }
    }
    None
}
