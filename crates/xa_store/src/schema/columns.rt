//! The columns that each table has in a keeper's store. For the proof: a group that is used once,
//! as `are_key_columns`, is a function, since the prover takes a conjunction of so many parts only in groups.
ghost use Rattle.std.specs.Prelude.{◌≡◌, ◌↔◌, ◌∷◌, [], true, IsTrue, codes};
ghost use Rattle.sqlite.specs.Collation.TheVariants.{Binary};
ghost use Rattle.sqlite.specs.declared.types.Value.TheVariants.{Null};
ghost use Rattle.xa_store.specs.Tables.{attributes, domains, meta, needed, own_key, policies};
ghost use Rattle.xa_store.specs.Tables.{roots, sources, text_if_any, tokens};

use sqlite_schema::schema::{Column, Kind};
use sqlite_value::keys::Collation;
use sqlite_value::value::{Bytes, Value};

/// Whether the bytes are this name.
pub(crate) fn is_named(bytes: &Bytes, name: &str) -> bool
    ensures { IsTrue result ↔ (bytes.now ≡ name.now) }
{
    bytes.as_slice() == name.as_bytes()
}

/// Whether the column has this name and takes values of this kind alone.
fn is_column(column: &Column, name: &str, kind: Kind, not_null: bool) -> bool
    ensures { IsTrue result ↔ (column.now ≡ record {
      name = name.now;
      kind = kind;
      is_strict = true;
      not_null = not_null;
      default = Null;
      collation = Binary;
    }) }
{
    is_named(&column.name, name)
        && column.kind == kind
        && column.is_strict
        && column.not_null == not_null
        && matches!(column.default, Value::Null)
        && column.collation == Collation::Binary
}

/// Whether the column has this name, takes values of this kind alone, and never NULL.
fn is_needed(column: &Column, name: &str, kind: Kind) -> bool
    ensures { IsTrue result ↔ (column.now ≡ needed name.now kind) }
{
    is_column(column, name, kind, true)
}

/// Whether the column has this name, and takes texts alone, or NULL.
fn is_text_if_any(column: &Column, name: &str) -> bool
    ensures { IsTrue result ↔ (column.now ≡ text_if_any name.now) }
{
    is_column(column, name, Kind::Text, false)
}

/// Whether the column has this name, and is declared as an INTEGER PRIMARY KEY is.
fn is_own_key(column: &Column, name: &str) -> bool
    ensures { IsTrue result ↔ (column.now ≡ own_key name.now) }
{
    is_column(column, name, Kind::Integer, false)
}

/// Whether they are the columns of the table `meta`.
pub(crate) fn are_meta_columns(columns: &[Column]) -> bool
    ensures { IsTrue result ↔ (columns.now ≡ meta.columns) }
{
    match columns {
        [id, schema, next] => {
            is_own_key(id, "id")
                && is_needed(schema, "schema_no", Kind::Integer)
                && is_needed(next, "next_number", Kind::Integer)
        }
        _ => false,
    }
}

/// Whether they are the columns of the table `domains`.
pub(crate) fn are_domain_columns(columns: &[Column]) -> bool
    ensures { IsTrue result ↔ (columns.now ≡ domains.columns) }
{
    match columns {
        [number, name, epoch] => {
            is_own_key(number, "number")
                && is_needed(name, "name", Kind::Text)
                && is_needed(epoch, "epoch", Kind::Integer)
        }
        _ => false,
    }
}

/// Whether they are the columns of the table `tokens`.
pub(crate) fn are_token_columns(columns: &[Column]) -> bool
    ensures { IsTrue result ↔ (columns.now ≡ tokens.columns) }
{
    match columns {
        [number, digest, role] => {
            is_needed(number, "number", Kind::Integer)
                && is_needed(digest, "digest", Kind::Blob)
                && is_needed(role, "role", Kind::Integer)
        }
        _ => false,
    }
}

/// Whether they are the columns of a document's key.
fn are_key_columns(number: &Column, kind: &Column, id: &Column, version: &Column) -> bool
    ensures { IsTrue result
        ↔ ((number.now ≡ needed (codes "number") Kind.Integer)
        × (kind.now ≡ needed (codes "kind") Kind.Integer) × (id.now ≡ needed (codes "id") Kind.Text)
        × (version.now ≡ needed (codes "version") Kind.Text)) }
{
    is_needed(number, "number", Kind::Integer)
        && is_needed(kind, "kind", Kind::Integer)
        && is_needed(id, "id", Kind::Text)
        && is_needed(version, "version", Kind::Text)
}

/// Whether they are the columns of a document's text and of whether it is active.
fn are_body_columns(body: &Column, active: &Column) -> bool
    ensures { IsTrue result
        ↔ ((body.now ≡ needed (codes "body") Kind.Blob)
        × (active.now ≡ needed (codes "active") Kind.Integer)) }
{
    is_needed(body, "body", Kind::Blob) && is_needed(active, "active", Kind::Integer)
}

/// Whether they are the columns of the table `policies`.
pub(crate) fn are_policy_columns(columns: &[Column]) -> bool
    ensures { IsTrue result ↔ (columns.now ≡ policies.columns) }
{
    match columns {
        [number, kind, id, version, body, active] => {
            are_key_columns(number, kind, id, version) && are_body_columns(body, active)
        }
        _ => false,
    }
}

/// Whether they are the columns of the table `roots`.
pub(crate) fn are_root_columns(columns: &[Column]) -> bool
    ensures { IsTrue result ↔ (columns.now ≡ roots.columns) }
{
    match columns {
        [number, kind, id, pattern, earliest, latest] => {
            is_own_key(number, "number")
                && is_needed(kind, "kind", Kind::Integer)
                && is_needed(id, "id", Kind::Text)
                && is_text_if_any(pattern, "pattern")
                && is_text_if_any(earliest, "earliest")
                && is_text_if_any(latest, "latest")
        }
        _ => false,
    }
}

/// Whether they are the columns that name an attribute.
fn are_name_columns(category: &Column, entity: &Column, attribute: &Column) -> bool
    ensures { IsTrue result
        ↔ ((category.now ≡ needed (codes "category") Kind.Text)
        × (entity.now ≡ needed (codes "entity") Kind.Text)
        × (attribute.now ≡ needed (codes "attribute") Kind.Text)) }
{
    is_needed(category, "category", Kind::Text)
        && is_needed(entity, "entity", Kind::Text)
        && is_needed(attribute, "attribute", Kind::Text)
}

/// Whether they are the columns of a value.
fn are_value_columns(value_type: &Column, value: &Column) -> bool
    ensures { IsTrue result
        ↔ ((value_type.now ≡ needed (codes "value_type") Kind.Integer)
        × (value.now ≡ needed (codes "value") Kind.Text)) }
{
    is_needed(value_type, "value_type", Kind::Integer) && is_needed(value, "value", Kind::Text)
}

/// Whether they are the columns of a value and of its issuer.
fn are_issued_value_columns(value_type: &Column, value: &Column, issuer: &Column) -> bool
    ensures { IsTrue result
        ↔ ((value_type.now ≡ needed (codes "value_type") Kind.Integer)
        × (value.now ≡ needed (codes "value") Kind.Text) × (issuer.now ≡ text_if_any (codes "issuer"))) }
{
    are_value_columns(value_type, value) && is_text_if_any(issuer, "issuer")
}

/// Whether they are the columns of a row's domain and place.
fn are_place_columns(number: &Column, place: &Column) -> bool
    ensures { IsTrue result
        ↔ ((number.now ≡ needed (codes "number") Kind.Integer)
        × (place.now ≡ needed (codes "place") Kind.Integer)) }
{
    is_needed(number, "number", Kind::Integer) && is_needed(place, "place", Kind::Integer)
}

/// Whether they are the columns of the table `attributes`.
pub(crate) fn are_attribute_columns(columns: &[Column]) -> bool
    ensures { IsTrue result ↔ (columns.now ≡ attributes.columns) }
{
    match columns {
        [
            number,
            place,
            category,
            entity,
            attribute,
            value_type,
            value,
        ] => {
            are_place_columns(number, place)
                && are_name_columns(category, entity, attribute)
                && are_value_columns(value_type, value)
        }
        _ => false,
    }
}

/// Whether they are the columns that name an attribute, and those of a value and of its issuer.
fn are_described_columns(columns: &[Column]) -> bool
    ensures { IsTrue result
        ↔ (columns.now ≡ needed (codes "category") Kind.Text ∷ needed (codes "entity") Kind.Text
        ∷ needed (codes "attribute") Kind.Text ∷ needed (codes "value_type") Kind.Integer
        ∷ needed (codes "value") Kind.Text ∷ text_if_any (codes "issuer") ∷ []) }
{
    match columns {
        [category, entity, attribute, value_type, value, issuer] => {
            are_name_columns(category, entity, attribute)
                && are_issued_value_columns(value_type, value, issuer)
        }
        _ => false,
    }
}

/// Whether they are the columns of the table `sources`.
pub(crate) fn are_source_columns(columns: &[Column]) -> bool
    ensures { IsTrue result ↔ (columns.now ≡ sources.columns) }
{
    match columns {
        [number, place, others @ ..] => {
            are_place_columns(number, place) && are_described_columns(others)
        }
        _ => false,
    }
}
