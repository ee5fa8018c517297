//! The keys by which attributes, Category objects and rows of the source are found.
ghost use Rattle.std.specs.Prelude.{◌≡◌};
ghost use Rattle.xa_decide.specs.indexing.Keys.{unsought, name_key, issuer_key, name_key_of};
ghost use Rattle.xa_decide.specs.indexing.Keys.{issuer_key_of, category_key, row_key};
ghost use Rattle.xa_decide.specs.indexing.Keys.{issued_row_key, row_key_of, issued_row_key_of};

use crate::key::Key;
use crate::order::Keying;
use crate::source_row::SourceRow;
use xa_profile::Attribute;
use xa_value::{DataType, Text};

/// How many data types there are, `DataType::ALL`: a key without an issuer has its type's number, from 0
/// to 10, and one with an issuer has that number and this, from 11 to 21.
const TYPES: usize = 11;

/// Attributes by their ids and types.
pub(crate) struct ByName;

impl Keying for ByName {
    type Item = Attribute;

    ghost key_of = { name_key_of };

    fn key(attribute: &Attribute) -> Key<'_> {
        match attribute.values.values() {
            [] => unsought_key(),
            _ => name_key(attribute.id.as_str(), attribute.values.data_type()),
        }
    }
}

/// Attributes by their ids, types and issuers.
pub(crate) struct ByIssuer;

impl Keying for ByIssuer {
    type Item = Attribute;

    ghost key_of = { issuer_key_of };

    fn key(attribute: &Attribute) -> Key<'_> {
        let data_type = attribute.values.data_type();
        match attribute.values.values() {
            [] => unsought_key(),
            _ => issuer_key(attribute.id.as_str(), data_type, &attribute.issuer),
        }
    }
}

/// Rows of the source by their categories, entities, ids and types.
pub(crate) struct ByRow;

impl Keying for ByRow {
    type Item = SourceRow;

    ghost key_of = { row_key_of };

    fn key(row: &SourceRow) -> Key<'_> {
        let id = row.attribute_id.as_str();
        let data_type = row.value.data_type();
        row_key(row.category.as_str(), row.entity.as_str(), id, data_type)
    }
}

/// Rows of the source by their categories, entities, ids, types and issuers.
pub(crate) struct ByIssuedRow;

impl Keying for ByIssuedRow {
    type Item = SourceRow;

    ghost key_of = { issued_row_key_of };

    fn key(row: &SourceRow) -> Key<'_> {
        let category = row.category.as_str();
        let id = row.attribute_id.as_str();
        let data_type = row.value.data_type();
        issued_row_key(category, row.entity.as_str(), id, data_type, &row.issuer)
    }
}

/// A key that nobody asks for, past those of all types. Attributes without values have it: they give
/// nothing to a bag, and would be in the way.
fn unsought_key<'a>() -> Key<'a>
    ensures { result ≡ unsought }
{
    Key {
        number: 2 * TYPES,
        category: "",
        entity: "",
        id: "",
        issuer: "",
    }
}

/// The key of a category.
pub(crate) fn category_key(category: &str) -> Key<'_>
    ensures { result ≡ category_key category.now }
{
    Key {
        number: 0,
        category,
        entity: "",
        id: "",
        issuer: "",
    }
}

/// The key of a row's category, entity, id and type.
pub(crate) fn row_key<'a>(
    category: &'a str,
    entity: &'a str,
    id: &'a str,
    data_type: DataType,
) -> Key<'a>
    ensures { result ≡ row_key category.now entity.now id.now data_type }
{
    Key {
        number: usize::from(data_type.number()),
        category,
        entity,
        id,
        issuer: "",
    }
}

/// The key of a row's category, entity, id, type and issuer, if it has one.
pub(crate) fn issued_row_key<'a>(
    category: &'a str,
    entity: &'a str,
    id: &'a str,
    data_type: DataType,
    issuer: &'a Option<Text>,
) -> Key<'a>
    ensures { result ≡ issued_row_key category.now entity.now id.now data_type issuer.now }
{
    match issuer {
        None => row_key(category, entity, id, data_type),
        Some(issuer) => Key {
            number: TYPES + usize::from(data_type.number()),
            category,
            entity,
            id,
            issuer: issuer.as_str(),
        },
    }
}

/// The key of an attribute's id and type.
pub(crate) fn name_key(id: &str, data_type: DataType) -> Key<'_>
    ensures { result ≡ name_key id.now data_type }
{
    row_key("", "", id, data_type)
}

/// The key of an attribute's id, type and issuer, if it has one.
pub(crate) fn issuer_key<'a>(id: &'a str, data_type: DataType, issuer: &'a Option<Text>) -> Key<'a>
    ensures { result ≡ issuer_key id.now data_type issuer.now }
{
    issued_row_key("", "", id, data_type, issuer)
}
