//! Rows of the source of attributes.

use xa_value::{Text, Value};

/// A value that the source has of an entity's attribute (XACML 3.0, core, section 7.3.5). The
/// attribute's data type is the value's. Rows are equal if they are kept and shown alike: values of one
/// instant under two zones differ, and so do rows of two issuers.
#[derive(Clone, Debug, Drop, PartialEq, Eq)]
pub struct SourceRow {
    /// The category's URI.
    pub category: Text,
    /// The entity; the empty text, if the category has none, or the row is for requests that name none.
    pub entity: Text,
    /// The attribute's id.
    pub attribute_id: Text,
    /// The value, whose data type is the attribute's.
    pub value: Value,
    /// The issuer, if the row has one.
    pub issuer: Option<Text>,
}
