//! Attribute designators.
use xa_value::{DataType, Text};

/// An attribute designator (core, section 5.29): it stands for the bag of an attribute's values.
#[derive(Clone, Debug, Drop, PartialEq, Eq)]
pub struct Designator {
    /// The category's URI.
    pub category: Text,
    /// The attribute's id.
    pub attribute_id: Text,
    /// The data type of the values.
    pub data_type: DataType,
    /// Whether an empty bag is a fault, `missing-attribute`.
    pub must_be_present: bool,
    /// Who has to have issued the attribute; without one, anybody may have.
    pub issuer: Option<Text>,
}
