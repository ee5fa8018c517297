//! What names the entity of a Category object.
ghost use Rattle.std.specs.Prelude.{◌≡◌, [], filter, None, if◌then◌else◌};
ghost use Rattle.std.specs.List.{flat_map};
ghost use Rattle.xa_value.specs.declared.data_type.DataType.TheVariants as type;
ghost use Rattle.xa_decide.specs.Context.{is_named, text_of};
ghost use Rattle.xa_decide.specs.indexing.Naming.{both, naming_values, said, said_by, text_said};

use crate::attribute::is_named;
use crate::entity::naming_id_of;
use xa_profile::{Attribute, CategoryObject};
use xa_value::{DataType, Value};

/// What the values of a naming attribute say. The text is that of the request, and no copy.
#[derive(Clone, Copy)]
pub(crate) enum Naming<'a> {
    /// There is no value.
    Nobody,
    /// There is one value, of this text.
    One(&'a str),
    /// There are several values.
    Several,
}

impl<'a> Naming<'a> {
    /// What the values say.
    fn of_values(values: &'a [Value]) -> Naming<'a>
        ensures { said_by result ≡ said values.now }
    {
        match values {
            [] => Naming::Nobody,
            [value] => Naming::One(text_of(value)),
            [_, _, ..] => Naming::Several,
        }
    }

    /// What both say together.
    pub(crate) fn and(self, other: Naming<'a>) -> Naming<'a>
        ensures { said_by result ≡ both (said_by self.entry) (said_by other.entry) }
    {
        match (self, other) {
            (Naming::Nobody, naming) => naming,
            (naming, Naming::Nobody) => naming,
            _ => Naming::Several,
        }
    }

    /// The text, if there is one value; else the empty text.
    pub(crate) fn text(self) -> &'a str
        ensures { result.now ≡ text_said (said_by self.entry) }
    {
        match self {
            Naming::One(text) => text,
            _ => "",
        }
    }
}

/// The text of a value; the empty text of a value that is none.
fn text_of(value: &Value) -> &str
    ensures { result.now ≡ text_of value.now }
{
    match value {
        Value::String(text) => text.as_str(),
        _ => "",
    }
}

/// What the attribute says, if it has the id and its values are texts.
fn naming_of_attribute<'a>(id: &str, attribute: &'a Attribute) -> Naming<'a>
    ensures { said_by result
        ≡ said (if is_named id.now type.String None attribute.now then attribute.now.values.values else []) }
{
    if is_named(id, DataType::String, &None, attribute) {
        Naming::of_values(attribute.values.values())
    } else {
        Naming::Nobody
    }
}

/// What the attributes that have the id and whose values are texts say together.
#[tactic(auto, using(crate::proofs::NamingLemmas::both_behind, crate::proofs::NamingLemmas::both_none))]
fn naming_of_attributes<'a>(id: &str, attributes: &'a [Attribute]) -> Naming<'a>
    ensures { said_by result
        ≡ said (flat_map (λ a. a.values.values) (filter (is_named id.now type.String None) attributes.now)) }
{
    let mut naming = Naming::Nobody;
    for attribute in attributes {
        naming = naming.and(naming_of_attribute(id, attribute));
    }
    naming
}

/// What names the object's entity.
pub(crate) fn naming_of(object: &CategoryObject) -> Naming<'_>
    ensures { said_by result ≡ said (naming_values object.now) }
{
    match naming_id_of(object.category.as_str()) {
        Some(id) => naming_of_attributes(id, object.attributes.as_slice()),
        None => Naming::Nobody,
    }
}
