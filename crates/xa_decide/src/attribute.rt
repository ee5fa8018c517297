//! Attributes of a request: which are of an id, a type and an issuer, and what they give to a bag.
ghost use Rattle.std.specs.Prelude.{◌≡◌, true, [], ◌++◌, IfOk, if◌then◌else◌};
ghost use Rattle.xa_bag.specs.Bag.{bag_of};
ghost use Rattle.xa_decide.specs.Context.{is_issuer, is_named, is_named_by};

use crate::bag::append;
use crate::budget::Budget;
use std::alloc::AllocError;
use xa_bag::Bag;
use xa_expr::{Designator, units_of_bag};
use xa_profile::Attribute;
use xa_value::{DataType, Text};

/// Whether the issuer will do: any, if none is named.
pub(crate) fn is_issuer(named: &Option<Text>, own: &Option<Text>) -> bool
    ensures { result ≡ is_issuer named.now own.now }
{
    match (named, own) {
        (None, _) => true,
        (Some(_), None) => false,
        (Some(named), Some(own)) => own == named,
    }
}

/// Whether the attribute is of that id, type and issuer.
pub(crate) fn is_named(
    id: &str,
    data_type: DataType,
    issuer: &Option<Text>,
    attribute: &Attribute,
) -> bool
    ensures { result ≡ is_named id.now data_type issuer.now attribute.now }
{
    attribute.id.as_str() == id
        && attribute.values.data_type().is_same(data_type)
        && is_issuer(issuer, &attribute.issuer)
}

/// Whether the attribute is one that the designator names.
pub(crate) fn is_named_by(designator: &Designator, attribute: &Attribute) -> bool
    ensures { result ≡ is_named_by designator.now attribute.now }
{
    let id = designator.attribute_id.as_str();
    is_named(id, designator.data_type, &designator.issuer, attribute)
}

/// Puts the values of the attribute at the end of the bag, if the designator names it. They are paid for
/// before they are copied.
pub(crate) fn push_attribute(
    budget: &Budget,
    bag: &mut Bag,
    designator: &Designator,
    attribute: &Attribute,
) -> Result<(), AllocError>
    requires { bag.old.data_type ≡ designator.now.data_type }
    ensures { IfOk result (λ _. bag.new ≡ bag_of designator.now.data_type (bag.old.values
        ++ (if is_named_by designator.now attribute.now then attribute.now.values.values else []))) }
{
    if is_named_by(designator, attribute) {
        budget.spend(units_of_bag(&attribute.values))?;
        append(bag, &attribute.values)?;
    }
    Ok(())
}
