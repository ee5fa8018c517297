//! Bags that are put together.
ghost use Rattle.std.specs.Prelude.{◌≡◌, [], ◌∷◌, ◌++◌, IfOk};
ghost use Rattle.xa_value.specs.Order.{type_of};
ghost use Rattle.xa_bag.specs.Bag.{bag_of, OfType};

use std::alloc::{AllocError, Global};
use xa_bag::Bag;
use xa_value::{DataType, Value};

/// Puts a copy of the value, which is of the bag's type, at the end of the bag.
pub(crate) fn push_value(bag: &mut Bag, value: &Value) -> Result<(), AllocError>
    requires { type_of value.now ≡ bag.old.data_type }
    ensures { IfOk result (λ _. bag.new ≡ bag_of bag.old.data_type (bag.old.values ++ value.now ∷ [])) }
{
    bag.push(value.clone()?)?;
    Ok(())
}

/// Puts copies of the values, which are of the bag's type, at the end of the bag.
fn push_all(bag: &mut Bag, values: &[Value]) -> Result<(), AllocError>
    requires { OfType bag.old.data_type values.now }
    ensures { IfOk result (λ _. bag.new ≡ bag_of bag.old.data_type (bag.old.values ++ values.now)) }
{
    for value in values {
        push_value(bag, value)?;
    }
    Ok(())
}

/// Puts copies of the other bag's values at the end of the bag, which is of their type; at once, if nothing
/// is in it yet.
pub(crate) fn append(bag: &mut Bag, other: &Bag) -> Result<(), AllocError>
    requires { bag.old.data_type ≡ other.now.data_type }
    ensures { IfOk result (λ _. bag.new ≡ bag_of bag.old.data_type (bag.old.values ++ other.now.values)) }
{
    if bag.is_empty() {
        *bag = other.clone()?;
        Ok(())
    } else {
        push_all(bag, other.values())
    }
}

/// The bag of the one value.
pub(crate) fn bag_of_one(
    alloc: Global,
    data_type: DataType,
    value: Value,
) -> Result<Bag, AllocError>
    requires { type_of value ≡ data_type }
    ensures { IfOk result (λ bag. bag ≡ bag_of data_type (value ∷ [])) }
{
    let mut bag = Bag::new(alloc, data_type);
    bag.push(value)?;
    Ok(bag)
}
