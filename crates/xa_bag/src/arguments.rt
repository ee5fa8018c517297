//! The arguments of the functions that take one bag, a value and a bag, or two bags.
ghost use Rattle.std.specs.Prelude.{◌≡◌, ◌∷◌, [], map, IfSome};
ghost use Rattle.xa_func.specs.declared.signature.Kind.TheVariants as kind;
ghost use Rattle.xa_bag.specs.declared.value_or_bag.ValueOrBag.TheVariants as given;
ghost use Rattle.xa_bag.specs.ValueOrBag.{kind_of_argument};

use crate::bag::Bag;
use crate::value_or_bag::ValueOrBag;
use xa_value::{DataType, Value};

/// The value of an argument that is one of the type. The type is of the contract alone.
fn value_of(data_type: DataType, argument: &ValueOrBag) -> &Value
    requires { kind_of_argument argument.now ≡ kind.Value data_type }
    ensures { argument.now ≡ given.Value result.now }
{
    match argument {
        ValueOrBag::Value(value) => value,
        ValueOrBag::Bag(_) => unreachable!(),
    }
}

/// The bag of an argument that is one of the type. The type is of the contract alone.
fn bag_of(data_type: DataType, argument: &ValueOrBag) -> &Bag
    requires { kind_of_argument argument.now ≡ kind.Bag data_type }
    ensures { argument.now ≡ given.Bag result.now }
{
    match argument {
        ValueOrBag::Bag(bag) => bag,
        ValueOrBag::Value(_) => unreachable!(),
    }
}

/// The only argument, a bag of the type.
pub(crate) fn one_bag(data_type: DataType, arguments: &[ValueOrBag]) -> &Bag
    requires { map kind_of_argument arguments.now ≡ kind.Bag data_type ∷ [] }
    ensures { arguments.now ≡ given.Bag result.now ∷ [] }
{
    let [bag] = arguments else {
        unreachable!();
    };
    bag_of(data_type, bag)
}

/// The two arguments, a value and a bag of the type.
pub(crate) fn value_and_bag(data_type: DataType, arguments: &[ValueOrBag]) -> (&Value, &Bag)
    requires { map kind_of_argument arguments.now ≡ kind.Value data_type ∷ kind.Bag data_type ∷ [] }
    ensures { arguments.now ≡ given.Value result.0.now ∷ given.Bag result.1.now ∷ [] }
{
    let [value, bag] = arguments else {
        unreachable!();
    };
    (value_of(data_type, value), bag_of(data_type, bag))
}

/// The two arguments, both bags of the type.
pub(crate) fn two_bags(data_type: DataType, arguments: &[ValueOrBag]) -> (&Bag, &Bag)
    requires { map kind_of_argument arguments.now ≡ kind.Bag data_type ∷ kind.Bag data_type ∷ [] }
    ensures { arguments.now ≡ given.Bag result.0.now ∷ given.Bag result.1.now ∷ [] }
{
    let [first, second] = arguments else {
        unreachable!();
    };
    (bag_of(data_type, first), bag_of(data_type, second))
}

/// The two arguments, if both are bags and there are no others.
pub(crate) fn both_bags(arguments: &[ValueOrBag]) -> Option<(&Bag, &Bag)>
    ensures { IfSome result (λ bags. arguments.now ≡ given.Bag bags.0.now ∷ given.Bag bags.1.now ∷ []) }
{
    match arguments {
        [ValueOrBag::Bag(first), ValueOrBag::Bag(second)] => Some((first, second)),
        _ => None,
    }
}
