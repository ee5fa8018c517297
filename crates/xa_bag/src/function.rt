//! Functions of values by their names, as inner functions.
ghost use Rattle.std.specs.Prelude.{◌≡◌, map, IfSome};
ghost use Rattle.xa_value.specs.declared.data_type.DataType.TheVariants as data_type;
ghost use Rattle.xa_func.specs.declared.func_id.FuncId.TheVariants as function_id;
ghost use Rattle.xa_func.specs.Application.{applied};
ghost use Rattle.xa_func.specs.Signature.{TakesKinds, signature_of, result_type_of};
ghost use Rattle.xa_bag.specs.Applying.{as_boolean, higher_order_applied};
ghost use Rattle.xa_bag.specs.HigherOrder.{any_of};
ghost use Rattle.xa_bag.specs.Relation.{asked};
ghost use Rattle.xa_bag.specs.ValueOrBag.{kind_of_each};

use crate::arguments::both_bags;
use crate::fault::BagFault;
use crate::inner::Inner;
use crate::logic_at_once::of_some_choice;
use crate::relation::Relation;
use crate::value_or_bag::ValueOrBag;
use std::alloc::Global;
use xa_func::{FuncFault, FuncId, HasKind, HigherOrder, Logic};
use xa_value::{DataType, OrMemory, Value};

/// A function of values, by its name.
impl Inner for FuncId {
    type Fault = FuncFault;

    ghost can = { TakesKinds };

    ghost result_type = { λ function. result_type_of (signature_of function) };

    ghost gives = { applied };

    fn takes_each<T: HasKind>(&self, arguments: &[T]) -> bool {
        FuncId::takes_each(*self, arguments)
    }

    fn result_type(&self) -> DataType {
        self.signature().result_type()
    }

    fn at_once(
        &self,
        higher_order: HigherOrder,
        arguments: &[ValueOrBag],
    ) -> Option<Result<bool, BagFault<FuncFault>>> {
        match *self {
            FuncId::Equal(_) => compared_at_once(Relation::Equal, higher_order, arguments),
            FuncId::Compare(comparison, _) => {
                compared_at_once(Relation::Order(comparison), higher_order, arguments)
            }
            FuncId::Logic(function) => logical_at_once(function, higher_order, arguments),
            _ => None,
        }
    }

    fn call(&self, alloc: Global, arguments: &[Value]) -> Result<Value, OrMemory<FuncFault>> {
        self.apply(alloc, arguments)
    }
}

/// What the higher-order function gives for the function that compares so, if that is found at once.
fn compared_at_once(
    relation: Relation,
    higher_order: HigherOrder,
    arguments: &[ValueOrBag],
) -> Option<Result<bool, BagFault<FuncFault>>>
    ensures { IfSome result (λ answer.
        higher_order_applied higher_order data_type.Boolean (asked relation) arguments.now
        ≡ as_boolean answer) }
{
    let (first, second) = both_bags(arguments)?;
    let answer = relation.of_bags(higher_order, first, second)?;
    Some(Ok(answer))
}

/// What any-of gives for the function of booleans, if that is found at once.
fn any_of_logic(
    function: Logic,
    arguments: &[ValueOrBag],
) -> Option<Result<bool, BagFault<FuncFault>>>
    requires { TakesKinds (function_id.Logic function) (map kind_of_each arguments.now) }
    ensures { IfSome result (λ answer. any_of (applied (function_id.Logic function)) arguments.now ≡ answer) }
{
    match of_some_choice(function, arguments)? {
        Ok(answer) => Some(Ok(answer)),
        Err(fault) => Some(Err(BagFault::Inner(fault))),
    }
}

/// What the higher-order function gives for the function of booleans, if that is found at once.
fn logical_at_once(
    function: Logic,
    higher_order: HigherOrder,
    arguments: &[ValueOrBag],
) -> Option<Result<bool, BagFault<FuncFault>>>
    requires { TakesKinds (function_id.Logic function) (map kind_of_each arguments.now) }
    ensures { IfSome result (λ answer. higher_order_applied higher_order data_type.Boolean
        (applied (function_id.Logic function)) arguments.now
        ≡ as_boolean answer) }
{
    match higher_order {
        HigherOrder::AnyOf | HigherOrder::AnyOfAny => any_of_logic(function, arguments),
        HigherOrder::AllOf | HigherOrder::Map | HigherOrder::AllOfAny | HigherOrder::AllOfAll =>
            None,
    }
}
