//! The bag, set and higher-order functions by their names, of arguments as expressions give them.
ghost use Rattle.std.specs.Prelude.{◌≡◌, false, map, IfOk};
ghost use Rattle.xa_value.specs.declared.data_type.DataType.TheVariants as data_type_named;
ghost use Rattle.xa_value.specs.Gives.{Gives, answered};
ghost use Rattle.xa_func.specs.declared.func_id.BagFunction.TheVariants as bag_function;
ghost use Rattle.xa_func.specs.declared.func_id.HigherOrder.TheVariants as higher;
ghost use Rattle.xa_func.specs.declared.signature.Kind.TheVariants as kind;
ghost use Rattle.xa_func.specs.Signature.{AcceptsKinds, bag_signature};
ghost use Rattle.xa_bag.specs.HigherOrder.{EachInItsPlace};
ghost use Rattle.xa_bag.specs.ValueOrBag.{kind_of_argument, kind_of_each};
ghost use Rattle.xa_bag.specs.Applying.{bag_applied, grows, IsOfResultKind};
ghost use Rattle.xa_bag.specs.Applying.{higher_order_applied, kind_given};

use crate::arguments::{one_bag, two_bags, value_and_bag};
use crate::fault::BagFault;
use crate::higher_order::{all_of, all_of_all, all_of_any, any_of};
use crate::inner::Inner;
use crate::value_or_bag::ValueOrBag;
use crate::{higher_order, sets};
use std::alloc::Global;
use xa_func::{BagFunction, HigherOrder};
use xa_value::{DataType, OrMemory, Value};

/// The one value of a bag.
fn one_and_only<F>(
    data_type: DataType,
    arguments: &[ValueOrBag],
) -> Result<ValueOrBag, OrMemory<BagFault<F>>>
    requires { AcceptsKinds (bag_signature bag_function.OneAndOnly data_type)
        (map kind_of_argument arguments.now) }
    ensures value { Gives result (bag_applied bag_function.OneAndOnly data_type arguments.now) }
    ensures typed { IfOk result (IsOfResultKind (bag_signature bag_function.OneAndOnly data_type)) }
{
    let bag = one_bag(data_type, arguments);
    Ok(ValueOrBag::Value(sets::one_and_only(bag)?))
}

/// How many values a bag has.
fn bag_size<F>(
    data_type: DataType,
    arguments: &[ValueOrBag],
) -> Result<ValueOrBag, OrMemory<BagFault<F>>>
    requires { AcceptsKinds (bag_signature bag_function.BagSize data_type)
        (map kind_of_argument arguments.now) }
    ensures value { result ≡ answered (bag_applied bag_function.BagSize data_type arguments.now) }
    ensures typed { IfOk result (IsOfResultKind (bag_signature bag_function.BagSize data_type)) }
{
    let bag = one_bag(data_type, arguments);
    Ok(ValueOrBag::Value(Value::Integer(sets::bag_size(bag))))
}

/// Whether the value is in the bag.
fn is_in<F>(
    data_type: DataType,
    arguments: &[ValueOrBag],
) -> Result<ValueOrBag, OrMemory<BagFault<F>>>
    requires { AcceptsKinds (bag_signature bag_function.IsIn data_type) (map kind_of_argument arguments.now) }
    ensures value { result ≡ answered (bag_applied bag_function.IsIn data_type arguments.now) }
    ensures typed { IfOk result (IsOfResultKind (bag_signature bag_function.IsIn data_type)) }
{
    let (value, bag) = value_and_bag(data_type, arguments);
    Ok(ValueOrBag::boolean(sets::is_in(value, bag)))
}

/// The bag of the values.
fn bag<F>(
    alloc: Global,
    data_type: DataType,
    arguments: &[ValueOrBag],
) -> Result<ValueOrBag, OrMemory<BagFault<F>>>
    requires { AcceptsKinds (bag_signature bag_function.Bag data_type) (map kind_of_argument arguments.now) }
    ensures value { Gives result (bag_applied bag_function.Bag data_type arguments.now) }
    ensures typed { IfOk result (IsOfResultKind (bag_signature bag_function.Bag data_type)) }
{
    Ok(ValueOrBag::Bag(sets::bag_of(alloc, data_type, arguments)?))
}

/// The values that two bags share.
fn intersection<F>(
    alloc: Global,
    data_type: DataType,
    arguments: &[ValueOrBag],
) -> Result<ValueOrBag, OrMemory<BagFault<F>>>
    requires { AcceptsKinds (bag_signature bag_function.Intersection data_type)
        (map kind_of_argument arguments.now) }
    ensures value { Gives result (bag_applied bag_function.Intersection data_type arguments.now) }
    ensures typed { IfOk result (IsOfResultKind (bag_signature bag_function.Intersection data_type)) }
{
    let (first, second) = two_bags(data_type, arguments);
    Ok(ValueOrBag::Bag(sets::intersection(alloc, first, second)?))
}

/// The values of all bags.
fn union<F>(
    alloc: Global,
    data_type: DataType,
    arguments: &[ValueOrBag],
) -> Result<ValueOrBag, OrMemory<BagFault<F>>>
    requires { AcceptsKinds (bag_signature bag_function.Union data_type)
        (map kind_of_argument arguments.now) }
    ensures value { Gives result (bag_applied bag_function.Union data_type arguments.now) }
    ensures typed { IfOk result (IsOfResultKind (bag_signature bag_function.Union data_type)) }
{
    Ok(ValueOrBag::Bag(sets::union(alloc, data_type, arguments)?))
}

/// Whether the second bag has a value of the first.
fn at_least_one_member_of<F>(
    data_type: DataType,
    arguments: &[ValueOrBag],
) -> Result<ValueOrBag, OrMemory<BagFault<F>>>
    requires { AcceptsKinds (bag_signature bag_function.AtLeastOneMemberOf data_type)
        (map kind_of_argument arguments.now) }
    ensures value { result ≡ answered (bag_applied bag_function.AtLeastOneMemberOf data_type arguments.now) }
    ensures typed { IfOk result (IsOfResultKind (bag_signature bag_function.AtLeastOneMemberOf data_type)) }
{
    let (first, second) = two_bags(data_type, arguments);
    Ok(ValueOrBag::boolean(sets::at_least_one_member_of(first, second)))
}

/// Whether the second bag has all values of the first.
fn subset<F>(
    data_type: DataType,
    arguments: &[ValueOrBag],
) -> Result<ValueOrBag, OrMemory<BagFault<F>>>
    requires { AcceptsKinds (bag_signature bag_function.Subset data_type)
        (map kind_of_argument arguments.now) }
    ensures value { result ≡ answered (bag_applied bag_function.Subset data_type arguments.now) }
    ensures typed { IfOk result (IsOfResultKind (bag_signature bag_function.Subset data_type)) }
{
    let (first, second) = two_bags(data_type, arguments);
    Ok(ValueOrBag::boolean(sets::subset(first, second)))
}

/// Whether two bags have the same values.
fn set_equals<F>(
    data_type: DataType,
    arguments: &[ValueOrBag],
) -> Result<ValueOrBag, OrMemory<BagFault<F>>>
    requires { AcceptsKinds (bag_signature bag_function.SetEquals data_type)
        (map kind_of_argument arguments.now) }
    ensures value { result ≡ answered (bag_applied bag_function.SetEquals data_type arguments.now) }
    ensures typed { IfOk result (IsOfResultKind (bag_signature bag_function.SetEquals data_type)) }
{
    let (first, second) = two_bags(data_type, arguments);
    Ok(ValueOrBag::boolean(sets::set_equals(first, second)))
}

/// What the function of the type gives for arguments that its signature takes (XACML 3.0, core,
/// appendix A.3.10 and A.3.11). The only fault is NotOne, of one-and-only.
pub fn apply_bag_function<F>(
    alloc: Global,
    function: BagFunction,
    data_type: DataType,
    arguments: &[ValueOrBag],
) -> Result<ValueOrBag, OrMemory<BagFault<F>>>
    requires { AcceptsKinds (bag_signature function data_type) (map kind_of_argument arguments.now) }
    ensures value { Gives result (bag_applied function data_type arguments.now) }
    ensures exact { grows function ≡ false
        → result ≡ answered (bag_applied function data_type arguments.now) }
    ensures typed { IfOk result (IsOfResultKind (bag_signature function data_type)) }
{
    match function {
        BagFunction::OneAndOnly => one_and_only(data_type, arguments),
        BagFunction::BagSize => bag_size(data_type, arguments),
        BagFunction::IsIn => is_in(data_type, arguments),
        BagFunction::Bag => bag(alloc, data_type, arguments),
        BagFunction::Intersection => intersection(alloc, data_type, arguments),
        BagFunction::Union => union(alloc, data_type, arguments),
        BagFunction::AtLeastOneMemberOf => at_least_one_member_of(data_type, arguments),
        BagFunction::Subset => subset(data_type, arguments),
        BagFunction::SetEquals => set_equals(data_type, arguments),
    }
}

/// All-of-any: whether the function is True of each value of the first bag with some value of the second.
fn each_with_some<F: Inner>(
    alloc: Global,
    function: &F,
    arguments: &[ValueOrBag],
) -> Result<ValueOrBag, OrMemory<BagFault<F::Fault>>>
    requires { F.can function.now (map kind_of_each arguments.now) }
    ensures value { Gives result
        (higher_order_applied higher.AllOfAny (F.result_type function.now)
        (F.gives function.now) arguments.now) }
    ensures typed { IfOk result (λ given. kind_of_argument given ≡ kind.Value data_type_named.Boolean) }
{
    match arguments {
        [ValueOrBag::Bag(first), ValueOrBag::Bag(second)] => {
            Ok(ValueOrBag::boolean(all_of_any(alloc, function, first, second)?))
        }
        _ => Err(OrMemory::Error(BagFault::NotOne)),
    }
}

/// All-of-all: whether the function is True of each value of the first bag with each value of the second.
fn each_with_each<F: Inner>(
    alloc: Global,
    function: &F,
    arguments: &[ValueOrBag],
) -> Result<ValueOrBag, OrMemory<BagFault<F::Fault>>>
    requires { F.can function.now (map kind_of_each arguments.now) }
    ensures value { Gives result
        (higher_order_applied higher.AllOfAll (F.result_type function.now)
        (F.gives function.now) arguments.now) }
    ensures typed { IfOk result (λ given. kind_of_argument given ≡ kind.Value data_type_named.Boolean) }
{
    match arguments {
        [ValueOrBag::Bag(first), ValueOrBag::Bag(second)] => {
            Ok(ValueOrBag::boolean(all_of_all(alloc, function, first, second)?))
        }
        _ => Err(OrMemory::Error(BagFault::NotOne)),
    }
}

/// What the higher-order function gives. The inner function is called for each choice of its arguments,
/// up to the choice that settles the result.
fn choice_by_choice<F: Inner>(
    alloc: Global,
    higher_order: HigherOrder,
    function: &F,
    arguments: &[ValueOrBag],
) -> Result<ValueOrBag, OrMemory<BagFault<F::Fault>>>
    requires { F.can function.now (map kind_of_each arguments.now) }
    ensures value { Gives result
        (higher_order_applied higher_order (F.result_type function.now)
        (F.gives function.now) arguments.now) }
    ensures typed { IfOk result (λ given.
        kind_of_argument given ≡ kind_given higher_order (F.result_type function.now)) }
{
    match higher_order {
        HigherOrder::AnyOf | HigherOrder::AnyOfAny => {
            Ok(ValueOrBag::boolean(any_of(alloc, function, arguments)?))
        }
        HigherOrder::AllOf => Ok(ValueOrBag::boolean(all_of(alloc, function, arguments)?)),
        HigherOrder::Map => Ok(ValueOrBag::Bag(higher_order::map(alloc, function, arguments)?)),
        HigherOrder::AllOfAny => each_with_some(alloc, function, arguments),
        HigherOrder::AllOfAll => each_with_each(alloc, function, arguments),
    }
}

/// What the higher-order function gives for the inner function and the arguments after it (XACML 3.0,
/// core, appendix A.3.12). The inner function takes one value of each argument. All-of-any and
/// all-of-all give NotOne unless there are two bags. Clause `law`: if one argument is a bag, the
/// inner function is given each of its values in the bag's place.
#[tactic(auto, using(crate::proofs::JoiningLemmas::each_in_its_place))]
pub fn apply_higher_order<F: Inner>(
    alloc: Global,
    higher_order: HigherOrder,
    function: &F,
    arguments: &[ValueOrBag],
) -> Result<ValueOrBag, OrMemory<BagFault<F::Fault>>>
    requires { F.can function.now (map kind_of_each arguments.now) }
    ensures value { Gives result
        (higher_order_applied higher_order (F.result_type function.now)
        (F.gives function.now) arguments.now) }
    ensures typed { IfOk result (λ given.
        kind_of_argument given ≡ kind_given higher_order (F.result_type function.now)) }
    ensures law { EachInItsPlace }
{
    match function.at_once(higher_order, arguments) {
        Some(answer) => Ok(ValueOrBag::boolean(answer?)),
        None => choice_by_choice(alloc, higher_order, function, arguments),
    }
}
