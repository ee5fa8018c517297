//! Calls of functions, with arguments that were worked out. Before each call its units are taken from the
//! work that the message may ask for, by the sizes of its arguments: what functions give is no larger than
//! these together.
ghost use Rattle.std.specs.Prelude.{◌≡◌, map, Ok, Err, IfOk};
ghost use Rattle.xa_value.specs.Gives.{Gives, MatchGiven};
ghost use Rattle.xa_value.specs.declared.or_memory.OrMemory.TheVariants.{Memory, Error};
ghost use Rattle.xa_func.specs.Application as func;
ghost use Rattle.xa_func.specs.Signature.{AcceptsKinds, TakesKinds, kind_of};
ghost use Rattle.xa_func.specs.Signature.{signature_of, bag_signature, result_type_of};
ghost use Rattle.xa_bag.specs.Fault.{status_of};
ghost use Rattle.xa_bag.specs.Applying.{as_argument, bag_applied, higher_order_applied, kind_given};
ghost use Rattle.xa_bag.specs.ValueOrBag.{kind_of_argument, kind_of_each};
ghost use Rattle.xa_expr.specs.Fault.{fault_with, of_function, of_bag_function};
ghost use Rattle.xa_expr.specs.Typed.{result_kind};

use crate::charged::Charged;
use crate::context::Context;
use crate::fault::Fault;
use crate::rates::units_of_calls;
use crate::work::{units_of_bag_function, units_of_higher_order, units_of_values};
use std::alloc::Global;
use xa_bag::{BagFault, ValueOrBag, apply_bag_function, apply_higher_order};
use xa_func::{BagFunction, FuncFault, FuncId, HigherOrder};
use xa_value::{DataType, OrMemory, Value, map_error};

/// What a function of values gives.
#[tactic(auto, using(crate::proofs::FunctionLemmas::result_typed))]
pub(crate) fn call_function<C: Context>(
    alloc: Global,
    context: &C,
    function: FuncId,
    arguments: &[Value],
) -> Result<ValueOrBag, OrMemory<Fault>>
    requires { TakesKinds function (map kind_of arguments.now) }
    ensures value { Gives result (as_argument (of_function (func.applied function arguments.now))) }
    ensures typed { IfOk result (λ given. kind_of_argument given ≡ result_kind (signature_of function)) }
{
    context.spend(units_of_calls(function, 1, units_of_values(arguments)))?;
    let given = function.apply(alloc, arguments);
    let value = map_error(given, |fault| Fault::with(fault.status()))?;
    Ok(ValueOrBag::Value(value))
}

/// What was given. Of its fault the status code alone is kept.
fn by_status(
    given: Result<ValueOrBag, OrMemory<BagFault<FuncFault>>>,
) -> Result<ValueOrBag, OrMemory<Fault>>
    ensures { MatchGiven given (λ value. result ≡ Ok value) (result ≡ Err Memory)
        (λ fault. result ≡ Err (Error (fault_with (status_of fault)))) }
{
    map_error(given, |fault| Fault::with(fault.status()))
}

/// What a bag function of the type gives.
#[tactic(auto, using(crate::proofs::FunctionLemmas::bag_result_typed))]
pub(crate) fn call_bag_function<C: Context>(
    alloc: Global,
    context: &C,
    function: BagFunction,
    data_type: DataType,
    arguments: &[ValueOrBag],
) -> Result<ValueOrBag, OrMemory<Fault>>
    requires { AcceptsKinds (bag_signature function data_type) (map kind_of_argument arguments.now) }
    ensures value { Gives result (of_bag_function (bag_applied function data_type arguments.now)) }
    ensures typed { IfOk result (λ given.
        kind_of_argument given ≡ result_kind (bag_signature function data_type)) }
{
    context.spend(units_of_bag_function(function, arguments))?;
    by_status(apply_bag_function(alloc, function, data_type, arguments))
}

/// What a higher-order function gives, with its inner function and the arguments after that.
pub(crate) fn call_higher_order<C: Context>(
    alloc: Global,
    context: &C,
    function: HigherOrder,
    inner: FuncId,
    arguments: &[ValueOrBag],
) -> Result<ValueOrBag, OrMemory<Fault>>
    requires { TakesKinds inner (map kind_of_each arguments.now) }
    ensures value { Gives result
        (of_bag_function (higher_order_applied function (result_type_of (signature_of inner))
        (func.applied inner) arguments.now)) }
    ensures typed { IfOk result (λ given.
        kind_of_argument given ≡ kind_given function (result_type_of (signature_of inner))) }
{
    context.spend(units_of_higher_order(function, inner, arguments))?;
    let charged = Charged {
        function: inner,
        context,
    };
    by_status(apply_higher_order(alloc, function, &charged, arguments))
}
