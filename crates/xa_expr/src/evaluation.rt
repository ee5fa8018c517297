//! The values of checked expressions (XACML 3.0, core, section 7.4), by the results of variables.
ghost use Rattle.std.specs.Prelude.{◌≡◌, map, if◌then◌else◌, IfOk};
ghost use Rattle.xa_value.specs.Gives.{Gives};
ghost use Rattle.xa_func.specs.declared.func_id.FuncId.TheVariants as function_id;
ghost use Rattle.xa_func.specs.Logic.{or_of, and_of, n_among};
ghost use Rattle.xa_func.specs.Signature.{AcceptsKinds, TakesKinds, kind_of, signature_of};
ghost use Rattle.xa_func.specs.Signature.{bag_signature, of_each, result_type_of};
ghost use Rattle.xa_bag.specs.declared.value_or_bag.ValueOrBag.TheVariants as given_variant;
ghost use Rattle.xa_bag.specs.Applying.{kind_given};
ghost use Rattle.xa_bag.specs.HigherOrder.{collected};
ghost use Rattle.xa_bag.specs.Quantifier.{settling};
ghost use Rattle.xa_bag.specs.ValueOrBag.{kind_of_argument};
ghost use Rattle.xa_expr.specs.declared.fault.Fault.TheVariants.{ProcessingError};
ghost use Rattle.xa_expr.specs.Arguments.{AreTypedUnder, AreValueKinds, value_result};
ghost use Rattle.xa_expr.specs.Evaluation.{applied, applied_to_values, higher_applied};
ghost use Rattle.xa_expr.specs.Evaluation.{n_of_places, number, outcome, place, truth, value_in};
ghost use Rattle.xa_expr.specs.Results.{AreOfKinds};
ghost use Rattle.xa_expr.specs.Typed.{IsTyped, kind_of_typed, result_kind};
ghost use Rattle.xa_expr.specs.Variables.{kinds};

use crate::context::Context;
use crate::fault::Fault;
use crate::function::{call_bag_function, call_function, call_higher_order};
use crate::scope::{Scope, attribute};
use crate::typed::Typed;
use crate::work::{LIST, LOOK, STEP, VALUE, units_of};
use std::alloc::{AllocError, Global};
use xa_bag::{Quantifier, ValueOrBag};
use xa_func::{BagFunction, FuncId, HigherOrder, Logic};
use xa_value::{DataType, Items, OrMemory, Value};

/// A copy of the literal. Its units are taken before it is made, and those of another value beside them:
/// literals were measured to take longer than their units.
fn literal<C: Context>(context: &C, value: &Value) -> Result<ValueOrBag, AllocError>
    ensures { IfOk result (λ given. given ≡ given_variant.Value value.now) }
{
    context.spend(units_of(value).saturating_add(VALUE))?;
    Ok(ValueOrBag::Value(value.clone()?))
}

// The last arm of each of the next three functions is never reached: a type check lets nothing else through
// (`MeetsNoMisfit` of specs/Misfits).

/// Whether what an argument gives is True.
fn truth(given: &ValueOrBag) -> bool
    ensures { result ≡ truth given.now }
{
    match given {
        ValueOrBag::Value(Value::Boolean(boolean)) => *boolean,
        _ => false,
    }
}

/// The number that an argument gives.
fn number(given: &ValueOrBag) -> i64
    ensures { result ≡ number given.now }
{
    match given {
        ValueOrBag::Value(Value::Integer(number)) => *number,
        _ => 0,
    }
}

/// The value that an argument gives.
fn value_in(given: ValueOrBag) -> Value
    ensures { result ≡ value_in given }
{
    match given {
        ValueOrBag::Value(value) => value,
        ValueOrBag::Bag(_) => Value::Boolean(false),
    }
}

/// What the expression comes to, if the variables come to the results. Before anything is done, each
/// expression takes a step from the work that the message may ask for.
#[cycle(evaluation)]
pub(crate) fn evaluate<'a, C: Context>(
    alloc: Global,
    scope: &Scope<'a, C>,
    expression: &Typed,
) -> Result<ValueOrBag, OrMemory<Fault>>
    requires right { AreOfKinds (kinds scope.now.definitions.now) scope.now.results.now }
    requires typed { IsTyped (kinds scope.now.definitions.now) expression.now }
    ensures value { Gives result
        (outcome (C.values_of scope.now.context.now) scope.now.results.now expression.now) }
    ensures typed { IfOk result (λ given. kind_of_argument given ≡ kind_of_typed expression.now) }
{
    scope.context.spend(STEP)?;
    match expression {
        Typed::Literal(value) => Ok(literal(scope.context, value)?),
        Typed::Attribute(designator) => attribute(alloc, scope.context, designator),
        Typed::Variable(place, _) => scope.variable(*place),
        Typed::Apply(function, arguments) => apply(alloc, scope, *function, arguments.as_slice()),
        Typed::HigherOrder(function, inner, arguments) => apply_higher_order(
            alloc,
            scope,
            *function,
            *inner,
            arguments.as_slice(),
        ),
    }
}

/// What the function comes to on the arguments.
#[cycle(evaluation)]
fn apply<'a, C: Context>(
    alloc: Global,
    scope: &Scope<'a, C>,
    function: FuncId,
    arguments: &[Typed],
) -> Result<ValueOrBag, OrMemory<Fault>>
    requires right { AreOfKinds (kinds scope.now.definitions.now) scope.now.results.now }
    requires typed { AreTypedUnder (kinds scope.now.definitions.now) arguments.now }
    requires accepted { AcceptsKinds (signature_of function) (map kind_of_typed arguments.now) }
    ensures value { Gives result (applied function
        (map (outcome (C.values_of scope.now.context.now) scope.now.results.now) arguments.now)) }
    ensures typed { IfOk result (λ given. kind_of_argument given ≡ result_kind (signature_of function)) }
{
    match function {
        FuncId::Logic(function) => apply_logic(alloc, scope, function, arguments),
        FuncId::Bag(function, data_type) => {
            apply_to_bags(alloc, scope, function, data_type, arguments)
        }
        _ => apply_to_values(alloc, scope, function, arguments),
    }
}

/// What the function of booleans comes to on the arguments. Before anything is done, it takes the units of
/// a look, beside the step of its expression.
#[cycle(evaluation)]
fn apply_logic<'a, C: Context>(
    alloc: Global,
    scope: &Scope<'a, C>,
    function: Logic,
    arguments: &[Typed],
) -> Result<ValueOrBag, OrMemory<Fault>>
    requires right { AreOfKinds (kinds scope.now.definitions.now) scope.now.results.now }
    requires typed { AreTypedUnder (kinds scope.now.definitions.now) arguments.now }
    requires accepted { AcceptsKinds (signature_of (function_id.Logic function))
        (map kind_of_typed arguments.now) }
    ensures value { Gives result
        (applied (function_id.Logic function)
        (map (outcome (C.values_of scope.now.context.now) scope.now.results.now) arguments.now)) }
    ensures typed { IfOk result (λ given.
        kind_of_argument given ≡ result_kind (signature_of (function_id.Logic function))) }
{
    scope.context.spend(LOOK)?;
    match function {
        Logic::Or => Ok(ValueOrBag::boolean(are_true(alloc, scope, Quantifier::Any, arguments)?)),
        Logic::And => Ok(ValueOrBag::boolean(are_true(alloc, scope, Quantifier::All, arguments)?)),
        Logic::NOf => Ok(ValueOrBag::boolean(n_of(alloc, scope, arguments)?)),
        Logic::Not => apply_to_values(alloc, scope, FuncId::Logic(function), arguments),
    }
}

/// Whether any or all of the arguments are True. No argument is evaluated after one that settles it or
/// gives a fault.
#[cycle(evaluation)]
fn are_true<'a, C: Context>(
    alloc: Global,
    scope: &Scope<'a, C>,
    quantifier: Quantifier,
    arguments: &[Typed],
) -> Result<bool, OrMemory<Fault>>
    requires right { AreOfKinds (kinds scope.now.definitions.now) scope.now.results.now }
    requires typed { AreTypedUnder (kinds scope.now.definitions.now) arguments.now }
    ensures { let found = map place
        (map (outcome (C.values_of scope.now.context.now) scope.now.results.now) arguments.now) in
        Gives result (if settling quantifier then or_of found else and_of found) }
{
    let sought = quantifier.settling();
    for argument in arguments {
        let given = evaluate(alloc, scope, argument)?;
        if truth(&given) == sought {
            return Ok(sought);
        }
    }
    Ok(!sought)
}

/// N-of: the number first, and then the booleans, as far as they are needed.
#[cycle(evaluation)]
fn n_of<'a, C: Context>(
    alloc: Global,
    scope: &Scope<'a, C>,
    arguments: &[Typed],
) -> Result<bool, OrMemory<Fault>>
    requires right { AreOfKinds (kinds scope.now.definitions.now) scope.now.results.now }
    requires typed { AreTypedUnder (kinds scope.now.definitions.now) arguments.now }
    ensures { Gives result (n_of_places
        (map (outcome (C.values_of scope.now.context.now) scope.now.results.now) arguments.now)) }
{
    let [first, booleans @ ..] = arguments else {
        return Err(OrMemory::Error(Fault::ProcessingError));
    };
    let given = evaluate(alloc, scope, first)?;
    let wanted = number(&given);
    if wanted < 0 {
        return Err(OrMemory::Error(Fault::ProcessingError));
    }
    n_among(alloc, scope, wanted.unsigned_abs() as usize, booleans)
}

/// Whether at least this many of the booleans are True; a fault if there are fewer booleans. None is
/// evaluated after the last True that is wanted, after the one with which too few are left, or after a fault.
#[cycle(evaluation)]
fn n_among<'a, C: Context>(
    alloc: Global,
    scope: &Scope<'a, C>,
    wanted: usize,
    booleans: &[Typed],
) -> Result<bool, OrMemory<Fault>>
    requires right { AreOfKinds (kinds scope.now.definitions.now) scope.now.results.now }
    requires typed { AreTypedUnder (kinds scope.now.definitions.now) booleans.now }
    ensures { Gives result
        (n_among ProcessingError wanted
        (map place (map (outcome (C.values_of scope.now.context.now) scope.now.results.now) booleans.now))) }
{
    if wanted > booleans.len() {
        return Err(OrMemory::Error(Fault::ProcessingError));
    }
    if wanted == 0 {
        return Ok(true);
    }
    let mut missing = wanted;
    let mut left = booleans.len();
    for boolean in booleans {
        let given = evaluate(alloc, scope, boolean)?;
        left -= 1;
        if !truth(&given) {
            if left < missing {
                return Ok(false);
            }
            continue;
        }
        if missing == 1 {
            return Ok(true);
        }
        missing -= 1;
    }
    Ok(false)
}

/// What a function of values comes to on the arguments.
#[cycle(evaluation)]
fn apply_to_values<'a, C: Context>(
    alloc: Global,
    scope: &Scope<'a, C>,
    function: FuncId,
    arguments: &[Typed],
) -> Result<ValueOrBag, OrMemory<Fault>>
    requires right { AreOfKinds (kinds scope.now.definitions.now) scope.now.results.now }
    requires typed { AreTypedUnder (kinds scope.now.definitions.now) arguments.now }
    requires takes { TakesKinds function (map kind_of_typed arguments.now) }
    ensures value { Gives result
        (applied_to_values function
        (map (outcome (C.values_of scope.now.context.now) scope.now.results.now) arguments.now)) }
    ensures typed { IfOk result (λ given. kind_of_argument given ≡ result_kind (signature_of function)) }
{
    let values = all_values(alloc, scope, arguments)?;
    call_function(alloc, scope.context, function, values.as_slice())
}

/// What a function of bags comes to on the arguments.
#[cycle(evaluation)]
fn apply_to_bags<'a, C: Context>(
    alloc: Global,
    scope: &Scope<'a, C>,
    function: BagFunction,
    data_type: DataType,
    arguments: &[Typed],
) -> Result<ValueOrBag, OrMemory<Fault>>
    requires right { AreOfKinds (kinds scope.now.definitions.now) scope.now.results.now }
    requires typed { AreTypedUnder (kinds scope.now.definitions.now) arguments.now }
    requires accepted { AcceptsKinds (bag_signature function data_type) (map kind_of_typed arguments.now) }
    ensures value { Gives result
        (applied (function_id.Bag function data_type)
        (map (outcome (C.values_of scope.now.context.now) scope.now.results.now) arguments.now)) }
    ensures typed { IfOk result (λ given.
        kind_of_argument given ≡ result_kind (bag_signature function data_type)) }
{
    let given = all_given(alloc, scope, arguments)?;
    call_bag_function(alloc, scope.context, function, data_type, given.as_slice())
}

/// What a higher-order function comes to, with its inner function and the arguments after that.
#[cycle(evaluation)]
fn apply_higher_order<'a, C: Context>(
    alloc: Global,
    scope: &Scope<'a, C>,
    function: HigherOrder,
    inner: FuncId,
    arguments: &[Typed],
) -> Result<ValueOrBag, OrMemory<Fault>>
    requires right { AreOfKinds (kinds scope.now.definitions.now) scope.now.results.now }
    requires typed { AreTypedUnder (kinds scope.now.definitions.now) arguments.now }
    requires takes { TakesKinds inner (map of_each (map kind_of_typed arguments.now)) }
    ensures value { Gives result
        (higher_applied function inner
        (map (outcome (C.values_of scope.now.context.now) scope.now.results.now) arguments.now)) }
    ensures typed { IfOk result (λ given.
        kind_of_argument given ≡ kind_given function (result_type_of (signature_of inner))) }
{
    let given = all_given(alloc, scope, arguments)?;
    call_higher_order(alloc, scope.context, function, inner, given.as_slice())
}

/// What the arguments come to, none of which is a bag, from the first to the last. The list is counted
/// before it is made.
#[cycle(evaluation)]
fn all_values<'a, C: Context>(
    alloc: Global,
    scope: &Scope<'a, C>,
    arguments: &[Typed],
) -> Result<Items<Value>, OrMemory<Fault>>
    requires right { AreOfKinds (kinds scope.now.definitions.now) scope.now.results.now }
    requires typed { AreTypedUnder (kinds scope.now.definitions.now) arguments.now }
    requires values { AreValueKinds (map kind_of_typed arguments.now) }
    ensures value { Gives result
        (collected (map value_result
        (map (outcome (C.values_of scope.now.context.now) scope.now.results.now) arguments.now))) }
    ensures typed { IfOk result (λ values. map kind_of values ≡ map kind_of_typed arguments.now) }
{
    scope.context.spend(LIST)?;
    let mut values = Items::new(alloc);
    for argument in arguments {
        let given = evaluate(alloc, scope, argument)?;
        values.push(value_in(given))?;
    }
    Ok(values)
}

/// What the arguments come to, from the first to the last. The list is counted before it is made.
#[cycle(evaluation)]
fn all_given<'a, C: Context>(
    alloc: Global,
    scope: &Scope<'a, C>,
    arguments: &[Typed],
) -> Result<Items<ValueOrBag>, OrMemory<Fault>>
    requires right { AreOfKinds (kinds scope.now.definitions.now) scope.now.results.now }
    requires typed { AreTypedUnder (kinds scope.now.definitions.now) arguments.now }
    ensures value { Gives result
        (collected (map (outcome (C.values_of scope.now.context.now) scope.now.results.now) arguments.now)) }
    ensures typed { IfOk result (λ given. map kind_of_argument given ≡ map kind_of_typed arguments.now) }
{
    scope.context.spend(LIST)?;
    let mut all = Items::new(alloc);
    for argument in arguments {
        let given = evaluate(alloc, scope, argument)?;
        all.push(given)?;
    }
    Ok(all)
}
