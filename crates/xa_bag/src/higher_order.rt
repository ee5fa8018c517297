//! The higher-order functions (XACML 3.0, core, appendix A.3.12), of any inner function. Each stops
//! at the result that decides.
ghost use Rattle.std.specs.Prelude.{◌≡◌, [], ◌∷◌, ◌++◌, map, if◌then◌else◌, Ok, IfOk};
ghost use Rattle.xa_value.specs.Gives.{Gives};
ghost use Rattle.xa_value.specs.Order.{type_of};
ghost use Rattle.xa_func.specs.declared.signature.Kind.TheVariants as kind;
ghost use Rattle.xa_func.specs.Logic.{or_of, and_of};
ghost use Rattle.xa_func.specs.Signature.{kind_of};
ghost use Rattle.xa_bag.specs.HigherOrder.{choices, is_true, holds, outcome, collected, as_bag};
ghost use Rattle.xa_bag.specs.HigherOrder.{any_of, all_of, all_of_any, all_of_all, bag_of_results};
ghost use Rattle.xa_bag.specs.Quantifier.{settling};
ghost use Rattle.xa_bag.specs.ValueOrBag.{kind_of_each};

use crate::bag::Bag;
use crate::choosing::{choose_firsts, choose_next, push_copy};
use crate::fault::BagFault;
use crate::inner::Inner;
use crate::quantifier::Quantifier;
use crate::value_or_bag::ValueOrBag;
use std::alloc::Global;
use xa_value::{OrMemory, Value, map_error};

/// Whether the value is True.
pub(crate) fn is_true(value: &Value) -> bool
    ensures { result ≡ is_true value.now }
{
    matches!(value, Value::Boolean(true))
}

/// What the function gives for the arguments, its fault kept as an inner one.
fn outcome<F: Inner>(
    alloc: Global,
    function: &F,
    arguments: &[Value],
) -> Result<Value, OrMemory<BagFault<F::Fault>>>
    requires { F.can function.now (map kind_of arguments.now) }
    ensures value { Gives result (outcome (F.gives function.now arguments.now)) }
    ensures of_type { IfOk result (λ v. type_of v ≡ F.result_type function.now) }
{
    let given = function.call(alloc, arguments);
    map_error(given, |fault| BagFault::Inner(fault))
}

/// Whether the function gives True for the arguments.
fn holds<F: Inner>(
    alloc: Global,
    function: &F,
    arguments: &[Value],
) -> Result<bool, OrMemory<BagFault<F::Fault>>>
    requires { F.can function.now (map kind_of arguments.now) }
    ensures { Gives result (holds (F.gives function.now) arguments.now) }
{
    let value = outcome(alloc, function, arguments)?;
    Ok(is_true(&value))
}

/// Whether the function gives True for any or all of the choices of a value of each argument. No choice is
/// tried after one that settles it or gives a fault.
fn holds_of_choices<F: Inner>(
    alloc: Global,
    function: &F,
    quantifier: Quantifier,
    arguments: &[ValueOrBag],
) -> Result<bool, OrMemory<BagFault<F::Fault>>>
    requires { F.can function.now (map kind_of_each arguments.now) }
    ensures { let found = map (holds (F.gives function.now)) (choices arguments.now) in
        Gives result (if settling quantifier then or_of found else and_of found) }
{
    let sought = quantifier.settling();
    let mut chosen = Vec::new(alloc);
    let mut places = Vec::new(alloc);
    let mut is_left = choose_firsts(arguments, &mut chosen, &mut places)?;
    while is_left {
        let answer = holds(alloc, function, chosen.as_slice())?;
        if answer == sought {
            return Ok(sought);
        }
        is_left = choose_next(arguments, &mut chosen, &mut places)?;
    }
    Ok(!sought)
}

/// Puts what the function gives for the arguments at the end of the bag.
fn push_result<F: Inner>(
    alloc: Global,
    function: &F,
    arguments: &[Value],
    mut results: Bag,
) -> Result<Bag, OrMemory<BagFault<F::Fault>>>
    requires can { F.can function.now (map kind_of arguments.now) }
    requires of_type { results.data_type ≡ F.result_type function.now }
    ensures value { Gives result
        (as_bag results.data_type
        (collected (map Ok results.values ++ outcome (F.gives function.now arguments.now) ∷ []))) }
    ensures typed { IfOk result (λ bag. bag.data_type ≡ results.data_type) }
{
    let given = outcome(alloc, function, arguments)?;
    results.put(given)?;
    Ok(results)
}

/// Puts what the function gives for each choice of a value of each argument at the end of the bag, up to
/// the first fault.
fn results_of_choices<F: Inner>(
    alloc: Global,
    function: &F,
    arguments: &[ValueOrBag],
    mut results: Bag,
) -> Result<Bag, OrMemory<BagFault<F::Fault>>>
    requires can { F.can function.now (map kind_of_each arguments.now) }
    requires of_type { results.data_type ≡ F.result_type function.now }
    ensures value { Gives result
        (as_bag results.data_type
        (collected (map Ok results.values
        ++ map (λ vs. outcome (F.gives function.now vs)) (choices arguments.now)))) }
    ensures typed { IfOk result (λ bag. bag.data_type ≡ results.data_type) }
{
    let mut chosen = Vec::new(alloc);
    let mut places = Vec::new(alloc);
    let mut is_left = choose_firsts(arguments, &mut chosen, &mut places)?;
    while is_left {
        results = push_result(alloc, function, chosen.as_slice(), results)?;
        is_left = choose_next(arguments, &mut chosen, &mut places)?;
    }
    Ok(results)
}

/// Whether the function gives True for the two arguments.
fn holds_of_both<F: Inner>(
    alloc: Global,
    function: &F,
    value: &Value,
    other: &Value,
) -> Result<bool, OrMemory<BagFault<F::Fault>>>
    requires { F.can function.now (kind_of value.now ∷ kind_of other.now ∷ []) }
    ensures { Gives result (holds (F.gives function.now) (value.now ∷ other.now ∷ [])) }
{
    let mut arguments = Vec::new(alloc);
    push_copy(&mut arguments, value)?;
    push_copy(&mut arguments, other)?;
    holds(alloc, function, arguments.as_slice())
}

/// Whether the function gives True for the value with any or all values of the bag.
fn one_with<F: Inner>(
    alloc: Global,
    function: &F,
    quantifier: Quantifier,
    value: &Value,
    second: &Bag,
) -> Result<bool, OrMemory<BagFault<F::Fault>>>
    requires { F.can function.now (kind_of value.now ∷ kind.Value second.now.data_type ∷ []) }
    ensures { let found = map (λ w. holds (F.gives function.now) (value.now ∷ w ∷ [])) second.now.values in
        Gives result (if settling quantifier then or_of found else and_of found) }
{
    let sought = quantifier.settling();
    for other in second.values() {
        let found = holds_of_both(alloc, function, value, other)?;
        if found == sought {
            return Ok(sought);
        }
    }
    Ok(!sought)
}

/// Whether for each value of the first bag the function gives True with any or all values of the second.
fn each_with<F: Inner>(
    alloc: Global,
    function: &F,
    quantifier: Quantifier,
    first: &Bag,
    second: &Bag,
) -> Result<bool, OrMemory<BagFault<F::Fault>>>
    requires { F.can function.now (kind.Value first.now.data_type ∷ kind.Value second.now.data_type ∷ []) }
    ensures { Gives result (and_of
        (map (λ v. let found = map (λ w. holds (F.gives function.now) (v ∷ w ∷ [])) second.now.values in
        if settling quantifier then or_of found else and_of found) first.now.values)) }
{
    for value in first.values() {
        let answer = one_with(alloc, function, quantifier, value, second)?;
        if !answer {
            return Ok(false);
        }
    }
    Ok(true)
}

/// Any-of and any-of-any: whether the function gives True for some choice of a value of each argument,
/// the last argument fastest. If one argument is a bag, the function is given each of its values in the
/// bag's place.
pub(crate) fn any_of<F: Inner>(
    alloc: Global,
    function: &F,
    arguments: &[ValueOrBag],
) -> Result<bool, OrMemory<BagFault<F::Fault>>>
    requires { F.can function.now (map kind_of_each arguments.now) }
    ensures { Gives result (any_of (F.gives function.now) arguments.now) }
{
    holds_of_choices(alloc, function, Quantifier::Any, arguments)
}

/// All-of: whether the function gives True with each value of the bag in the bag's place, if one
/// argument is a bag.
pub(crate) fn all_of<F: Inner>(
    alloc: Global,
    function: &F,
    arguments: &[ValueOrBag],
) -> Result<bool, OrMemory<BagFault<F::Fault>>>
    requires { F.can function.now (map kind_of_each arguments.now) }
    ensures { Gives result (all_of (F.gives function.now) arguments.now) }
{
    holds_of_choices(alloc, function, Quantifier::All, arguments)
}

/// Map: the bag of what the function gives with each value of the bag in the bag's place, if one
/// argument is a bag.
pub(crate) fn map<F: Inner>(
    alloc: Global,
    function: &F,
    arguments: &[ValueOrBag],
) -> Result<Bag, OrMemory<BagFault<F::Fault>>>
    requires { F.can function.now (map kind_of_each arguments.now) }
    ensures value { Gives result
        (bag_of_results (F.result_type function.now) (F.gives function.now) arguments.now) }
    ensures of_type { IfOk result (λ bag. bag.data_type ≡ F.result_type function.now) }
{
    let results = Bag::new(alloc, function.result_type());
    results_of_choices(alloc, function, arguments, results)
}

/// All-of-any: whether for each value of the first bag the function gives True with some value of the second.
pub(crate) fn all_of_any<F: Inner>(
    alloc: Global,
    function: &F,
    first: &Bag,
    second: &Bag,
) -> Result<bool, OrMemory<BagFault<F::Fault>>>
    requires { F.can function.now (kind.Value first.now.data_type ∷ kind.Value second.now.data_type ∷ []) }
    ensures { Gives result (all_of_any (F.gives function.now) first.now.values second.now.values) }
{
    each_with(alloc, function, Quantifier::Any, first, second)
}

/// All-of-all: whether for each value of the first bag the function gives True with each value of the second.
pub(crate) fn all_of_all<F: Inner>(
    alloc: Global,
    function: &F,
    first: &Bag,
    second: &Bag,
) -> Result<bool, OrMemory<BagFault<F::Fault>>>
    requires { F.can function.now (kind.Value first.now.data_type ∷ kind.Value second.now.data_type ∷ []) }
    ensures { Gives result (all_of_all (F.gives function.now) first.now.values second.now.values) }
{
    each_with(alloc, function, Quantifier::All, first, second)
}
