//! The type check of expressions.
ghost use Rattle.std.specs.Prelude.{◌≡◌, ◌≤◌, ◌&&◌, List, ◌∷◌, map, None, Some, Err, IsTrue, IfOk};
ghost use Rattle.xa_value.specs.Gives.{Gives};
ghost use Rattle.xa_value.specs.declared.or_memory.OrMemory.TheVariants.{Error};
ghost use Rattle.xa_func.specs.Names.{function_named};
ghost use Rattle.xa_func.specs.Signature.{of_each, signature_of};
ghost use Rattle.xa_func.specs.Table.{is_scalar};
ghost use Rattle.xa_expr.specs.declared.check_error.CheckError.TheVariants.{UnknownFunction};
ghost use Rattle.xa_expr.specs.declared.variables.Definition.{Definition as Defined};
ghost use Rattle.xa_expr.specs.Typed.{IsTyped, kind_of_typed, kind_under, counted};
ghost use Rattle.xa_expr.specs.Typed.{accepted, higher_counted, bag_count, are_two_bags};
ghost use Rattle.xa_expr.specs.Typed.{has_bags, gives_boolean, higher_accepted, all_there};
ghost use Rattle.xa_expr.specs.Typing.{at_depth, judged, arguments as arguments_of, apply};
ghost use Rattle.xa_expr.specs.Typing.{first_order, applied, higher_order, higher_applied};
ghost use Rattle.xa_expr.specs.Typing.{inner_named, known_inner, AppliesNone, checked};
ghost use Rattle.xa_expr.specs.Variables.{kinds};

use crate::check_error::CheckError;
use crate::expr::Expr;
use crate::typed::Typed;
use crate::variables::Variables;
use std::alloc::Global;
use xa_func::{FuncId, HasKind, HigherOrder, Kind, Signature};
use xa_value::{DataType, Items, OrMemory, Text};

/// How many expressions may stand inside one another: native stack is taken for each when it is checked and
/// when it is evaluated.
const MAX_DEPTH: usize = 24;

/// The function of values that has the name.
fn scalar_function(name: &Text) -> Result<FuncId, CheckError>
    ensures scalar { IfOk result (λ f. IsTrue (is_scalar f)) }
    ensures value { result ≡ known_inner (function_named name.now) }
{
    match FuncId::from_uri(name.as_str()) {
        Some(function) if function.is_scalar() => Ok(function),
        _ => Err(CheckError::UnknownFunction),
    }
}

/// The function of values that the expression names, if it is a Function. It stands at the depth.
fn inner_function(expression: &Expr, depth: usize) -> Result<FuncId, CheckError>
    ensures scalar { IfOk result (λ f. IsTrue (is_scalar f)) }
    ensures value { (vs : List Defined)
        → result ≡ at_depth depth (inner_named (judged vs expression.now).function) }
{
    if depth > MAX_DEPTH {
        return Err(CheckError::TooDeep);
    }
    match expression {
        Expr::Function(name) => scalar_function(name),
        _ => Err(CheckError::WrongType),
    }
}

/// Whether the function takes this many arguments, none of which is a function.
fn takes_count(function: FuncId, count: usize) -> bool
    ensures { result ≡ counted (signature_of function) count }
{
    match function.signature() {
        Signature::FirstOrder(parameters, _) => parameters.takes(count),
        Signature::HigherOrder(_) => false,
    }
}

/// Whether the function takes the arguments. For the proof: the clause is by `accepted`, as the definitions
/// are.
fn accepts(function: FuncId, arguments: &[Typed]) -> bool
    ensures { result ≡ accepted (signature_of function) (map kind_of_typed arguments.now) }
{
    function.signature().accepts(arguments)
}

/// The function on the arguments, if they are of its number and kinds.
fn apply_function(function: FuncId, arguments: Items<Typed>) -> Result<Typed, CheckError>
    ensures { result ≡ applied function arguments }
{
    if !takes_count(function, arguments.len()) {
        return Err(CheckError::WrongCount);
    }
    if !accepts(function, arguments.as_slice()) {
        return Err(CheckError::WrongType);
    }
    Ok(Typed::Apply(function, arguments))
}

/// Whether the function is one of values, and takes a value of each argument. For the proof: the clause is
/// by `accepted`, as the definitions are.
fn takes_each(function: FuncId, arguments: &[Typed]) -> bool
    ensures { result ≡ is_scalar function
        && accepted (signature_of function) (map of_each (map kind_of_typed arguments.now)) }
{
    function.takes_each(arguments)
}

/// Whether the inner function gives what the higher-order function needs.
fn gives_boolean(function: HigherOrder, inner: FuncId) -> bool
    ensures { result ≡ gives_boolean function inner }
{
    match function {
        HigherOrder::Map => true,
        _ => inner.signature().result_type() == DataType::Boolean,
    }
}

/// How many of the arguments are bags.
fn bag_count(arguments: &[Typed]) -> usize
    ensures { result ≡ bag_count (map kind_of_typed arguments.now) }
{
    let mut count = 0;
    for argument in arguments {
        if matches!(argument.kind(), Kind::Bag(_)) {
            count += 1;
        }
    }
    count
}

/// Whether the arguments are two bags.
fn are_two_bags(arguments: &[Typed]) -> bool
    ensures { result ≡ are_two_bags (map kind_of_typed arguments.now) }
{
    let [first, second] = arguments else {
        return false;
    };
    matches!((first.kind(), second.kind()), (Kind::Bag(_), Kind::Bag(_)))
}

/// Whether as many of the arguments are bags as the higher-order function takes: one, any number, or both.
fn has_bags(function: HigherOrder, arguments: &[Typed]) -> bool
    ensures { result ≡ has_bags function (map kind_of_typed arguments.now) }
{
    match function {
        HigherOrder::AnyOf | HigherOrder::AllOf | HigherOrder::Map => bag_count(arguments) == 1,
        HigherOrder::AnyOfAny => true,
        HigherOrder::AllOfAny | HigherOrder::AllOfAll => are_two_bags(arguments),
    }
}

/// Whether the higher-order function takes this many arguments after the inner one.
fn higher_order_takes_count(function: HigherOrder, inner: FuncId, count: usize) -> bool
    ensures { result ≡ higher_counted function inner count }
{
    match function {
        HigherOrder::AllOfAny | HigherOrder::AllOfAll => count == 2,
        _ => takes_count(inner, count),
    }
}

/// Whether the inner function is one of values, and the arguments after it are what the higher-order
/// function takes.
fn higher_order_accepts(function: HigherOrder, inner: FuncId, arguments: &[Typed]) -> bool
    ensures { result ≡ is_scalar inner && higher_accepted function inner (map kind_of_typed arguments.now) }
{
    takes_each(inner, arguments) && has_bags(function, arguments) && gives_boolean(function, inner)
}

/// The higher-order function on its inner function and the arguments, if they are of its number and kinds.
fn apply_to_function(
    function: HigherOrder,
    inner: FuncId,
    arguments: Items<Typed>,
) -> Result<Typed, CheckError>
    ensures { IsTrue (is_scalar inner) → result ≡ higher_applied function inner arguments }
{
    if !higher_order_takes_count(function, inner, arguments.len()) {
        return Err(CheckError::WrongCount);
    }
    if !higher_order_accepts(function, inner, arguments.as_slice()) {
        return Err(CheckError::WrongType);
    }
    Ok(Typed::HigherOrder(function, inner, arguments))
}

/// The checked expression, which stands at the depth.
#[cycle(checking)]
fn check_at(
    alloc: Global,
    expression: &Expr,
    variables: &Variables,
    depth: usize,
) -> Result<Typed, OrMemory<CheckError>>
    ensures value { Gives result ((judged variables.now expression.now).argument depth) }
    ensures typed { IfOk result (IsTyped (kinds variables.now)) }
    ensures unknown { depth ≤ 24 → AppliesNone expression.now → result ≡ Err (Error UnknownFunction) }
{
    if depth > MAX_DEPTH {
        return Err(CheckError::TooDeep.into());
    }
    match expression {
        Expr::Value(value) => Ok(Typed::Literal(value.clone()?)),
        Expr::Designator(designator) => Ok(Typed::Attribute(designator.clone()?)),
        Expr::Apply(name, arguments) => {
            check_apply(alloc, name, arguments.as_slice(), variables, depth + 1)
        }
        Expr::Function(_) => Err(CheckError::WrongType.into()),
        Expr::Variable(name) => Ok(variables.reference(name)?),
    }
}

/// The checked Apply, whose arguments stand at the depth.
#[cycle(checking)]
fn check_apply(
    alloc: Global,
    name: &Text,
    arguments: &[Expr],
    variables: &Variables,
    depth: usize,
) -> Result<Typed, OrMemory<CheckError>>
    ensures value { Gives result
        (apply (function_named name.now) depth (map (judged variables.now) arguments.now)) }
    ensures typed { IfOk result (IsTyped (kinds variables.now)) }
    ensures unknown { function_named name.now ≡ None → result ≡ Err (Error UnknownFunction) }
{
    match FuncId::from_uri(name.as_str()) {
        None => Err(CheckError::UnknownFunction.into()),
        Some(FuncId::HigherOrder(function)) => {
            check_higher_order(alloc, function, arguments, variables, depth)
        }
        Some(function) => check_first_order(alloc, function, arguments, variables, depth),
    }
}

/// The checked Apply of a function of values and bags.
#[cycle(checking)]
fn check_first_order(
    alloc: Global,
    function: FuncId,
    arguments: &[Expr],
    variables: &Variables,
    depth: usize,
) -> Result<Typed, OrMemory<CheckError>>
    ensures value { Gives result (first_order function depth (map (judged variables.now) arguments.now)) }
    ensures typed { IfOk result (IsTyped (kinds variables.now)) }
{
    let arguments = check_each(alloc, arguments, variables, depth)?;
    Ok(apply_function(function, arguments)?)
}

/// The checked Apply of a higher-order function.
#[cycle(checking)]
fn check_higher_order(
    alloc: Global,
    function: HigherOrder,
    arguments: &[Expr],
    variables: &Variables,
    depth: usize,
) -> Result<Typed, OrMemory<CheckError>>
    ensures value { Gives result (higher_order function depth (map (judged variables.now) arguments.now)) }
    ensures typed { IfOk result (IsTyped (kinds variables.now)) }
{
    let [first, others @ ..] = arguments else {
        return Err(CheckError::WrongCount.into());
    };
    check_function_and_others(alloc, function, first, others, variables, depth)
}

/// The checked Apply of a higher-order function on its first argument and the others.
#[cycle(checking)]
fn check_function_and_others(
    alloc: Global,
    function: HigherOrder,
    first: &Expr,
    others: &[Expr],
    variables: &Variables,
    depth: usize,
) -> Result<Typed, OrMemory<CheckError>>
    ensures value { Gives result
        (higher_order function depth (map (judged variables.now) (first.now ∷ others.now))) }
    ensures typed { IfOk result (IsTyped (kinds variables.now)) }
{
    let inner = inner_function(first, depth)?;
    let others = check_each(alloc, others, variables, depth)?;
    Ok(apply_to_function(function, inner, others)?)
}

/// The checked arguments, which stand at the depth.
#[cycle(checking)]
fn check_each(
    alloc: Global,
    arguments: &[Expr],
    variables: &Variables,
    depth: usize,
) -> Result<Items<Typed>, OrMemory<CheckError>>
    ensures value { Gives result (arguments_of depth (map (judged variables.now) arguments.now)) }
    ensures typed { IfOk result (λ ts.
        all_there (map (kind_under (kinds variables.now)) ts) ≡ Some (map kind_of_typed ts)) }
{
    let mut done = Items::new(alloc);
    for argument in arguments {
        done.push(check_at(alloc, argument, variables, depth)?)?;
    }
    Ok(done)
}

/// The expression with its functions and variables found, or its first fault (core, sections 5.24, 5.25,
/// 5.27 to 5.29, 5.31 and appendix A.3). Those of an Apply come in this order: that its function is unknown;
/// those of its arguments, from the first to the last; their number; their kinds. At most 24 expressions may
/// stand inside one another. Clause `typed`: what passes has its kind under those of the variables. Clause
/// `unknown`: that the function of an Apply is unknown is told whatever memory there is.
pub fn check(
    alloc: Global,
    expression: &Expr,
    variables: &Variables,
) -> Result<Typed, OrMemory<CheckError>>
    ensures value { Gives result (checked variables.now expression.now) }
    ensures typed { IfOk result (IsTyped (kinds variables.now)) }
    ensures unknown { AppliesNone expression.now → result ≡ Err (Error UnknownFunction) }
{
    check_at(alloc, expression, variables, 1)
}
