//! Or, and and n-of of some choice of a value for each argument, by how many arguments have a True. So
//! the work grows by the number of the values. A call for each choice would be as many calls as the
//! product of the bags' sizes.
ghost use Rattle.std.specs.Prelude.{◌≡◌, nat_le, nat_lt, if◌then◌else◌, map, Ok, Err, IfSome};
ghost use Rattle.std.specs.List.{list_any};
ghost use Rattle.xa_value.specs.declared.data_type.DataType.TheVariants as data_type;
ghost use Rattle.xa_func.specs.declared.fault.FuncFault.TheVariants.{Position};
ghost use Rattle.xa_func.specs.declared.func_id.FuncId.TheVariants as function_id;
ghost use Rattle.xa_func.specs.declared.func_id.Logic.TheVariants as logic;
ghost use Rattle.xa_func.specs.declared.signature.Kind.TheVariants as kind;
ghost use Rattle.xa_func.specs.declared.signature.Parameters.TheVariants.{OneAndMore};
ghost use Rattle.xa_func.specs.Logic.{or_of};
ghost use Rattle.xa_func.specs.Signature.{Every, Fits, TakesKinds};
ghost use Rattle.xa_bag.specs.HigherOrder.{is_true};
ghost use Rattle.xa_bag.specs.LogicAtOnce.{of_some_choice, most_true};
ghost use Rattle.xa_bag.specs.LogicAtOnce.{EachOfItsType, n_of_counted, n_of_value};
ghost use Rattle.xa_bag.specs.ValueOrBag.{kind_of_each};

use crate::higher_order::is_true;
use crate::value_or_bag::ValueOrBag;
use xa_func::{FuncFault, Logic};
use xa_value::Value;

/// Whether one of the values is True.
fn has_true(values: &[Value]) -> bool
    ensures { result ≡ list_any is_true values.now }
{
    values.iter().any(|value| is_true(value))
}

/// At most how many arguments are True in one choice: those that have a True. None if an argument is an
/// empty bag: then there is no choice. Clause `of_type`: what was looked at is of the arguments' types.
fn most_true(arguments: &[ValueOrBag]) -> Option<usize>
    ensures value { result ≡ most_true arguments.now }
    ensures of_type { IfSome result (λ _. EachOfItsType arguments.now) }
{
    let mut most = 0;
    for argument in arguments {
        let values = argument.values();
        if values.is_empty() {
            return None;
        }
        if has_true(values) {
            most += 1;
        }
    }
    Some(most)
}

/// Whether or is True of some choice.
fn or_of_some_choice(arguments: &[ValueOrBag]) -> bool
    ensures { of_some_choice logic.Or arguments.now ≡ Ok result }
{
    match most_true(arguments) {
        Some(most) => most >= 1,
        None => false,
    }
}

/// Whether and is True of some choice.
fn and_of_some_choice(arguments: &[ValueOrBag]) -> bool
    requires { Every (kind.Value data_type.Boolean) (map kind_of_each arguments.now) }
    ensures { of_some_choice logic.And arguments.now ≡ Ok result }
{
    match most_true(arguments) {
        Some(most) => most >= arguments.len(),
        None => false,
    }
}

/// Whether at least `wanted` booleans are True, if `trues` of them are; Position if there are fewer than
/// `wanted`.
fn are_at_least(trues: usize, booleans: usize, wanted: usize) -> Result<bool, FuncFault>
    ensures { result ≡ (if nat_lt booleans wanted then Err Position else Ok (nat_le wanted trues)) }
{
    if wanted > booleans {
        return Err(FuncFault::Position);
    }
    Ok(wanted <= trues)
}

/// What n-of gives for its number, if `trues` of its booleans are True.
fn n_of_counted(trues: usize, booleans: usize, wanted: i64) -> Result<bool, FuncFault>
    ensures { result ≡ n_of_counted trues booleans wanted }
{
    if wanted < 0 {
        return Err(FuncFault::Position);
    }
    are_at_least(trues, booleans, wanted.unsigned_abs() as usize)
}

/// What n-of gives for its number as a value, if `trues` of its booleans are True.
fn n_of_value(trues: usize, booleans: usize, value: &Value) -> Result<bool, FuncFault>
    ensures { result ≡ n_of_value trues booleans value.now }
{
    match value {
        Value::Integer(wanted) => n_of_counted(trues, booleans, *wanted),
        // the function takes no other value
        _ => Err(FuncFault::Position),
    }
}

/// Whether n-of is True for some of the numbers, up to the first for which it is True or a fault.
fn n_of_some(trues: usize, booleans: usize, numbers: &[Value]) -> Result<bool, FuncFault>
    ensures { result ≡ or_of (map (n_of_value trues booleans) numbers.now) }
{
    for number in numbers {
        if n_of_value(trues, booleans, number)? {
            return Ok(true);
        }
    }
    Ok(false)
}

/// Whether n-of is True of some choice, or the fault of the first choice of which it is one.
fn n_of_some_choice(arguments: &[ValueOrBag]) -> Result<bool, FuncFault>
    requires { Fits (OneAndMore (kind.Value data_type.Integer) (kind.Value data_type.Boolean))
        (map kind_of_each arguments.now) }
    ensures { of_some_choice logic.NOf arguments.now ≡ result }
{
    let [numbers, booleans @ ..] = arguments else {
        unreachable!();
    };
    match most_true(booleans) {
        Some(most) => n_of_some(most, booleans.len(), numbers.values()),
        None => Ok(false),
    }
}

/// Whether the function is True of some choice of a value for each argument, or the fault of the
/// first choice of which it is one.
pub(crate) fn of_some_choice(
    function: Logic,
    arguments: &[ValueOrBag],
) -> Option<Result<bool, FuncFault>>
    requires { TakesKinds (function_id.Logic function) (map kind_of_each arguments.now) }
    ensures { IfSome result (λ answer. of_some_choice function arguments.now ≡ answer) }
{
    match function {
        Logic::Or => Some(Ok(or_of_some_choice(arguments))),
        Logic::And => Some(Ok(and_of_some_choice(arguments))),
        Logic::NOf => Some(n_of_some_choice(arguments)),
        Logic::Not => None,
    }
}
