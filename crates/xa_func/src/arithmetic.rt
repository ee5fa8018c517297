//! Functions of integers.
ghost use Rattle.std.specs.Prelude.{◌≡◌, ◌<◌, ◌∷◌, [], length, slice_index_or, map, pos, unsigned_abs};
ghost use Rattle.xa_value.specs.declared.data_type.DataType.TheVariants as data_type;
ghost use Rattle.xa_value.specs.Order.{type_of};
ghost use Rattle.xa_func.specs.declared.signature.Kind.TheVariants as kind;
ghost use Rattle.xa_func.specs.Signature.{kind_of, Every};
ghost use Rattle.xa_func.specs.Arguments.{integers};
ghost use Rattle.xa_func.specs.Arithmetic.{within, quotient, remainder, operation, arithmetic};

use crate::arguments::integer_of;
use crate::fault::FuncFault;
use crate::func_id::Arithmetic;
use xa_value::Value;

/// The number, if it fits 64 bits.
#[tactic(auto, unfolding(crate::specs::Arithmetic::within))]
fn within(number: i128) -> Result<i64, FuncFault>
    ensures { result ≡ within number }
{
    i64::try_from(number).map_err(|_| FuncFault::Overflow)
}

/// The quotient, truncated toward zero.
#[tactic(auto, unfolding(crate::specs::Arithmetic::quotient))]
fn quotient(dividend: i64, divisor: i64) -> Result<i64, FuncFault>
    ensures { result ≡ quotient dividend divisor }
{
    if divisor == 0 {
        return Err(FuncFault::ZeroDivisor);
    }
    within(i128::from(dividend) / i128::from(divisor))
}

/// The remainder, with the dividend's sign.
#[tactic(auto, unfolding(crate::specs::Arithmetic::remainder))]
fn remainder(dividend: i64, divisor: i64) -> Result<i64, FuncFault>
    ensures { result ≡ remainder dividend divisor }
{
    if divisor == 0 {
        return Err(FuncFault::ZeroDivisor);
    }
    Ok((i128::from(dividend) % i128::from(divisor)) as i64)
}

/// One step of the function.
fn operation(function: Arithmetic, left: i64, right: i64) -> Result<i64, FuncFault>
    ensures { result ≡ operation function left right }
{
    match function {
        Arithmetic::Add => within(i128::from(left) + i128::from(right)),
        Arithmetic::Multiply => within(i128::from(left) * i128::from(right)),
        Arithmetic::Subtract => within(i128::from(left) - i128::from(right)),
        Arithmetic::Divide => quotient(left, right),
        Arithmetic::Mod => remainder(left, right),
    }
}

/// The total with one argument more.
fn next_total(function: Arithmetic, total: i64, argument: &Value) -> Result<i64, FuncFault>
    requires { type_of argument.now ≡ data_type.Integer }
    ensures { result ≡ operation function total (slice_index_or (integers (argument.now ∷ [])) 0 (pos 0)) }
{
    operation(function, total, integer_of(argument))
}

/// The function of two or more integers, from left to right.
pub(crate) fn arithmetic(function: Arithmetic, arguments: &[Value]) -> Result<i64, FuncFault>
    requires some { 0 < length arguments.now }
    requires typed { Every (kind.Value data_type.Integer) (map kind_of arguments.now) }
    ensures { result ≡ arithmetic function (integers arguments.now) }
{
    let [first, others @ ..] = arguments else {
        unreachable!();
    };
    let mut total = integer_of(first);
    for other in others {
        total = next_total(function, total, other)?;
    }
    Ok(total)
}

/// The absolute value.
pub(crate) fn absolute(number: i64) -> Result<i64, FuncFault>
    ensures { result ≡ within (pos (unsigned_abs number)) }
{
    within(i128::from(number.unsigned_abs()))
}
