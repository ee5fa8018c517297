//! Or, and, n-of over booleans that are known.
ghost use Rattle.std.specs.Prelude.{◌≡◌, ◌≤◌, map, length};
ghost use Rattle.xa_value.specs.declared.data_type.DataType.TheVariants as data_type;
ghost use Rattle.xa_func.specs.declared.signature.Kind.TheVariants as kind;
ghost use Rattle.xa_func.specs.Signature.{kind_of, Every};
ghost use Rattle.xa_func.specs.Arguments.{booleans};
ghost use Rattle.xa_func.specs.Logic.{or_of, and_of, true_count, n_among, n_of, given};
ghost use Rattle.xa_func.specs.declared.fault.FuncFault.TheVariants.{Position};

use crate::arguments::boolean_of;
use crate::fault::FuncFault;
use xa_value::Value;

/// Whether one of the booleans is true.
pub(crate) fn any_true(arguments: &[Value]) -> bool
    requires { Every (kind.Value data_type.Boolean) (map kind_of arguments.now) }
    ensures { or_of (given (booleans arguments.now)) ≡ Ok result }
{
    for argument in arguments {
        if boolean_of(argument) {
            return true;
        }
    }
    false
}

/// Whether all of the booleans are true.
pub(crate) fn all_true(arguments: &[Value]) -> bool
    requires { Every (kind.Value data_type.Boolean) (map kind_of arguments.now) }
    ensures { and_of (given (booleans arguments.now)) ≡ Ok result }
{
    for argument in arguments {
        if !boolean_of(argument) {
            return false;
        }
    }
    true
}

/// How many of the booleans are true.
fn true_count(arguments: &[Value]) -> usize
    requires { Every (kind.Value data_type.Boolean) (map kind_of arguments.now) }
    ensures value { result ≡ true_count (booleans arguments.now) }
    ensures bound { result ≤ length arguments.now }
{
    let mut count = 0;
    for argument in arguments {
        if boolean_of(argument) {
            count += 1;
        }
    }
    count
}

/// Whether at least this many of the booleans are true; Position if there are fewer booleans.
#[tactic(auto, using(crate::proofs::LogicLemmas::n_among_given, crate::proofs::LogicLemmas::n_among_short, crate::proofs::LogicLemmas::length_given))]
fn n_among(wanted: usize, arguments: &[Value]) -> Result<bool, FuncFault>
    requires { Every (kind.Value data_type.Boolean) (map kind_of arguments.now) }
    ensures { result ≡ n_among Position wanted (given (booleans arguments.now)) }
{
    if wanted > arguments.len() {
        return Err(FuncFault::Position);
    }
    Ok(wanted <= true_count(arguments))
}

/// Whether at least this many of the booleans are true; Position if the number is negative, or there are
/// fewer booleans.
pub(crate) fn n_of(wanted: i64, arguments: &[Value]) -> Result<bool, FuncFault>
    requires { Every (kind.Value data_type.Boolean) (map kind_of arguments.now) }
    ensures { result ≡ n_of Position wanted (given (booleans arguments.now)) }
{
    if wanted < 0 {
        return Err(FuncFault::Position);
    }
    n_among(wanted.unsigned_abs() as usize, arguments)
}
