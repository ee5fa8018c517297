//! What the function of a match says.
ghost use Rattle.std.specs.Prelude.{◌≡◌, map, IfOk};
ghost use Rattle.xa_func.specs.Application.{applied};
ghost use Rattle.xa_func.specs.Signature.{TakesKinds, kind_of};
ghost use Rattle.xa_expr.specs.Fault.{of_function};
ghost use Rattle.xa_expr.specs.Target.{matching_of};

use crate::fault::Fault;
use crate::matching::Matching;
use std::alloc::{AllocError, Global};
use xa_func::{FuncFault, FuncId};
use xa_value::{Value, memory_apart};

/// What the function's answer says of a match.
fn matching_of(answer: Result<Value, FuncFault>) -> Matching
    ensures { result ≡ matching_of (of_function answer) }
{
    match answer {
        Ok(Value::Boolean(true)) => Matching::Match,
        Ok(_) => Matching::NoMatch,
        Err(fault) => Matching::Indeterminate(Fault::with(fault.status())),
    }
}

/// What the function says of arguments that it takes.
pub(crate) fn answer_for(
    alloc: Global,
    function: FuncId,
    arguments: &[Value],
) -> Result<Matching, AllocError>
    requires { TakesKinds function (map kind_of arguments.now) }
    ensures { IfOk result (λ m. m ≡ matching_of (of_function (applied function arguments.now))) }
{
    let answer = memory_apart(function.apply(alloc, arguments))?;
    Ok(matching_of(answer))
}
