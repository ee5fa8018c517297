//! The functions that a higher-order function may be given.
ghost use Rattle.std.specs.Prelude.{◌≡◌, ◌↔◌, List, Result, map, IsTrue, IfOk, IfSome};
ghost use Rattle.xa_value.specs.declared.data_type.DataType.{DataType};
ghost use Rattle.xa_value.specs.declared.value.Value.{Value};
ghost use Rattle.xa_value.specs.Gives.{Gives};
ghost use Rattle.xa_value.specs.Order.{type_of};
ghost use Rattle.xa_func.specs.declared.signature.Kind.{Kind};
ghost use Rattle.xa_func.specs.Signature.{kind_of, of_each};
ghost use Rattle.xa_bag.specs.Applying.{as_boolean, higher_order_applied};
ghost use Rattle.xa_bag.specs.ValueOrBag.{kind_of_each};

use crate::fault::BagFault;
use crate::value_or_bag::ValueOrBag;
use std::alloc::Global;
use xa_func::{HasKind, HigherOrder};
use xa_value::{DataType, OrMemory, Value};

/// A function of values, as a higher-order function takes it (XACML 3.0, core, appendix A.3.12): any
/// function from arguments to a value of one type, or a fault.
pub trait Inner {
    /// Why the function gives no value.
    type Fault;

    /// The kinds of arguments that the function takes.
    ghost can: { Self → List Kind → Type 0 };

    /// The type of its values.
    ghost result_type: { Self → DataType };

    /// What it gives.
    ghost gives: { Self → List Value → Result Value Self.Fault };

    /// Whether the function takes one of the values of each argument.
    fn takes_each<T: HasKind>(&self, arguments: &[T]) -> bool
        ensures { IsTrue result ↔ can self.now (map (λ a. of_each (T.kind_of a)) arguments.now) };

    /// The type of the function's values.
    fn result_type(&self) -> DataType
        ensures { result ≡ result_type self.now };

    /// What the higher-order function gives for this one, if that is found without a call for
    /// each choice of arguments.
    fn at_once(
        &self,
        higher_order: HigherOrder,
        arguments: &[ValueOrBag],
    ) -> Option<Result<bool, BagFault<Self::Fault>>>
        requires { can self.now (map kind_of_each arguments.now) }
        ensures { IfSome result (λ answer.
            higher_order_applied higher_order (result_type self.now) (gives self.now) arguments.now
            ≡ as_boolean answer) };

    /// What the function gives for the arguments.
    fn call(&self, alloc: Global, arguments: &[Value]) -> Result<Value, OrMemory<Self::Fault>>
        requires { can self.now (map kind_of arguments.now) }
        ensures value { Gives result (gives self.now arguments.now) }
        ensures of_type { IfOk result (λ v. type_of v ≡ result_type self.now) };
}
