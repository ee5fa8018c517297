//! Inner functions whose calls are counted: a higher-order function calls one for each choice of its
//! arguments, of which there are as many as the product of its bags' lengths.
ghost use Rattle.xa_func.specs.Application.{applied};
ghost use Rattle.xa_func.specs.Signature.{TakesKinds, signature_of, result_type_of};

use crate::context::Context;
use crate::rates::units_of_calls;
use crate::work::{CALL, units_of_values};
use std::alloc::Global;
use std::marker::Model;
use xa_bag::{BagFault, Inner, ValueOrBag};
use xa_func::{FuncFault, FuncId, HasKind, HigherOrder};
use xa_value::{DataType, OrMemory, Value};

/// A function of values. Each call takes its units from the work that the message may ask for.
#[derive(Drop)]
pub(crate) struct Charged<'a, C: Context> {
    /// The function that is called.
    pub(crate) function: FuncId,
    /// The context, from whose work the calls are taken.
    pub(crate) context: &'a C,
}

impl<'a, C: Context> Model for Charged<'a, C> {
    ghost use Rattle.xa_func.specs.declared.func_id.FuncId.{FuncId as Function};

    ghost Value = { Function };

    ghost view = { λ c. c.function };
}

impl<'a, C: Context> Inner for Charged<'a, C> {
    type Fault = FuncFault;

    ghost can = { TakesKinds };

    ghost result_type = { λ function. result_type_of (signature_of function) };

    ghost gives = { applied };

    fn takes_each<T: HasKind>(&self, arguments: &[T]) -> bool {
        self.function.takes_each(arguments)
    }

    fn result_type(&self) -> DataType {
        self.function.signature().result_type()
    }

    fn at_once(
        &self,
        higher_order: HigherOrder,
        arguments: &[ValueOrBag],
    ) -> Option<Result<bool, BagFault<FuncFault>>> {
        self.function.at_once(higher_order, arguments)
    }

    fn call(&self, alloc: Global, arguments: &[Value]) -> Result<Value, OrMemory<FuncFault>> {
        let units = units_of_calls(self.function, 1, units_of_values(arguments));
        self.context.spend(CALL.saturating_add(units))?;
        self.function.apply(alloc, arguments)
    }
}
