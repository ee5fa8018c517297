//! The value of a text.
ghost use Rattle.std.specs.Prelude.{◌≡◌, false, IfOk};
ghost use Rattle.xa_value.specs.Reading.{grows};
ghost use Rattle.xa_value.specs.Order.{type_of};
ghost use Rattle.xa_value.specs.Gives.{Gives, answered};
ghost use Rattle.xa_func.specs.Conversion.{value_of};

use crate::fault::FuncFault;
use std::alloc::Global;
use xa_value::{DataType, OrMemory, Value, map_error};

/// The value of the type that the text stands for.
#[tactic(auto, using(crate::proofs::TypingLemmas::read_typed))]
pub(crate) fn value_of(
    alloc: Global,
    data_type: DataType,
    text: &str,
) -> Result<Value, OrMemory<FuncFault>>
    ensures value { Gives result (value_of data_type text.now) }
    ensures exact { grows data_type ≡ false → result ≡ answered (value_of data_type text.now) }
    ensures typed { IfOk result (λ v. type_of v ≡ data_type) }
{
    map_error(Value::read(alloc, data_type, text), |_| FuncFault::BadText)
}
