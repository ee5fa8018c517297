//! Expressions whose functions and variables are found and whose types are checked.
ghost use Rattle.std.specs.Prelude.{◌≡◌};
ghost use Rattle.xa_bag.specs.Applying.{kind_given};
ghost use Rattle.xa_expr.specs.Typed.{result_kind, kind_of_typed};

use crate::designator::Designator;
use xa_func::{FuncId, HasKind, HigherOrder, Kind, Signature};
use xa_value::{DataType, Items, Value};

/// An expression that was checked: its functions are found by their names, and its variables by theirs.
#[derive(Debug, Drop)]
pub enum Typed {
    /// A literal.
    Literal(Value),
    /// The bag of an attribute's values.
    Attribute(Designator),
    /// The variable at this place among the definitions, with the kind of its definition.
    Variable(usize, Kind),
    /// A function of values and bags, with its arguments.
    Apply(FuncId, Items<Typed>),
    /// A higher-order function, with its inner function and the arguments after that.
    HigherOrder(HigherOrder, FuncId, Items<Typed>),
}

impl HasKind for Typed {
    ghost kind_of = { kind_of_typed };

    fn kind(&self) -> Kind {
        match self {
            Typed::Literal(value) => value.kind(),
            Typed::Attribute(designator) => Kind::Bag(designator.data_type),
            Typed::Variable(_, kind) => *kind,
            Typed::Apply(function, _) => result_kind(function.signature()),
            Typed::HigherOrder(function, inner, _) => kind_given(
                *function,
                inner.signature().result_type(),
            ),
        }
    }
}

/// The kind of what a function of the signature gives.
fn result_kind(signature: Signature) -> Kind
    ensures { result ≡ result_kind signature }
{
    match signature {
        Signature::FirstOrder(_, kind) => kind,
        Signature::HigherOrder(_) => Kind::Value(DataType::Boolean),
    }
}

/// The kind of what a higher-order function gives, whose inner function gives values of the type.
fn kind_given(function: HigherOrder, data_type: DataType) -> Kind
    ensures { result ≡ kind_given function data_type }
{
    match function {
        HigherOrder::Map => Kind::Bag(data_type),
        _ => Kind::Value(DataType::Boolean),
    }
}
