//! What an expression gives, and so what a function takes as an argument: a value or a bag.
ghost use Rattle.std.specs.Prelude.{◌≡◌};
ghost use Rattle.xa_bag.specs.Applying.{boolean};
ghost use Rattle.xa_bag.specs.Bag.{OfType};
ghost use Rattle.xa_bag.specs.ValueOrBag.{values_of, type_of_each, kind_of_argument};

use crate::bag::Bag;
use std::slice;
use xa_func::{HasKind, Kind};
use xa_value::{DataType, Value};

/// What an expression gives: one value, or a bag.
#[derive(Clone, Debug, Drop)]
pub enum ValueOrBag {
    /// One value.
    Value(Value),
    /// Any number of values of one type.
    Bag(Bag),
}

impl ValueOrBag {
    /// The boolean, as a value.
    pub fn boolean(answer: bool) -> ValueOrBag
        ensures { result ≡ boolean answer }
    {
        ValueOrBag::Value(Value::Boolean(answer))
    }

    /// The one value, or those of the bag.
    pub fn values(&self) -> &[Value]
        ensures values { result.now ≡ values_of self.now }
        ensures of_type { OfType (type_of_each self.now) result.now }
    {
        match self {
            ValueOrBag::Value(value) => slice::from_ref(value),
            ValueOrBag::Bag(bag) => bag.values(),
        }
    }

    /// The type of the value, or of those of the bag.
    pub fn data_type(&self) -> DataType
        ensures { result ≡ type_of_each self.now }
    {
        match self {
            ValueOrBag::Value(value) => value.data_type(),
            ValueOrBag::Bag(bag) => bag.data_type(),
        }
    }
}

impl HasKind for ValueOrBag {
    ghost kind_of = { kind_of_argument };

    fn kind(&self) -> Kind {
        match self {
            ValueOrBag::Value(value) => value.kind(),
            ValueOrBag::Bag(bag) => Kind::Bag(bag.data_type()),
        }
    }
}
