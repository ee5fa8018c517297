//! Expressions as policies have them.
use crate::designator::Designator;
use xa_value::{Items, Text, Value};

/// An expression as a policy has it (core, sections 5.24, 5.25, 5.27 to 5.29, 5.31): functions and
/// variables are there by their names.
#[derive(Debug, Drop)]
pub enum Expr {
    /// A literal.
    Value(Value),
    /// The bag of an attribute's values.
    Designator(Designator),
    /// A function, by its URI, of arguments.
    Apply(Text, Items<Expr>),
    /// A function, by its URI, as the argument of a higher-order function.
    Function(Text),
    /// A variable, by its name.
    Variable(Text),
}
