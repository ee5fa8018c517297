//! Whether the designators that stand in something ask the clock for the time.
ghost use Rattle.std.specs.Prelude.{◌≡◌, List, map, flat_map};
ghost use Rattle.xa_expr.specs.declared.designator.Designator.{Designator};
ghost use Rattle.xa_expr.specs.Designators.{designators, designators_of_all_of, designators_of_any_of};
ghost use Rattle.xa_expr.specs.Designators.{designators_of_match, designators_of_target};
ghost use Rattle.xa_expr.specs.Timeless.{is_clock_id, is_some_clock_id, is_timeless, names_the_clock};

use crate::designator::Designator;
use crate::match_::Match;
use crate::target::{AllOf, AnyOf, Target};
use crate::typed::Typed;
use crate::variables::Definition;
use xa_value::{Category, DataType};

/// What designators stand in.
pub trait HasDesignators {
    /// The designators.
    ghost designators_in: { Self → List Designator };

    /// Whether none of the designators names the clock.
    fn is_timeless(&self) -> bool
        ensures { result ≡ is_timeless (designators_in self.now) };
}

impl Designator {
    /// Whether the clock gives the attribute (core, appendix B.7), whatever the issuer and the type.
    #[tactic(auto, unfolding(crate::specs::Timeless::names_the_clock))]
    pub fn names_the_clock(&self) -> bool
        ensures { result ≡ names_the_clock self.now }
    {
        self.category.as_str() == Category::Environment.uri()
            && is_some_clock_id(self.attribute_id.as_str())
    }
}

impl HasDesignators for Typed {
    ghost designators_in = { designators };

    fn is_timeless(&self) -> bool {
        expression_is_timeless(self)
    }
}

impl HasDesignators for Definition {
    ghost designators_in = { λ d. designators d.expression };

    fn is_timeless(&self) -> bool {
        self.expression.is_timeless()
    }
}

impl HasDesignators for Match {
    ghost designators_in = { designators_of_match };

    fn is_timeless(&self) -> bool {
        !self.designator().names_the_clock()
    }
}

impl HasDesignators for AllOf {
    ghost designators_in = { designators_of_all_of };

    fn is_timeless(&self) -> bool {
        all_timeless(self.matches.as_slice())
    }
}

impl HasDesignators for AnyOf {
    ghost designators_in = { designators_of_any_of };

    fn is_timeless(&self) -> bool {
        all_timeless(self.all_of.as_slice())
    }
}

impl HasDesignators for Target {
    ghost designators_in = { designators_of_target };

    fn is_timeless(&self) -> bool {
        all_timeless(self.any_of.as_slice())
    }
}

/// Whether no designator in any of the parts names the clock.
#[tactic(auto, using(crate::proofs::TimelessLemmas::timeless_both))]
pub fn all_timeless<T: HasDesignators>(parts: &[T]) -> bool
    ensures { result ≡ is_timeless (flat_map T.designators_in parts.now) }
{
    for part in parts {
        if !part.is_timeless() {
            return false;
        }
    }
    true
}

/// Whether the id is that of the environment's attribute that the clock gives as a value of the type
/// (core, appendix B.7).
#[tactic(auto, unfolding(crate::specs::Timeless::is_clock_id))]
pub fn is_clock_id(data_type: DataType, id: &str) -> bool
    ensures { result ≡ is_clock_id data_type id.now }
{
    match data_type {
        DataType::Time => id == "urn:oasis:names:tc:xacml:1.0:environment:current-time",
        DataType::Date => id == "urn:oasis:names:tc:xacml:1.0:environment:current-date",
        DataType::DateTime => id == "urn:oasis:names:tc:xacml:1.0:environment:current-dateTime",
        _ => false,
    }
}

/// Whether the clock gives the environment's attribute of that id.
#[tactic(auto, unfolding(crate::specs::Timeless::is_some_clock_id))]
fn is_some_clock_id(id: &str) -> bool
    ensures { result ≡ is_some_clock_id id.now }
{
    is_clock_id(DataType::Time, id)
        || is_clock_id(DataType::Date, id)
        || is_clock_id(DataType::DateTime, id)
}

/// Whether no designator in the expression names the clock. Those of its variables stand in their
/// definitions.
#[cycle(timeless)]
fn expression_is_timeless(expression: &Typed) -> bool
    ensures { result ≡ is_timeless (designators expression.now) }
{
    match expression {
        Typed::Literal(_) | Typed::Variable(_, _) => true,
        Typed::Attribute(designator) => !designator.names_the_clock(),
        Typed::Apply(_, arguments) => expressions_are_timeless(arguments.as_slice()),
        Typed::HigherOrder(_, _, arguments) => expressions_are_timeless(arguments.as_slice()),
    }
}

/// Whether no designator in the expressions names the clock.
#[cycle(timeless)]
fn expressions_are_timeless(expressions: &[Typed]) -> bool
    ensures { result ≡ is_timeless (flat_map (λ ds. ds) (map designators expressions.now)) }
{
    for expression in expressions {
        if !expression_is_timeless(expression) {
            return false;
        }
    }
    true
}
