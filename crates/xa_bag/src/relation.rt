//! All pairs of the values of two bags, each compared by equality or by order. In place of a look at
//! each pair, each value of the first bag is searched for, or compared with the least or the greatest
//! value of the second.
ghost use Rattle.std.specs.Prelude.{◌≡◌, [], ◌∷◌, Ok, IfSome};
ghost use Rattle.std.specs.List.{list_any, list_all};
ghost use Rattle.xa_value.specs.declared.data_type.DataType.TheVariants as data_type;
ghost use Rattle.xa_value.specs.Order.{same};
ghost use Rattle.xa_func.specs.Comparison.{compared};
ghost use Rattle.xa_bag.specs.declared.value_or_bag.ValueOrBag.TheVariants as given;
ghost use Rattle.xa_bag.specs.Applying.{boolean, higher_order_applied};
ghost use Rattle.xa_bag.specs.Relation.{related, asked, some_to_some, each_to_some};
ghost use Rattle.xa_bag.specs.Relation.{each_to_each, to_easiest, to_hardest, further, furthest};

use crate::bag::Bag;
use crate::sets::{at_least_one_member_of, subset};
use xa_func::{Comparison, HigherOrder, is_as_asked};
use xa_value::Value;

/// How two values are compared.
#[derive(Clone, Copy, Debug)]
pub(crate) enum Relation {
    /// Whether they are equal.
    Equal,
    /// Whether the first compares to the second as asked.
    Order(Comparison),
}

impl Relation {
    /// What the higher-order function gives for two bags and the function that compares so, if
    /// it takes two bags. The work grows by the sum of the bags' sizes, of equality by that and its
    /// logarithm if there is memory for keys.
    pub(crate) fn of_bags(
        self,
        higher_order: HigherOrder,
        first: &Bag,
        second: &Bag,
    ) -> Option<bool>
        ensures { IfSome result (λ answer. higher_order_applied higher_order data_type.Boolean (asked self)
            (given.Bag first.now ∷ given.Bag second.now ∷ [])
            ≡ Ok (boolean answer)) }
    {
        match higher_order {
            HigherOrder::AnyOfAny => Some(self.some_to_some(first, second)),
            HigherOrder::AllOfAny => Some(self.each_to_some(first, second)),
            HigherOrder::AllOfAll => Some(self.each_to_each(first, second)),
            HigherOrder::AnyOf | HigherOrder::AllOf | HigherOrder::Map => None,
        }
    }

    /// Whether some value of the first bag relates to some value of the second.
    fn some_to_some(self, first: &Bag, second: &Bag) -> bool
        ensures { result ≡ some_to_some (related self) first.now.values second.now.values }
    {
        match self {
            Relation::Equal => at_least_one_member_of(first, second),
            Relation::Order(comparison) => some_to_easiest(comparison, first, second),
        }
    }

    /// Whether each value of the first bag relates to some value of the second.
    fn each_to_some(self, first: &Bag, second: &Bag) -> bool
        ensures { result ≡ each_to_some (related self) first.now.values second.now.values }
    {
        match self {
            Relation::Equal => subset(first, second),
            Relation::Order(comparison) => each_to_easiest(comparison, first, second),
        }
    }

    /// Whether each value of the first bag relates to each value of the second.
    fn each_to_each(self, first: &Bag, second: &Bag) -> bool
        ensures { result ≡ each_to_each (related self) first.now.values second.now.values }
    {
        match self {
            Relation::Equal => all_equal(first, second),
            Relation::Order(comparison) => each_to_hardest(comparison, first, second),
        }
    }
}

/// The direction in which the easiest of the values lies furthest: others that compare so to any of the
/// values compare so to this one.
fn to_easiest(comparison: Comparison) -> Comparison
    ensures { result ≡ to_easiest comparison }
{
    match comparison {
        Comparison::GreaterThan | Comparison::GreaterThanOrEqual => Comparison::LessThan,
        Comparison::LessThan | Comparison::LessThanOrEqual => Comparison::GreaterThan,
    }
}

/// The direction in which the hardest of the values lies furthest: others that compare so to this one
/// compare so to all of the values.
fn to_hardest(comparison: Comparison) -> Comparison
    ensures { result ≡ to_hardest comparison }
{
    match comparison {
        Comparison::GreaterThan | Comparison::GreaterThanOrEqual => Comparison::GreaterThan,
        Comparison::LessThan | Comparison::LessThanOrEqual => Comparison::LessThan,
    }
}

/// The one of two values that lies further in the direction.
fn further<'a>(direction: Comparison, value: &'a Value, other: &'a Value) -> &'a Value
    ensures { result.now ≡ further direction value.now other.now }
{
    if is_as_asked(direction, other, value) {
        other
    } else {
        value
    }
}

/// The one of the value and the others that lies furthest in the direction.
fn furthest<'a>(direction: Comparison, value: &'a Value, others: &'a [Value]) -> &'a Value
    ensures { result.now ≡ furthest direction value.now others.now }
{
    let mut found = value;
    for other in others {
        found = further(direction, found, other);
    }
    found
}

/// Whether some of the values compares so to the other.
fn some_as_asked(comparison: Comparison, values: &[Value], other: &Value) -> bool
    ensures { result ≡ list_any (λ v. compared comparison v other.now) values.now }
{
    values
        .iter()
        .any(|value| is_as_asked(comparison, value, other))
}

/// Whether all of the values compare so to the other.
fn all_as_asked(comparison: Comparison, values: &[Value], other: &Value) -> bool
    ensures { result ≡ list_all (λ v. compared comparison v other.now) values.now }
{
    values
        .iter()
        .all(|value| is_as_asked(comparison, value, other))
}

/// Whether some value of the first bag compares so to some value of the second.
fn some_to_easiest(comparison: Comparison, first: &Bag, second: &Bag) -> bool
    ensures { result ≡ some_to_some (compared comparison) first.now.values second.now.values }
{
    let others = second.values();
    let Some(other) = others.first() else {
        return false;
    };
    let easiest = furthest(to_easiest(comparison), other, others);
    some_as_asked(comparison, first.values(), easiest)
}

/// Whether each value of the first bag compares so to some value of the second.
fn each_to_easiest(comparison: Comparison, first: &Bag, second: &Bag) -> bool
    ensures { result ≡ each_to_some (compared comparison) first.now.values second.now.values }
{
    let others = second.values();
    let Some(other) = others.first() else {
        return first.is_empty();
    };
    let easiest = furthest(to_easiest(comparison), other, others);
    all_as_asked(comparison, first.values(), easiest)
}

/// Whether each value of the first bag compares so to each value of the second.
fn each_to_hardest(comparison: Comparison, first: &Bag, second: &Bag) -> bool
    ensures { result ≡ each_to_each (compared comparison) first.now.values second.now.values }
{
    let others = second.values();
    let Some(other) = others.first() else {
        return true;
    };
    let hardest = furthest(to_hardest(comparison), other, others);
    all_as_asked(comparison, first.values(), hardest)
}

/// Whether all of the values are equal to the value.
fn are_all(values: &[Value], value: &Value) -> bool
    ensures { result ≡ list_all (λ v. same v value.now) values.now }
{
    values.iter().all(|other| other.same(value))
}

/// Whether each value of the first bag is equal to each value of the second: if there are any,
/// all are equal to one of them.
fn all_equal(first: &Bag, second: &Bag) -> bool
    ensures { result ≡ each_to_each same first.now.values second.now.values }
{
    let others = second.values();
    let Some(other) = others.first() else {
        return true;
    };
    // All three are asked, since the proof is by what all of them answer: no `&&` and no `||`. So the
    // second bag is looked at even if the first has settled it.
    let alike = are_all(first.values(), other) & are_all(others, other);
    first.is_empty() | alike
}
