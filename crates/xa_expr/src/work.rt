//! How much work each step is, in units: a unit is a byte of text or of a value that is made, copied or
//! compared. One thread answers every domain, and the tenants write the policies and the requests. So that
//! others aren't kept waiting, work is counted where it is done, and a message that asks for too much is
//! refused. Work is counted and not timed: the same message on the same state is refused on every machine, or
//! on none.
use xa_bag::{Bag, ValueOrBag};
use xa_func::{BagFunction, FuncId, HigherOrder};
use xa_value::{DataType, Value};

/// The units of one step: an expression evaluated, a variable worked out, a match, a call of its function,
/// an obligation.
pub const STEP: u64 = 32;

/// The units of a call of an inner function, beside those of its arguments, which are copied for it.
pub(crate) const CALL: u64 = 2 * STEP;

/// The units of the list that is made of a call's arguments.
pub(crate) const LIST: u64 = STEP / 2;

/// The units of a look, which costs less than a step: at a value that is compared where it is, or at a part
/// of a target or of an expression that is passed on the way to others. A call of a function of booleans
/// takes them beside a step.
pub const LOOK: u64 = STEP / 4;

/// The units of a value that is made, copied or compared, beside the bytes of its text. A literal takes
/// them once more.
pub(crate) const VALUE: u64 = 16;

/// How often the units of the arguments are taken at most: with how many values one that is searched for
/// is compared at most. From this many values and searches on (`ORDERED_FROM` of `xa_bag`) the values are
/// ordered, and one that is searched for is compared with as many as the logarithm of their number.
const MOST_COMPARISONS: u64 = 32;

/// The units of a value of this many bytes of text.
fn units_of_bytes(count: usize) -> u64 {
    VALUE.saturating_add(count as u64)
}

/// The units of a value that is made, copied or compared: 16, and the bytes of its text or its binary.
pub fn units_of(value: &Value) -> u64 {
    match value {
        Value::String(text) | Value::AnyUri(text) => units_of_bytes(text.as_bytes().len()),
        Value::HexBinary(bytes) | Value::Base64Binary(bytes) => {
            units_of_bytes(bytes.as_slice().len())
        }
        _ => VALUE,
    }
}

/// The units of the values, one after another.
pub fn units_of_values(values: &[Value]) -> u64 {
    values
        .iter()
        .fold(0u64, |units, value| units.saturating_add(units_of(value)))
}

/// Whether every value of the type is of one size.
pub fn is_of_one_size(data_type: DataType) -> bool {
    !matches!(
        data_type,
        DataType::String | DataType::AnyUri | DataType::HexBinary | DataType::Base64Binary
    )
}

/// The units of the bag's values. If they are of one size, they aren't looked at.
pub fn units_of_bag(bag: &Bag) -> u64 {
    if is_of_one_size(bag.data_type()) {
        return VALUE.saturating_mul(bag.len() as u64);
    }
    units_of_values(bag.values())
}

/// The units of a bag, and of a look at each of its values where it is.
pub(crate) fn units_of_look(bag: &Bag) -> u64 {
    units_of_bag(bag).saturating_add(LOOK.saturating_mul(bag.len() as u64))
}

/// The units of a value or of a bag.
pub fn units_of_given(given: &ValueOrBag) -> u64 {
    match given {
        ValueOrBag::Value(value) => units_of(value),
        ValueOrBag::Bag(bag) => units_of_bag(bag),
    }
}

/// The units of the arguments together.
fn units_of_arguments(arguments: &[ValueOrBag]) -> u64 {
    arguments.iter().fold(
        0u64,
        |units, argument| units.saturating_add(units_of_given(argument)),
    )
}

/// How often the units of the arguments are taken if each value is searched for among so many: at least
/// once.
fn comparisons_among(count: usize) -> u64 {
    (count as u64).max(1).min(MOST_COMPARISONS)
}

/// How often the units of the arguments are taken if the values of one of two bags are searched for in the
/// other. It goes by the length of the shorter one.
fn comparisons_of_both(arguments: &[ValueOrBag]) -> u64 {
    match arguments {
        [first, second] => comparisons_among(first.values().len().min(second.values().len())),
        _ => 1,
    }
}

/// How often the units of the arguments are taken if each value is searched for among all.
fn comparisons_of_all(arguments: &[ValueOrBag]) -> u64 {
    let count = arguments.iter().fold(
        0usize,
        |count, argument| count.saturating_add(argument.values().len()),
    );
    comparisons_among(count)
}

/// How often the units of the arguments are taken by a bag function.
fn comparisons_in(function: BagFunction, arguments: &[ValueOrBag]) -> u64 {
    match function {
        BagFunction::Intersection
        | BagFunction::AtLeastOneMemberOf
        | BagFunction::Subset
        | BagFunction::SetEquals => comparisons_of_both(arguments),
        BagFunction::Union => comparisons_of_all(arguments),
        BagFunction::OneAndOnly | BagFunction::BagSize | BagFunction::IsIn | BagFunction::Bag => 1,
    }
}

/// The units of what a bag function does with its arguments. The set functions search for the values of
/// one bag in another.
pub(crate) fn units_of_bag_function(function: BagFunction, arguments: &[ValueOrBag]) -> u64 {
    units_of_arguments(arguments).saturating_mul(comparisons_in(function, arguments))
}

/// The units of what a higher-order function does beside the calls of its inner function, which are
/// counted one by one. By equality, any-of-any and all-of-any search; else the units of the arguments are
/// taken once.
pub(crate) fn units_of_higher_order(
    function: HigherOrder,
    inner: FuncId,
    arguments: &[ValueOrBag],
) -> u64 {
    match (function, inner) {
        (HigherOrder::AnyOfAny | HigherOrder::AllOfAny, FuncId::Equal(_)) => {
            units_of_arguments(arguments).saturating_mul(comparisons_of_both(arguments))
        }
        _ => units_of_arguments(arguments),
    }
}
