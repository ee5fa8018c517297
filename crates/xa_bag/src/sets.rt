//! The bag and set functions (XACML 3.0, core, appendix A.3.10 and A.3.11), one definition for all
//! data types.
ghost use Rattle.std.specs.Prelude.{◌≡◌, ◌++◌, length, map, pos, IfOk};
ghost use Rattle.xa_value.specs.Gives.{Gives};
ghost use Rattle.xa_value.specs.Order.{type_of};
ghost use Rattle.xa_func.specs.declared.signature.Kind.TheVariants as kind;
ghost use Rattle.xa_func.specs.Signature.{Every};
ghost use Rattle.xa_bag.specs.Bag.{bag_of as contents};
ghost use Rattle.xa_bag.specs.Sets.{one_and_only, is_among, at_least_one, subset, set_equals, all_values};
ghost use Rattle.xa_bag.specs.Sets as sets;
ghost use Rattle.xa_bag.specs.ValueOrBag.{values_of, type_of_each, kind_of_each};

use crate::bag::Bag;
use crate::distinct::Distinct;
use crate::fault::BagFault;
use crate::members::{Members, is_among};
use crate::value_or_bag::ValueOrBag;
use std::alloc::{AllocError, Global};
use xa_value::{DataType, OrMemory, Value};

/// The value of a bag that has exactly one; NotOne of any other (XACML 3.0, core, appendix A.3.10).
pub fn one_and_only<F>(bag: &Bag) -> Result<Value, OrMemory<BagFault<F>>>
    ensures value { Gives result (one_and_only bag.now.values) }
    ensures of_type { IfOk result (λ v. type_of v ≡ bag.now.data_type) }
{
    match bag.values() {
        [value] => Ok(value.clone()?),
        _ => Err(OrMemory::Error(BagFault::NotOne)),
    }
}

/// How many values the bag has (XACML 3.0, core, appendix A.3.10).
pub fn bag_size(bag: &Bag) -> i64
    ensures { result ≡ pos (length bag.now.values) }
{
    bag.len() as i64
}

/// Whether the value is in the bag (XACML 3.0, core, appendix A.3.10).
pub fn is_in(value: &Value, bag: &Bag) -> bool
    ensures { result ≡ is_among bag.now.values value.now }
{
    is_among(bag.values(), value)
}

/// Whether some value of the first bag is in the second (XACML 3.0, core, appendix A.3.11).
pub fn at_least_one_member_of<'a>(first: &'a Bag, second: &'a Bag) -> bool
    ensures { result ≡ at_least_one first.now.values second.now.values }
{
    let members = Members::new(second, first.len());
    for value in first.values() {
        if members.contains(value) {
            return true;
        }
    }
    false
}

/// Whether every value of the first bag is in the second (XACML 3.0, core, appendix A.3.11).
pub fn subset<'a>(first: &'a Bag, second: &'a Bag) -> bool
    ensures { result ≡ subset first.now.values second.now.values }
{
    let members = Members::new(second, first.len());
    for value in first.values() {
        if !members.contains(value) {
            return false;
        }
    }
    true
}

/// Whether each bag has all values of the other (XACML 3.0, core, appendix A.3.11).
pub fn set_equals<'a>(first: &'a Bag, second: &'a Bag) -> bool
    ensures { result ≡ set_equals first.now.values second.now.values }
{
    subset(first, second) && subset(second, first)
}

/// The values of the first bag that are in the second, each once, at its first appearance (XACML 3.0, core,
/// appendix A.3.11).
#[tactic(auto, using(crate::proofs::SetLemmas::joined_more, crate::proofs::SetLemmas::joined_none, crate::proofs::SetLemmas::joined_all))]
pub fn intersection<'a>(alloc: Global, first: &'a Bag, second: &'a Bag) -> Result<Bag, AllocError>
    ensures { IfOk result (λ bag.
        bag ≡ contents first.now.data_type (sets.intersection first.now.values second.now.values)) }
{
    let others = Members::new(second, first.len());
    let mut both = Distinct::new(alloc, first.data_type(), first.len());
    for value in first.values() {
        both = both.with_shared(&others, value)?;
    }
    Ok(both.into_bag())
}

/// Puts the argument's values at the end of the bag.
#[tactic(auto, using(crate::proofs::SetLemmas::put_more, crate::proofs::SetLemmas::put_none))]
fn push_all(bag: &mut Bag, argument: &ValueOrBag) -> Result<(), AllocError>
    requires { type_of_each argument.now ≡ bag.old.data_type }
    ensures { IfOk result (λ _.
        bag.new ≡ contents bag.old.data_type (bag.old.values ++ values_of argument.now)) }
{
    for value in argument.values() {
        bag.put(value.clone()?)?;
    }
    Ok(())
}

/// The bag of the arguments' values, in order.
#[tactic(auto, using(crate::proofs::SetLemmas::put_lists, crate::proofs::SetLemmas::put_none))]
pub(crate) fn bag_of(
    alloc: Global,
    data_type: DataType,
    arguments: &[ValueOrBag],
) -> Result<Bag, AllocError>
    requires { Every (kind.Value data_type) (map kind_of_each arguments.now) }
    ensures { IfOk result (λ bag. bag ≡ contents data_type (all_values arguments.now)) }
{
    let mut all = Bag::new(alloc, data_type);
    for argument in arguments {
        push_all(&mut all, argument)?;
    }
    Ok(all)
}

/// How many values the arguments have.
fn count_values(arguments: &[ValueOrBag]) -> usize {
    arguments.iter().fold(
        0usize,
        |count, argument| count.saturating_add(argument.values().len()),
    )
}

/// The values of all arguments, each once, at its first appearance.
#[tactic(auto, using(crate::proofs::SetLemmas::joined_lists, crate::proofs::SetLemmas::joined_none, crate::proofs::SetLemmas::joined_all))]
pub(crate) fn union(
    alloc: Global,
    data_type: DataType,
    arguments: &[ValueOrBag],
) -> Result<Bag, AllocError>
    requires { Every (kind.Value data_type) (map kind_of_each arguments.now) }
    ensures { IfOk result (λ bag. bag ≡ contents data_type (sets.union arguments.now)) }
{
    let mut all = Distinct::new(alloc, data_type, count_values(arguments));
    for argument in arguments {
        all = all.with_all(argument.values())?;
    }
    Ok(all.into_bag())
}
