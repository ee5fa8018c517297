//! The work of one message: how much it may ask for, and how the large bags of its request are searched.
ghost use Rattle.std.specs.Prelude.{◌≡◌, ℕ, List, Option, map, IfOk, IfSome, Ok};
ghost use Rattle.xa_decide.specs.Limits.{IfOver, MayRefuse};

use crate::budget::Budget;
use crate::limits::{Limits, OverLimit};
use std::alloc::{AllocError, Global};
use xa_bag::{Bag, Members};
use xa_expr::{LOOK, units_of, units_of_bag};
use xa_profile::{Attribute, CategoryObject};
use xa_value::{OrMemory, Value};

/// From how many values on a bag is large: a smaller one is looked at value by value, which takes some
/// two microseconds.
const LARGE: usize = 256;

/// How often all large bags of a request may be gone through, value by value, before their values are
/// put in order, which takes about as long.
const SCANS: u64 = 16;

/// How many comparisons a search among values in order takes at most, and each value when they are put in
/// order: the logarithm of their number. A body of at most 524,288 bytes (`xa_http`) has fewer than 2^18
/// values.
const COMPARISONS_IN_ORDER: u64 = 18;

/// How the large bags of a request are searched.
#[derive(Drop)]
enum Search {
    /// Value by value: so many values of large bags may be looked at one after another. If more are asked
    /// for, the decision ends, and the request is decided again with the values in order.
    Scanning(Budget),
    /// By the order of their values.
    Ordered,
}

/// The work of one message.
#[derive(Drop)]
pub(crate) struct Work {
    /// What the message may cost.
    limits: Limits,
    /// The units that the message may still ask for.
    budget: Budget,
    /// How its large bags are searched.
    search: Search,
}

impl Work {
    /// The work of a message, by these limits, whose request has these objects: at first their large bags
    /// are searched value by value.
    pub(crate) fn new(limits: Limits, objects: &[CategoryObject]) -> Work
        ensures { result.limits ≡ limits }
    {
        let values = large_values(objects).saturating_mul(SCANS);
        Work {
            limits,
            budget: Budget::new(limits.work),
            search: Search::Scanning(Budget::new(Some(values))),
        }
    }

    /// Puts the values of large bags in order from now on. What is left of the work stays.
    pub(crate) fn begin_ordered(&mut self)
        ensures { self.new.limits ≡ self.old.limits }
    {
        self.search = Search::Ordered;
    }

    /// Whether a decision ended because large bags were searched too often.
    pub(crate) fn wants_order(&self) -> bool {
        match &self.search {
            Search::Scanning(values) => values.is_exceeded(),
            Search::Ordered => false,
        }
    }

    /// What was given. An evaluation ends without memory and by the limit of work alike; here it is told
    /// which of these it was.
    pub(crate) fn told<T>(
        &self,
        given: Result<T, OrMemory<OverLimit>>,
    ) -> Result<T, OrMemory<OverLimit>>
        ensures value { IfOk result (λ value. given ≡ Ok value) }
        ensures over { (body : Option (List ℕ)) → IfOver given (MayRefuse self.now.limits body)
            → IfOver result (MayRefuse self.now.limits body) }
    {
        match given {
            Err(OrMemory::Memory) if self.limits.work.is_some() && self.budget.is_exceeded() => {
                Err(OrMemory::Error(OverLimit::Work))
            }
            given => given,
        }
    }

    /// What the message may cost.
    pub(crate) fn limits(&self) -> Limits
        ensures { result ≡ self.now.limits }
    {
        self.limits
    }

    /// What the message may ask for.
    pub(crate) fn budget(&self) -> &Budget {
        &self.budget
    }

    /// Takes the units from what the message may ask for.
    pub(crate) fn spend(&self, units: u64) -> Result<(), AllocError> {
        self.budget.spend(units)
    }

    /// Charges one look for each value of the bag, if it is large.
    pub(crate) fn scan(&self, bag: &Bag) -> Result<(), AllocError> {
        match &self.search {
            Search::Scanning(values) if is_large(bag) => values.spend(bag.len() as u64),
            _ => Ok(()),
        }
    }

    /// Takes the units of a search for the value among values in order.
    pub(crate) fn spend_on_search(&self, sought: &Value) -> Result<(), AllocError> {
        let units = units_of(sought).saturating_add(LOOK);
        self.spend(units.saturating_mul(COMPARISONS_IN_ORDER))
    }

    /// The values of the bag, in order if they are many, which is paid for before.
    fn members_of<'a>(&self, bag: &'a Bag) -> Result<Members<'a>, AllocError>
        ensures { IfOk result (λ members. members ≡ bag.now) }
    {
        if !is_large(bag) {
            return Ok(Members::new(bag, 0));
        }
        self.spend(units_of_bag(bag).saturating_mul(COMPARISONS_IN_ORDER))?;
        Ok(Members::new(bag, bag.len()))
    }

    /// The values of each attribute, in order if they are many.
    fn ordered_members<'a>(
        &self,
        alloc: Global,
        attributes: &'a [Attribute],
    ) -> Result<Vec<Members<'a>>, AllocError>
        ensures { IfOk result (λ members. members.items ≡ map (λ a. a.values) attributes.now) }
    {
        let mut members = Vec::new(alloc);
        for attribute in attributes {
            members.push(self.members_of(&attribute.values)?)?;
        }
        Ok(members)
    }

    /// The values of each attribute, to be searched by their order; none, if they are searched one by one.
    pub(crate) fn members<'a>(
        &self,
        alloc: Global,
        attributes: &'a [Attribute],
    ) -> Result<Option<Vec<Members<'a>>>, AllocError>
        ensures { IfOk result (λ made.
            IfSome made (λ members. members.items ≡ map (λ a. a.values) attributes.now)) }
    {
        match &self.search {
            Search::Scanning(_) => Ok(None),
            Search::Ordered => Ok(Some(self.ordered_members(alloc, attributes)?)),
        }
    }
}

/// Whether the bag has many values.
pub(crate) fn is_large(bag: &Bag) -> bool {
    bag.len() >= LARGE
}

/// How many values the bag has, if it is large; else none.
fn values_if_large(bag: &Bag) -> u64 {
    if is_large(bag) { bag.len() as u64 } else { 0 }
}

/// How many values there are in large bags of the attributes.
fn large_values_of(attributes: &[Attribute]) -> u64 {
    attributes.iter().fold(
        0u64,
        |count, attribute| count.saturating_add(values_if_large(&attribute.values)),
    )
}

/// How many values there are in large bags of the objects.
fn large_values(objects: &[CategoryObject]) -> u64 {
    objects.iter().fold(
        0u64,
        |count, object| count.saturating_add(large_values_of(object.attributes.as_slice())),
    )
}
