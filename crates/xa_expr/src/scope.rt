//! Where an expression is evaluated: its context, the variables that it may name, and what was worked
//! out of them.
ghost use Rattle.std.specs.Prelude.{◌≡◌, slice_get, Some, IfOk};
ghost use Rattle.xa_value.specs.Gives.{Gives};
ghost use Rattle.xa_func.specs.declared.signature.Kind.TheVariants as kind;
ghost use Rattle.xa_bag.specs.ValueOrBag.{kind_of_argument};
ghost use Rattle.xa_expr.specs.Evaluation.{attribute, result_at};
ghost use Rattle.xa_expr.specs.Results.{AreOfKinds};
ghost use Rattle.xa_expr.specs.Variables.{kinds};

use crate::context::Context;
use crate::designator::Designator;
use crate::fault::Fault;
use crate::variables::Definition;
use crate::work::{STEP, units_of_bag, units_of_given};
use std::alloc::{AllocError, Global};
use xa_bag::ValueOrBag;
use xa_value::OrMemory;

/// Where an expression is evaluated: its context, the variables that it may name, and what was worked
/// out of them, from the first on.
#[derive(Drop)]
pub(crate) struct Scope<'a, C> {
    /// Where the values of attributes come from.
    pub(crate) context: &'a C,
    /// The definitions of the variables that the expression may name.
    pub(crate) definitions: &'a [Definition],
    /// What the first of them came to, as many as were worked out.
    pub(crate) results: &'a [Result<ValueOrBag, Fault>],
}

impl<'a, C: Context> Scope<'a, C> {
    /// The result of the variable at the place.
    pub(crate) fn variable(&self, place: usize) -> Result<ValueOrBag, OrMemory<Fault>>
        requires { AreOfKinds (kinds self.now.definitions.now) self.now.results.now }
        ensures value { Gives result (result_at (slice_get self.now.results.now place)) }
        ensures typed { IfOk result (λ given.
            slice_get (kinds self.now.definitions.now) place ≡ Some (kind_of_argument given)) }
    {
        let Some(outcome) = self.results.get(place) else {
            return Err(OrMemory::Error(Fault::ProcessingError));
        };
        outcome_copy(self.context, outcome)
    }
}

/// What the designator gives (core, section 7.3.5): its bag, or a fault if that is empty and must not be.
/// It takes a step and the bag's units. The context itself counts what it looks at before the bag is there.
pub(crate) fn attribute<C: Context>(
    alloc: Global,
    context: &C,
    designator: &Designator,
) -> Result<ValueOrBag, OrMemory<Fault>>
    ensures value { Gives result (attribute (C.values_of context.now) designator.now) }
    ensures typed { IfOk result (λ given. kind_of_argument given ≡ kind.Bag designator.now.data_type) }
{
    let bag = context.bag(alloc, designator)?;
    context.spend(STEP.saturating_add(units_of_bag(&bag)))?;
    if designator.must_be_present && bag.is_empty() {
        return Err(OrMemory::Error(Fault::MissingAttribute));
    }
    Ok(ValueOrBag::Bag(bag))
}

/// A copy of a value or a bag, whose units are taken before it is made.
fn given_copy<C: Context>(context: &C, given: &ValueOrBag) -> Result<ValueOrBag, AllocError>
    ensures { IfOk result (λ copy. copy ≡ given.now) }
{
    context.spend(units_of_given(given))?;
    given.clone()
}

/// A copy of what a variable came to.
fn outcome_copy<C: Context>(
    context: &C,
    outcome: &Result<ValueOrBag, Fault>,
) -> Result<ValueOrBag, OrMemory<Fault>>
    ensures { Gives result outcome.now }
{
    match outcome {
        Ok(given) => Ok(given_copy(context, given)?),
        Err(fault) => Err(OrMemory::Error(*fault)),
    }
}
