//! Variables are worked out in the order of their definitions, each of which names those before it alone
//! (XACML 3.0, core, section 7.8): each is evaluated once, and long chains of variables take no native
//! stack.
ghost use Rattle.std.specs.Prelude.{◌≡◌, ◌<◌, suc, max, min, [], ◌∷◌, ◌++◌, map, length, IfOk};
ghost use Rattle.xa_expr.specs.Results.{AreFirst, greatest, reach, up_to};
ghost use Rattle.xa_expr.specs.Variables.{AreTyped};

use crate::context::Context;
use crate::evaluation::evaluate;
use crate::fault::Fault;
use crate::scope::Scope;
use crate::typed::Typed;
use crate::variables::Definition;
use crate::work::{LOOK, STEP};
use std::alloc::{AllocError, Global};
use xa_bag::ValueOrBag;
use xa_value::memory_apart;

/// The later of two places.
fn later(first: Option<usize>, second: Option<usize>) -> Option<usize>
    ensures { up_to result ≡ max (up_to first) (up_to second) }
{
    match (first, second) {
        (Some(first), Some(second)) => Some(first.max(second)),
        (None, _) => second,
        (_, None) => first,
    }
}

/// The place of the last variable that the expression names. The cost grows with the expression and is
/// counted: more may be looked at here than is evaluated afterwards.
#[cycle(last_variable)]
pub(crate) fn last_variable<C: Context>(
    context: &C,
    expression: &Typed,
) -> Result<Option<usize>, AllocError>
    ensures { IfOk result (λ last. up_to last ≡ reach expression.now) }
{
    context.spend(LOOK)?;
    match expression {
        Typed::Literal(_) | Typed::Attribute(_) => Ok(None),
        Typed::Variable(place, _) => Ok(Some(*place)),
        Typed::Apply(_, arguments) => last_of_all(context, arguments.as_slice()),
        Typed::HigherOrder(_, _, arguments) => last_of_all(context, arguments.as_slice()),
    }
}

/// The place of the last variable that one of the expressions names.
#[cycle(last_variable)]
fn last_of_all<C: Context>(context: &C, expressions: &[Typed]) -> Result<Option<usize>, AllocError>
    ensures { IfOk result (λ last. up_to last ≡ greatest (map reach expressions.now)) }
{
    let mut last = None;
    for expression in expressions {
        last = later(last, last_variable(context, expression)?);
    }
    Ok(last)
}

/// What the first variable without a result comes to. Before anything is done, it takes a step, beside that
/// of its expression.
fn next_outcome<C: Context>(
    alloc: Global,
    context: &C,
    definitions: &[Definition],
    results: &[Result<ValueOrBag, Fault>],
) -> Result<Result<ValueOrBag, Fault>, AllocError>
    requires right { AreFirst (C.values_of context.now) definitions.now results.now }
    requires typed { AreTyped definitions.now }
    requires defined { length results.now < length definitions.now }
    ensures { IfOk result (λ outcome.
        AreFirst (C.values_of context.now) definitions.now (results.now ++ outcome ∷ [])) }
{
    context.spend(STEP)?;
    let place = results.len();
    let scope = Scope {
        context,
        definitions: &definitions[..place],
        results,
    };
    memory_apart(evaluate(alloc, &scope, &definitions[place].expression))
}

/// What an expression gave. The values of a large bag are lent from now on, so that whatever names the
/// variable copies none of them.
fn lent(given: ValueOrBag) -> Result<ValueOrBag, AllocError>
    ensures { IfOk result (λ lent. lent ≡ given) }
{
    match given {
        ValueOrBag::Value(value) => Ok(ValueOrBag::Value(value)),
        ValueOrBag::Bag(bag) => Ok(ValueOrBag::Bag(bag.lent()?)),
    }
}

/// What a variable came to, its values lent.
fn lent_outcome(outcome: Result<ValueOrBag, Fault>) -> Result<Result<ValueOrBag, Fault>, AllocError>
    ensures { IfOk result (λ lent. lent ≡ outcome) }
{
    match outcome {
        Ok(given) => Ok(Ok(lent(given)?)),
        Err(fault) => Ok(Err(fault)),
    }
}

/// Works out the variables up to the one at the place. Without memory, what was worked out stays.
pub(crate) fn work_out<C: Context>(
    alloc: Global,
    context: &C,
    definitions: &[Definition],
    results: &mut Vec<Result<ValueOrBag, Fault>>,
    place: usize,
) -> Result<(), AllocError>
    requires right { AreFirst (C.values_of context.now) definitions.now results.old.items }
    requires typed { AreTyped definitions.now }
    ensures right { AreFirst (C.values_of context.now) definitions.now results.new.items }
    ensures exact { IfOk result (λ _. length results.new.items
        ≡ max (length results.old.items) (min (suc place) (length definitions.now))) }
{
    while results.len() < definitions.len() && results.len() <= place {
        let outcome = next_outcome(alloc, context, definitions, results.as_slice())?;
        let outcome = lent_outcome(outcome)?;
        results.push(outcome)?;
    }
    Ok(())
}
