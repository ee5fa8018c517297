//! The values of expressions under a policy's variables (XACML 3.0, core, sections 7.4 and 7.8).
ghost use Rattle.std.specs.Prelude.{◌≡◌, max, min, length, Some, IfOk};
ghost use Rattle.xa_value.specs.Gives.{Gives};
ghost use Rattle.xa_bag.specs.ValueOrBag.{kind_of_argument};
ghost use Rattle.xa_expr.specs.Evaluation.{value_of};
ghost use Rattle.xa_expr.specs.Misfits.{MeetsNoMisfit};
ghost use Rattle.xa_expr.specs.Results.{AreFirst, reach};
ghost use Rattle.xa_expr.specs.Typed.{IsTyped, kind_of_typed, kind_under};
ghost use Rattle.xa_expr.specs.Variables.{AreTyped, kinds};

use crate::context::Context;
use crate::evaluation::evaluate;
use crate::fault::Fault;
use crate::scope::Scope;
use crate::typed::Typed;
use crate::variables::{Definition, Variables};
use crate::working_out::{last_variable, work_out};
use std::alloc::{AllocError, Global};
use std::marker::Model;
use xa_bag::ValueOrBag;
use xa_value::OrMemory;

/// Evaluates expressions in a context under the variables of a policy (core, sections 7.4 and 7.8). A
/// variable is worked out when an expression first names it or a later one, and once at most. Clauses see
/// the context and the definitions.
#[derive(Drop)]
pub struct Evaluator<'a, C: Context> {
    /// Where the values of attributes come from.
    context: &'a C,
    /// The variables that expressions may name.
    variables: &'a Variables,
    /// What the first of them came to, as many as were worked out.
    results: Vec<Result<ValueOrBag, Fault>>,
}

impl<'a, C: Context> Model for Evaluator<'a, C> {
    ghost use Rattle.std.specs.Prelude.{List};
    ghost use Rattle.std.specs.Coded.{codes};
    ghost use Rattle.xa_expr.specs.contracts.typed.Typed as typed;
    ghost use Rattle.xa_expr.specs.declared.variables.Definition.{Definition as Defined};
    ghost use Rattle.xa_expr.specs.Results.{AreFirst};

    ghost Value = { C × List Defined };

    ghost coded = { Prim.hlevel (codes, C.code, typed.the_row.coded) };

    ghost view = { λ e. (e.context.now, e.variables.now) };

    ghost invariant = { λ e. AreFirst (C.values_of e.context.now) e.variables.now e.results.items };
}

impl<'a, C: Context> Evaluator<'a, C> {
    /// An evaluator that has worked out nothing yet. Nothing is allocated.
    pub fn new(alloc: Global, context: &'a C, variables: &'a Variables) -> Evaluator<'a, C>
        ensures { result ≡ (context.now, variables.now) }
    {
        Evaluator {
            context,
            variables,
            results: Vec::new(alloc),
        }
    }

    /// Takes the units of what is made of the values from the work that the message may still ask for.
    pub fn spend(&self, units: u64) -> Result<(), AllocError> {
        self.context.spend(units)
    }

    /// What the expression comes to (core, section 7.4). After want of memory nothing that was worked out is
    /// lost. Clause `fits`: no wrong type is met, in the expression or in the definitions of the variables.
    pub fn value(
        &mut self,
        alloc: Global,
        expression: &Typed,
    ) -> Result<ValueOrBag, OrMemory<Fault>>
        requires { IsTyped (kinds self.old.1) expression.now }
        ensures value { Gives result (value_of (C.values_of self.old.0) self.old.1 expression.now) }
        ensures typed { IfOk result (λ given.
            Some (kind_of_argument given) ≡ kind_under (kinds self.old.1) expression.now) }
        ensures fits { MeetsNoMisfit (C.values_of self.old.0) self.old.1 expression.now }
        ensures kept { self.new ≡ self.old }
    {
        self.context.keeps_types();
        let definitions = self.variables.definitions();
        value_with(
            alloc,
            self.context,
            definitions,
            &mut self.results,
            expression,
        )
    }
}

/// Works out the variables that the expression names and those before them. If all were worked out, the
/// expression isn't looked at.
fn prepare<C: Context>(
    alloc: Global,
    context: &C,
    definitions: &[Definition],
    results: &mut Vec<Result<ValueOrBag, Fault>>,
    expression: &Typed,
) -> Result<(), AllocError>
    requires right { AreFirst (C.values_of context.now) definitions.now results.old.items }
    requires typed { AreTyped definitions.now }
    ensures right { AreFirst (C.values_of context.now) definitions.now results.new.items }
    ensures exact { IfOk result (λ _. length results.new.items
        ≡ max (length results.old.items) (min (reach expression.now) (length definitions.now))) }
{
    if results.len() == definitions.len() {
        return Ok(());
    }
    match last_variable(context, expression)? {
        Some(place) => work_out(alloc, context, definitions, results, place),
        None => Ok(()),
    }
}

/// What the expression comes to. What is worked out for it is put after the results.
fn value_with<C: Context>(
    alloc: Global,
    context: &C,
    definitions: &[Definition],
    results: &mut Vec<Result<ValueOrBag, Fault>>,
    expression: &Typed,
) -> Result<ValueOrBag, OrMemory<Fault>>
    requires right { AreFirst (C.values_of context.now) definitions.now results.old.items }
    requires variables { AreTyped definitions.now }
    requires typed { IsTyped (kinds definitions.now) expression.now }
    ensures value { Gives result (value_of (C.values_of context.now) definitions.now expression.now) }
    ensures typed { IfOk result (λ given. kind_of_argument given ≡ kind_of_typed expression.now) }
    ensures right { AreFirst (C.values_of context.now) definitions.now results.new.items }
{
    prepare(alloc, context, definitions, results, expression)?;
    let scope = Scope {
        context,
        definitions,
        results: results.as_slice(),
    };
    evaluate(alloc, &scope, expression)
}

/// What the expression comes to under the variables (core, sections 7.4 and 7.8).
pub fn value<C: Context>(
    alloc: Global,
    context: &C,
    variables: &Variables,
    expression: &Typed,
) -> Result<ValueOrBag, OrMemory<Fault>>
    requires { IsTyped (kinds variables.now) expression.now }
    ensures value { Gives result (value_of (C.values_of context.now) variables.now expression.now) }
    ensures typed { IfOk result (λ given.
        Some (kind_of_argument given) ≡ kind_under (kinds variables.now) expression.now) }
    ensures fits { MeetsNoMisfit (C.values_of context.now) variables.now expression.now }
{
    Evaluator::new(alloc, context, variables).value(alloc, expression)
}
