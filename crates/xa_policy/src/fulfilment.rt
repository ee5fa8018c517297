//! The obligations and advice that come with a decision, with the values of their expressions. What is
//! made is counted before it is made: a bag makes an assignment of each of its values, each with the
//! attribute's id, category and issuer.
ghost use Rattle.std.specs.Prelude.{◌≡◌, ◌++◌, map, IfOk, OnOk};
ghost use Rattle.std.specs.Result.{result_map_both};
ghost use Rattle.xa_value.specs.Gives.{Gives};
ghost use Rattle.xa_bag.specs.ValueOrBag.{values_of};
ghost use Rattle.xa_expr.specs.Evaluation.{value_of};
ghost use Rattle.xa_expr.specs.Variables.{kinds};
ghost use Rattle.xa_policy.specs.Duties.{all_assigned, duties_with, duty, own_duties, with_value};
ghost use Rattle.xa_policy.specs.Policy.{AreAssignments, AreDuties, AreTypedDuties};
ghost use Rattle.xa_policy.specs.Rule.{with_found, with_own};

use crate::decision::Effect;
use crate::duty::{
    AttributeAssignment, AttributeAssignmentExpression, Duties, Duty, DutyExpression,
    DutyExpressions,
};
use crate::verdict::Verdict;
use std::alloc::{AllocError, Global};
use xa_bag::ValueOrBag;
use xa_expr::{Context, Evaluator, Fault, LOOK, STEP, Typed, units_of_given};
use xa_value::{Items, OrMemory, Text, Value, memory_apart};

/// The units of an assignment beside its texts and its value, which are copied.
const ASSIGNMENT: u64 = 2 * STEP;

/// The assignment, with the value.
fn with_value(
    expression: &AttributeAssignmentExpression<Typed>,
    value: Value,
) -> Result<AttributeAssignment, AllocError>
    ensures { IfOk result (λ a. a ≡ with_value expression.now value) }
{
    Ok(AttributeAssignment {
        attribute_id: expression.attribute_id.clone()?,
        category: expression.category.clone()?,
        issuer: expression.issuer.clone()?,
        value,
    })
}

/// The units of a copy of the text, if there is one.
fn units_of_text(text: &Option<Text>) -> u64 {
    match text {
        Some(text) => text.as_bytes().len() as u64,
        None => 0,
    }
}

/// The units of the assignments of what the expression gives: of each itself, its texts and its value.
fn units_of_assignments(
    expression: &AttributeAssignmentExpression<Typed>,
    given: &ValueOrBag,
) -> u64 {
    let texts = (expression.attribute_id.as_bytes().len() as u64)
        .saturating_add(units_of_text(&expression.category))
        .saturating_add(units_of_text(&expression.issuer));
    (given.values().len() as u64)
        .saturating_mul(ASSIGNMENT.saturating_add(texts))
        .saturating_add(units_of_given(given))
}

/// Puts an assignment of each of the values after those so far.
fn put_each(
    expression: &AttributeAssignmentExpression<Typed>,
    values: &[Value],
    assignments: &mut Items<AttributeAssignment>,
) -> Result<(), AllocError>
    ensures { OnOk result (assignments.new ≡ assignments.old ++ map (with_value expression.now) values.now) }
{
    for value in values {
        let value = value.clone()?;
        assignments.push(with_value(expression, value)?)?;
    }
    Ok(())
}

/// Puts the assignments of what the expression gives after those so far.
fn put(
    expression: &AttributeAssignmentExpression<Typed>,
    given: ValueOrBag,
    assignments: &mut Items<AttributeAssignment>,
) -> Result<(), AllocError>
    ensures { OnOk result
        (assignments.new ≡ assignments.old ++ map (with_value expression.now) (values_of given)) }
{
    match given {
        ValueOrBag::Value(value) => assignments.push(with_value(expression, value)?),
        ValueOrBag::Bag(bag) => put_each(expression, bag.values(), assignments),
    }
}

/// All assignments of the expressions.
fn all_assignments<'a, C: Context>(
    alloc: Global,
    evaluator: &mut Evaluator<'a, C>,
    expressions: &[AttributeAssignmentExpression<Typed>],
) -> Result<Items<AttributeAssignment>, OrMemory<Fault>>
    requires { AreAssignments (kinds evaluator.old.1) expressions.now }
    ensures value { Gives result
        (all_assigned (value_of (C.values_of evaluator.old.0) evaluator.old.1) expressions.now) }
    ensures kept { evaluator.new ≡ evaluator.old }
{
    let mut assignments = Items::new(alloc);
    for expression in expressions {
        let given = evaluator.value(alloc, &expression.expression)?;
        evaluator.spend(units_of_assignments(expression, &given))?;
        put(expression, given, &mut assignments)?;
    }
    Ok(assignments)
}

/// The obligation, or the piece of advice.
fn duty<'a, C: Context>(
    alloc: Global,
    evaluator: &mut Evaluator<'a, C>,
    expression: &DutyExpression<Typed>,
) -> Result<Duty, OrMemory<Fault>>
    requires { AreAssignments (kinds evaluator.old.1) expression.now.assignments }
    ensures value { Gives result
        (duty (value_of (C.values_of evaluator.old.0) evaluator.old.1) expression.now) }
    ensures kept { evaluator.new ≡ evaluator.old }
{
    evaluator.spend(STEP.saturating_add(expression.id.as_bytes().len() as u64))?;
    let assignments = all_assignments(alloc, evaluator, expression.assignments.as_slice())?;
    Ok(Duty {
        id: expression.id.clone()?,
        assignments,
    })
}

/// The obligations, or the advice, that belong to the effect. No expression of another is evaluated; a
/// look at each is counted.
fn duties_with<'a, C: Context>(
    alloc: Global,
    evaluator: &mut Evaluator<'a, C>,
    effect: Effect,
    expressions: &[DutyExpression<Typed>],
) -> Result<Vec<Duty>, OrMemory<Fault>>
    requires { AreDuties (kinds evaluator.old.1) expressions.now }
    ensures value { Gives (result_map_both (λ duties. duties.items) (λ e. e) result)
        (duties_with (value_of (C.values_of evaluator.old.0) evaluator.old.1) effect expressions.now) }
    ensures kept { evaluator.new ≡ evaluator.old }
{
    evaluator.spend(LOOK.saturating_mul(expressions.len() as u64))?;
    let mut duties = Vec::new(alloc);
    for expression in expressions {
        if expression.effect.is(effect) {
            duties.push(duty(alloc, evaluator, expression)?)?;
        }
    }
    Ok(duties)
}

/// The obligations, and then the advice, that belong to the effect.
fn own_duties<'a, C: Context>(
    alloc: Global,
    evaluator: &mut Evaluator<'a, C>,
    effect: Effect,
    own: &DutyExpressions<Typed>,
) -> Result<Duties, OrMemory<Fault>>
    requires { AreTypedDuties (kinds evaluator.old.1) own.now }
    ensures value { Gives result
        (own_duties (value_of (C.values_of evaluator.old.0) evaluator.old.1) effect own.now) }
    ensures kept { evaluator.new ≡ evaluator.old }
{
    let obligations = duties_with(alloc, evaluator, effect, own.obligations.as_slice())?;
    let advice = duties_with(alloc, evaluator, effect, own.advice.as_slice())?;
    Ok(Duties::of(obligations, advice))
}

/// What is decided, with the own obligations and advice of the effect after those that it has; a fault
/// in them leaves the effect open.
fn with_own_of<'a, C: Context>(
    alloc: Global,
    evaluator: &mut Evaluator<'a, C>,
    own: &DutyExpressions<Typed>,
    mut verdict: Verdict,
    effect: Effect,
) -> Result<Verdict, AllocError>
    requires { AreTypedDuties (kinds evaluator.old.1) own.now }
    ensures value { IfOk result (λ e. e ≡ with_found effect verdict
        (own_duties (value_of (C.values_of evaluator.old.0) evaluator.old.1) effect own.now)) }
    ensures kept { evaluator.new ≡ evaluator.old }
{
    evaluator.spend(verdict.duties.units_of_moving())?;
    match memory_apart(own_duties(alloc, evaluator, effect, own))? {
        Ok(duties) => {
            verdict.duties.append(duties)?;
            Ok(verdict)
        }
        Err(fault) => Ok(Verdict::left_open(alloc, effect, fault)),
    }
}

/// What is decided, with the own obligations and advice that belong to it.
pub(crate) fn with_own<'a, C: Context>(
    alloc: Global,
    evaluator: &mut Evaluator<'a, C>,
    own: &DutyExpressions<Typed>,
    verdict: Verdict,
) -> Result<Verdict, AllocError>
    requires { AreTypedDuties (kinds evaluator.old.1) own.now }
    ensures value { IfOk result (λ e.
        e ≡ with_own (value_of (C.values_of evaluator.old.0) evaluator.old.1) own.now verdict) }
    ensures kept { evaluator.new ≡ evaluator.old }
{
    match verdict.decision.effect() {
        None => Ok(verdict),
        Some(effect) => with_own_of(alloc, evaluator, own, verdict, effect),
    }
}
