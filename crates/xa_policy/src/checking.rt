//! The type check of conditions, obligations and advice under a policy's variables.
ghost use Rattle.std.specs.Prelude.{◌≡◌, map, IfOk};
ghost use Rattle.xa_value.specs.declared.data_type.DataType.TheVariants as type;
ghost use Rattle.xa_value.specs.Gives.{Gives};
ghost use Rattle.xa_bag.specs.HigherOrder.{collected};
ghost use Rattle.xa_expr.specs.Typed.{IsTyped};
ghost use Rattle.xa_expr.specs.Variables.{kinds};
ghost use Rattle.xa_policy.specs.Checking.{checked_assignment, checked_condition};
ghost use Rattle.xa_policy.specs.Checking.{checked_duties, checked_duty, checked_rule};
ghost use Rattle.xa_policy.specs.Policy.{AreAssignments, AreDuties, AreTypedDuties, IsCondition, IsTypedRule};

use crate::duty::{AttributeAssignmentExpression, DutyExpression, DutyExpressions};
use crate::rule::Rule;
use std::alloc::Global;
use xa_expr::{CheckError, Expr, Typed, Variables, check};
use xa_func::{HasKind, Kind};
use xa_value::{DataType, Items, OrMemory};

/// The checked condition, which is a boolean.
fn check_condition(
    alloc: Global,
    condition: &Option<Expr>,
    variables: &Variables,
) -> Result<Option<Typed>, OrMemory<CheckError>>
    ensures value { Gives result (checked_condition variables.now condition.now) }
    ensures typed { IfOk result (λ c. IsCondition (kinds variables.now) c) }
{
    let Some(condition) = condition else {
        return Ok(None);
    };
    let condition = check(alloc, condition, variables)?;
    if condition.kind() != Kind::Value(DataType::Boolean) {
        return Err(CheckError::WrongType.into());
    }
    Ok(Some(condition))
}

/// The assignment of an attribute with its checked expression.
fn check_assignment(
    alloc: Global,
    assignment: &AttributeAssignmentExpression<Expr>,
    variables: &Variables,
) -> Result<AttributeAssignmentExpression<Typed>, OrMemory<CheckError>>
    ensures value { Gives result (checked_assignment variables.now assignment.now) }
    ensures typed { IfOk result (λ a. IsTyped (kinds variables.now) a.expression) }
{
    let expression = check(alloc, &assignment.expression, variables)?;
    Ok(AttributeAssignmentExpression {
        attribute_id: assignment.attribute_id.clone()?,
        category: assignment.category.clone()?,
        issuer: assignment.issuer.clone()?,
        expression,
    })
}

/// The assignments with their checked expressions, in order.
fn check_assignments(
    alloc: Global,
    assignments: &[AttributeAssignmentExpression<Expr>],
    variables: &Variables,
) -> Result<Items<AttributeAssignmentExpression<Typed>>, OrMemory<CheckError>>
    ensures value { Gives result (collected (map (checked_assignment variables.now) assignments.now)) }
    ensures typed { IfOk result (λ all. AreAssignments (kinds variables.now) all) }
{
    let mut all = Items::new(alloc);
    for assignment in assignments {
        all.push(check_assignment(alloc, assignment, variables)?)?;
    }
    Ok(all)
}

/// The checked obligation, or piece of advice.
fn check_duty(
    alloc: Global,
    duty: &DutyExpression<Expr>,
    variables: &Variables,
) -> Result<DutyExpression<Typed>, OrMemory<CheckError>>
    ensures value { Gives result (checked_duty variables.now duty.now) }
    ensures typed { IfOk result (λ d. AreAssignments (kinds variables.now) d.assignments) }
{
    let assignments = check_assignments(alloc, duty.assignments.as_slice(), variables)?;
    Ok(DutyExpression {
        id: duty.id.clone()?,
        effect: duty.effect,
        assignments,
    })
}

/// The checked obligations, or pieces of advice.
fn check_each_duty(
    alloc: Global,
    duties: &[DutyExpression<Expr>],
    variables: &Variables,
) -> Result<Items<DutyExpression<Typed>>, OrMemory<CheckError>>
    ensures value { Gives result (collected (map (checked_duty variables.now) duties.now)) }
    ensures typed { IfOk result (λ all. AreDuties (kinds variables.now) all) }
{
    let mut all = Items::new(alloc);
    for duty in duties {
        all.push(check_duty(alloc, duty, variables)?)?;
    }
    Ok(all)
}

/// The checked obligations and advice.
pub(crate) fn check_duties(
    alloc: Global,
    duties: &DutyExpressions<Expr>,
    variables: &Variables,
) -> Result<DutyExpressions<Typed>, OrMemory<CheckError>>
    ensures value { Gives result (checked_duties variables.now duties.now) }
    ensures typed { IfOk result (λ ds. AreTypedDuties (kinds variables.now) ds) }
{
    let obligations = check_each_duty(alloc, duties.obligations.as_slice(), variables)?;
    let advice = check_each_duty(alloc, duties.advice.as_slice(), variables)?;
    Ok(DutyExpressions {
        obligations,
        advice,
    })
}

/// The rule with its checked condition, and then its checked obligations and advice. Its target holds no
/// expressions.
pub(crate) fn check_rule(
    alloc: Global,
    rule: Rule<Expr>,
    variables: &Variables,
) -> Result<Rule<Typed>, OrMemory<CheckError>>
    ensures value { Gives result (checked_rule variables.now rule) }
    ensures typed { IfOk result (λ r. IsTypedRule (kinds variables.now) r) }
{
    let condition = check_condition(alloc, &rule.condition, variables)?;
    let duties = check_duties(alloc, &rule.duties, variables)?;
    Ok(Rule {
        effect: rule.effect,
        target: rule.target,
        condition,
        duties,
    })
}
