//! Rules, and what each decides.
ghost use Rattle.std.specs.Prelude.{◌≡◌, true, IfOk};
ghost use Rattle.xa_value.specs.Gives.{Gives};
ghost use Rattle.xa_expr.specs.Evaluation.{value_of};
ghost use Rattle.xa_expr.specs.Target.{target_value};
ghost use Rattle.xa_expr.specs.Variables.{kinds};
ghost use Rattle.xa_policy.specs.Policy.{IsCondition, IsTypedRule};
ghost use Rattle.xa_policy.specs.Rule.{by_condition, condition_value, outcome, rule_value};

use crate::decision::Effect;
use crate::duty::DutyExpressions;
use crate::fulfilment::with_own;
use crate::verdict::Verdict;
use std::alloc::{AllocError, Global};
use xa_bag::ValueOrBag;
use xa_expr::{Context, Evaluator, Fault, Matching, Target, Typed};
use xa_func::Status;
use xa_value::{OrMemory, Value, memory_apart};

/// A rule (XACML 3.0, core, section 5.21). Its expressions are each an `E`: an `Expr` as read, and a `Typed`
/// once they are checked.
#[derive(Debug, Drop)]
pub struct Rule<E> {
    /// What the rule gives if it applies.
    pub effect: Effect,
    /// To what the rule applies.
    pub target: Target,
    /// The condition (core, section 5.26), which must be true beside that.
    pub condition: Option<E>,
    /// Its obligations and advice.
    pub duties: DutyExpressions<E>,
}

/// Whether the condition is true; without one it is.
fn condition_value<'a, C: Context>(
    alloc: Global,
    evaluator: &mut Evaluator<'a, C>,
    condition: &Option<Typed>,
) -> Result<bool, OrMemory<Fault>>
    requires { IsCondition (kinds evaluator.old.1) condition.now }
    ensures value { Gives result
        (condition_value (value_of (C.values_of evaluator.old.0) evaluator.old.1) condition.now) }
    ensures kept { evaluator.new ≡ evaluator.old }
{
    let Some(condition) = condition else {
        return Ok(true);
    };
    match evaluator.value(alloc, condition)? {
        ValueOrBag::Value(Value::Boolean(answer)) => Ok(answer),
        // A condition is checked to be a boolean: nothing else comes here.
        _ => Ok(false),
    }
}

/// What a rule of the effect decides by its condition, if its target matches.
fn by_condition<'a, C: Context>(
    alloc: Global,
    evaluator: &mut Evaluator<'a, C>,
    effect: Effect,
    condition: &Option<Typed>,
) -> Result<Verdict, AllocError>
    requires { IsCondition (kinds evaluator.old.1) condition.now }
    ensures value { IfOk result (λ e. e ≡ by_condition effect
        (condition_value (value_of (C.values_of evaluator.old.0) evaluator.old.1) condition.now)) }
    ensures kept { evaluator.new ≡ evaluator.old }
{
    match memory_apart(condition_value(alloc, evaluator, condition))? {
        Ok(true) => {
            let decision = effect.decision();
            Ok(Verdict::without_duties(alloc, decision, Status::Ok))
        }
        Ok(false) => Ok(Verdict::not_applicable(alloc)),
        Err(fault) => Ok(Verdict::left_open(alloc, effect, fault)),
    }
}

/// What the rule decides (core, section 7.11) under a policy's variables, if its target comes to this.
pub(crate) fn evaluate_rule<'a, C: Context>(
    alloc: Global,
    evaluator: &mut Evaluator<'a, C>,
    rule: &Rule<Typed>,
    target: Matching,
) -> Result<Verdict, AllocError>
    requires typed { IsTypedRule (kinds evaluator.old.1) rule.now }
    requires target { target ≡ target_value (C.values_of evaluator.old.0) rule.now.target }
    ensures value { IfOk result (λ e. e ≡ rule_value (C.values_of evaluator.old.0) evaluator.old.1 rule.now) }
    ensures kept { evaluator.new ≡ evaluator.old }
{
    match target {
        Matching::NoMatch => Ok(Verdict::not_applicable(alloc)),
        Matching::Indeterminate(fault) => Ok(Verdict::left_open(alloc, rule.effect, fault)),
        Matching::Match => {
            let verdict = by_condition(alloc, evaluator, rule.effect, &rule.condition)?;
            with_own(alloc, evaluator, &rule.duties, verdict)
        }
    }
}
