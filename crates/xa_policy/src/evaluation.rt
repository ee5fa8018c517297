//! What a tree of policies and policy sets decides. The functions of children are those of rules once more:
//! one that is generic in what it evaluates would get a function of the cycle of calls through its bound,
//! and the toolchain makes no proof of a cycle that leads through a bound.
ghost use Rattle.std.specs.Prelude.{◌≡◌, [], ◌∷◌, map, IfOk, OnOk};
ghost use Rattle.xa_expr.specs.declared.matching.Matching.TheVariants as matching;
ghost use Rattle.xa_expr.specs.Evaluation.{value_of};
ghost use Rattle.xa_expr.specs.Target.{target_value};
ghost use Rattle.xa_expr.specs.Variables.{kinds};
ghost use Rattle.xa_policy.specs.declared.combining.Alg.TheVariants.{OnlyOneApplicable};
ghost use Rattle.xa_policy.specs.Evaluation.{as_asked, combination, element, evaluated, evaluation, named_by};
ghost use Rattle.xa_policy.specs.Evaluation.{named_by_elements, policy_value, rule_child, set_value, verdict};
ghost use Rattle.xa_policy.specs.Policy.{AreTypedRules, IsTypedRule};
ghost use Rattle.xa_policy.specs.walking.Walk.{named_up_to, of_none, walked, with_named};

use crate::combination::Combination;
use crate::combining::Alg;
use crate::evaluated::Evaluated;
use crate::fulfilment::with_own;
use crate::identifiers::Identifiers;
use crate::linked::Linked;
use crate::policy::Policy;
use crate::policy_set::PolicySet;
use crate::rule::{Rule, evaluate_rule};
use crate::verdict::Verdict;
use std::alloc::{AllocError, Global};
use xa_expr::{Context, Evaluator, Fault, Matching, STEP, Typed, Variables};

/// The units of a policy, a set or a rule whose target is looked at, and of what is done with it after that.
const CHILD: u64 = 2 * STEP + STEP / 2;

/// What the target of the tree's root comes to; that of a reference that leads to nothing is
/// Indeterminate. Each root that is looked at is counted.
fn target_of<C: Context>(
    alloc: Global,
    linked: &Linked,
    context: &C,
) -> Result<Matching, AllocError>
    ensures { IfOk result (λ m. m ≡ (evaluated (C.values_of context.now) linked.now).target) }
{
    context.spend(CHILD)?;
    match linked {
        Linked::Unresolved => Ok(Matching::Indeterminate(Fault::ProcessingError)),
        Linked::Policy(policy) => policy.get().target().matching(alloc, context),
        Linked::PolicySet(set, _) => set.get().target().matching(alloc, context),
    }
}

/// What the target of the rule comes to. Each rule that is looked at is counted.
fn target_of_rule<C: Context>(
    alloc: Global,
    rule: &Rule<Typed>,
    context: &C,
) -> Result<Matching, AllocError>
    ensures { IfOk result (λ m. m ≡ target_value (C.values_of context.now) rule.now.target) }
{
    context.spend(CHILD)?;
    rule.target.matching(alloc, context)
}

/// What only-one-applicable makes of an applicable rule and the others after it. The first target that
/// isn't No match settles it.
#[tactic(auto, using(crate::proofs::TidyLemmas::applicable_steps))]
fn rule_unless_another<'a, C: Context>(
    alloc: Global,
    context: &C,
    evaluator: &mut Evaluator<'a, C>,
    rule: &Rule<Typed>,
    others: &[Rule<Typed>],
) -> Result<Verdict, AllocError>
    requires same { evaluator.old.0 ≡ context.now }
    requires typed { IsTypedRule (kinds evaluator.old.1) rule.now }
    requires applies { target_value (C.values_of context.now) rule.now.target ≡ matching.Match }
    ensures value { IfOk result (λ e. e ≡ combination OnlyOneApplicable
        (map (rule_child (C.values_of context.now) evaluator.old.1) (rule.now ∷ others.now))) }
    ensures kept { evaluator.new ≡ evaluator.old }
{
    for other in others {
        match target_of_rule(alloc, other, context)? {
            Matching::NoMatch => continue,
            Matching::Indeterminate(fault) => return Ok(Verdict::undecided(alloc, fault)),
            Matching::Match => return Ok(Verdict::undecided(alloc, Fault::ProcessingError)),
        }
    }
    evaluate_rule(alloc, evaluator, rule, Matching::Match)
}

/// What only-one-applicable makes of the rules. The first target that isn't No match leaves it to the
/// others, or settles it. No policy that is read comes here, since the standard has no such algorithm of
/// rules; one that `Policy::new` builds may.
#[tactic(auto, using(crate::proofs::TidyLemmas::applicable_steps))]
fn only_applicable_rule<'a, C: Context>(
    alloc: Global,
    context: &C,
    evaluator: &mut Evaluator<'a, C>,
    rules: &[Rule<Typed>],
) -> Result<Verdict, AllocError>
    requires same { evaluator.old.0 ≡ context.now }
    requires typed { AreTypedRules (kinds evaluator.old.1) rules.now }
    ensures value { IfOk result (λ e. e ≡ combination OnlyOneApplicable
        (map (rule_child (C.values_of context.now) evaluator.old.1) rules.now)) }
    ensures kept { evaluator.new ≡ evaluator.old }
{
    for (place, rule) in rules.iter().enumerate() {
        match target_of_rule(alloc, rule, context)? {
            Matching::NoMatch => continue,
            Matching::Indeterminate(fault) => return Ok(Verdict::undecided(alloc, fault)),
            Matching::Match => {
                let others = &rules[place + 1..];
                return rule_unless_another(alloc, context, evaluator, rule, others);
            }
        }
    }
    Ok(Verdict::not_applicable(alloc))
}

/// What an algorithm that goes by decisions makes of the rules. One whose target doesn't match is passed.
fn walk_rules<'a, C: Context>(
    alloc: Global,
    algorithm: Alg,
    context: &C,
    evaluator: &mut Evaluator<'a, C>,
    rules: &[Rule<Typed>],
) -> Result<Verdict, AllocError>
    requires same { evaluator.old.0 ≡ context.now }
    requires typed { AreTypedRules (kinds evaluator.old.1) rules.now }
    ensures value { IfOk result (λ e. e
        ≡ walked (of_none algorithm) (map (rule_child (C.values_of context.now) evaluator.old.1) rules.now)) }
    ensures kept { evaluator.new ≡ evaluator.old }
{
    let mut so_far = Combination::new(alloc, algorithm);
    for rule in rules {
        let target = target_of_rule(alloc, rule, context)?;
        if target == Matching::NoMatch {
            continue;
        }
        let child = evaluate_rule(alloc, evaluator, rule, target)?;
        context.spend(child.duties.units_of_moving())?;
        if so_far.add(child)? {
            return Ok(so_far.result_so_far(alloc));
        }
    }
    Ok(so_far.result_so_far(alloc))
}

/// What the algorithm makes of the rules.
#[tactic(auto, using(crate::proofs::WalkLemmas::walk_is_combination))]
fn combine_rules<'a, C: Context>(
    alloc: Global,
    algorithm: Alg,
    context: &C,
    evaluator: &mut Evaluator<'a, C>,
    rules: &[Rule<Typed>],
) -> Result<Verdict, AllocError>
    requires same { evaluator.old.0 ≡ context.now }
    requires typed { AreTypedRules (kinds evaluator.old.1) rules.now }
    ensures value { IfOk result (λ e.
        e ≡ combination algorithm (map (rule_child (C.values_of context.now) evaluator.old.1) rules.now)) }
    ensures kept { evaluator.new ≡ evaluator.old }
{
    match algorithm {
        Alg::OnlyOneApplicable => only_applicable_rule(alloc, context, evaluator, rules),
        _ => walk_rules(alloc, algorithm, context, evaluator, rules),
    }
}

/// What the policy decides, if its target comes to this.
fn evaluate_policy<C: Context>(
    alloc: Global,
    policy: &Policy,
    target: Matching,
    context: &C,
    ids: &mut Identifiers,
) -> Result<Verdict, AllocError>
    requires { target ≡ target_value (C.values_of context.now) policy.now.target }
    ensures value { IfOk result (λ e. e ≡ policy_value (C.values_of context.now) policy.now) }
    ensures named { OnOk result (ids.new ≡ with_named ids.old
        (named_by (policy_value (C.values_of context.now) policy.now).decision policy.now.key [])) }
{
    if target == Matching::NoMatch {
        return Ok(Verdict::not_applicable(alloc));
    }
    let mut evaluator = Evaluator::new(alloc, context, policy.variables());
    let rules = policy.rules();
    let combined = combine_rules(alloc, policy.algorithm(), context, &mut evaluator, rules)?;
    let by_target = combined.by_target(alloc, target);
    let decided = with_own(alloc, &mut evaluator, policy.duties(), by_target)?;
    ids.add_by(decided.decision, policy.key())?;
    Ok(decided)
}

/// What the tree decides, if its target comes to this.
#[cycle(evaluation)]
fn evaluate_linked<C: Context>(
    alloc: Global,
    linked: &Linked,
    target: Matching,
    context: &C,
    ids: &mut Identifiers,
) -> Result<Verdict, AllocError>
    requires { target ≡ (evaluated (C.values_of context.now) linked.now).target }
    ensures value { IfOk result (λ e. e ≡ verdict (C.values_of context.now) linked.now) }
    ensures named { OnOk result
        (ids.new ≡ with_named ids.old (element (C.values_of context.now) linked.now).ids) }
{
    match linked {
        Linked::Unresolved => Ok(Verdict::undecided(alloc, Fault::ProcessingError)),
        Linked::Policy(policy) => evaluate_policy(alloc, policy.get(), target, context, ids),
        Linked::PolicySet(set, children) => {
            evaluate_set(
                alloc,
                set.get(),
                children.get().as_slice(),
                target,
                context,
                ids,
            )
        }
    }
}

/// What the policy set decides by its children, if its target comes to this.
#[cycle(evaluation)]
fn evaluate_set<C: Context>(
    alloc: Global,
    set: &PolicySet,
    children: &[Linked],
    target: Matching,
    context: &C,
    ids: &mut Identifiers,
) -> Result<Verdict, AllocError>
    requires { target ≡ target_value (C.values_of context.now) set.now.target }
    ensures value { IfOk result (λ e. e ≡ set_value (C.values_of context.now) set.now
        (map (evaluated (C.values_of context.now)) children.now)) }
    ensures named { OnOk result (ids.new ≡ with_named ids.old
        (named_by (set_value (C.values_of context.now) set.now
        (map (evaluated (C.values_of context.now)) children.now)).decision set.now.key
        (named_by_elements set.now.algorithm (map (element (C.values_of context.now)) children.now)))) }
{
    if target == Matching::NoMatch {
        return Ok(Verdict::not_applicable(alloc));
    }
    let before = ids.count();
    ids.add(set.key())?;
    let combined = combine_children(alloc, set.algorithm(), context, children, ids)?;
    let none = Variables::new(alloc);
    let mut evaluator = Evaluator::new(alloc, context, &none);
    let by_target = combined.by_target(alloc, target);
    let decided = with_own(alloc, &mut evaluator, set.duties(), by_target)?;
    ids.keep_by(decided.decision, before);
    Ok(decided)
}

/// What the algorithm makes of the children.
#[cycle(evaluation)]
#[tactic(auto, using(crate::proofs::WalkLemmas::walk_is_combination, crate::proofs::IdLemmas::named_by_decisions))]
fn combine_children<C: Context>(
    alloc: Global,
    algorithm: Alg,
    context: &C,
    children: &[Linked],
    ids: &mut Identifiers,
) -> Result<Verdict, AllocError>
    ensures value { IfOk result (λ e.
        e ≡ combination algorithm (map (evaluated (C.values_of context.now)) children.now)) }
    ensures named { OnOk result (ids.new ≡ with_named ids.old
        (named_by_elements algorithm (map (element (C.values_of context.now)) children.now))) }
{
    match algorithm {
        Alg::OnlyOneApplicable => only_applicable_child(alloc, context, children, ids),
        _ => walk_children(alloc, algorithm, context, children, ids),
    }
}

/// What an algorithm that goes by decisions makes of the children. One whose target doesn't match is passed.
#[cycle(evaluation)]
fn walk_children<C: Context>(
    alloc: Global,
    algorithm: Alg,
    context: &C,
    children: &[Linked],
    ids: &mut Identifiers,
) -> Result<Verdict, AllocError>
    ensures value { IfOk result (λ e.
        e ≡ walked (of_none algorithm) (map (evaluated (C.values_of context.now)) children.now)) }
    ensures named { OnOk result (ids.new
        ≡ with_named ids.old (named_up_to algorithm (map (element (C.values_of context.now)) children.now))) }
{
    let mut so_far = Combination::new(alloc, algorithm);
    for child in children {
        let target = target_of(alloc, child, context)?;
        if target == Matching::NoMatch {
            continue;
        }
        let child = evaluate_linked(alloc, child, target, context, ids)?;
        context.spend(child.duties.units_of_moving())?;
        if so_far.add(child)? {
            return Ok(so_far.result_so_far(alloc));
        }
    }
    Ok(so_far.result_so_far(alloc))
}

/// What only-one-applicable makes of the children. The first target that isn't No match leaves it to the
/// others, or settles it.
#[cycle(evaluation)]
#[tactic(auto, using(crate::proofs::TidyLemmas::applicable_steps))]
fn only_applicable_child<C: Context>(
    alloc: Global,
    context: &C,
    children: &[Linked],
    ids: &mut Identifiers,
) -> Result<Verdict, AllocError>
    ensures value { IfOk result (λ e.
        e ≡ combination OnlyOneApplicable (map (evaluated (C.values_of context.now)) children.now)) }
    ensures named { OnOk result (ids.new ≡ with_named ids.old
        (named_by_elements OnlyOneApplicable (map (element (C.values_of context.now)) children.now))) }
{
    for (place, child) in children.iter().enumerate() {
        match target_of(alloc, child, context)? {
            Matching::NoMatch => continue,
            Matching::Indeterminate(fault) => return Ok(Verdict::undecided(alloc, fault)),
            Matching::Match => {
                let others = &children[place + 1..];
                return child_unless_another(alloc, context, child, others, ids);
            }
        }
    }
    Ok(Verdict::not_applicable(alloc))
}

/// What only-one-applicable makes of an applicable child and the others after it. The first target that
/// isn't No match settles it.
#[cycle(evaluation)]
#[tactic(auto, using(crate::proofs::TidyLemmas::applicable_steps))]
fn child_unless_another<C: Context>(
    alloc: Global,
    context: &C,
    child: &Linked,
    others: &[Linked],
    ids: &mut Identifiers,
) -> Result<Verdict, AllocError>
    requires { (evaluated (C.values_of context.now) child.now).target ≡ matching.Match }
    ensures value { IfOk result (λ e. e ≡ combination OnlyOneApplicable
        (map (evaluated (C.values_of context.now)) (child.now ∷ others.now))) }
    ensures named { OnOk result (ids.new ≡ with_named ids.old
        (named_by_elements OnlyOneApplicable
        (map (element (C.values_of context.now)) (child.now ∷ others.now)))) }
{
    for other in others {
        match target_of(alloc, other, context)? {
            Matching::NoMatch => continue,
            Matching::Indeterminate(fault) => return Ok(Verdict::undecided(alloc, fault)),
            Matching::Match => return Ok(Verdict::undecided(alloc, Fault::ProcessingError)),
        }
    }
    evaluate_linked(alloc, child, Matching::Match, context, ids)
}

/// The tree's decision (XACML 3.0, core, sections 7.9 to 7.15 and 7.18), with its status, obligations and
/// advice, and, if `names_policies`, the policies and sets named with it (5.49). No child is evaluated after
/// the one that settles its parent, and none if its parent's target is No match. Want of memory is the only
/// error; it also comes if the context refuses more work. Each policy, set and rule that is looked at is
/// counted, beside what expressions count: tenants nest and repeat them as they like.
#[tactic(auto, using(crate::proofs::IdLemmas::asked_from_none))]
pub fn evaluate<C: Context>(
    alloc: Global,
    linked: &Linked,
    context: &C,
    names_policies: bool,
) -> Result<Evaluated, AllocError>
    ensures { IfOk result (λ e.
        e ≡ as_asked names_policies (evaluation (C.values_of context.now) linked.now)) }
{
    let target = target_of(alloc, linked, context)?;
    let mut ids = Identifiers::new(alloc, names_policies);
    let verdict = evaluate_linked(alloc, linked, target, context, &mut ids)?;
    Ok(Evaluated::new(verdict, ids.into_items()))
}
