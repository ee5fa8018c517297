//! The typing of documents.
ghost use Rattle.std.specs.Prelude.{◌≡◌, [], map};
ghost use Rattle.std.specs.Result.{result_map_both};
ghost use Rattle.xa_value.specs.Gives.{Gives};
ghost use Rattle.xa_bag.specs.HigherOrder.{collected};
ghost use Rattle.xa_notation.specs.Typing.{typed_all_of, typed_any_of, typed_match, typed_policy};
ghost use Rattle.xa_notation.specs.Typing.{typed_set, typed_target, typed_tree, typed_variables};
ghost use Rattle.xa_notation.specs.parsing.Adding.{with_typed_rule, with_typed_rules};

use crate::document::Document;
use crate::written::{
    WrittenAllOf, WrittenAnyOf, WrittenMatch, WrittenPolicy, WrittenRule, WrittenSet,
    WrittenTarget, WrittenTree, WrittenVariable,
};
use std::alloc::Global;
use xa_expr::{AllOf, AnyOf, CheckError, Match, Target, Variables};
use xa_policy::{DocumentKey, Policy, PolicySet, Rule};
use xa_value::{Items, OrMemory, Shared};

/// The typed match.
fn typed_match(written: WrittenMatch) -> Result<Match, CheckError>
    ensures { result ≡ typed_match written }
{
    let WrittenMatch {
        function,
        literal,
        designator,
    } = written;
    Match::new(function.as_str(), literal, designator)
}

/// The typed matches of a conjunction.
#[tactic(auto, using(crate::proofs::TypingLemmas::behind_next, crate::proofs::JsonLemmas::behind_none))]
fn typed_matches(
    alloc: Global,
    written: Items<WrittenMatch>,
) -> Result<Items<Match>, OrMemory<CheckError>>
    ensures { Gives result (collected (map typed_match written)) }
{
    let mut typed = Items::new(alloc);
    for written_match in written.into_vec() {
        typed.push(typed_match(written_match)?)?;
    }
    Ok(typed)
}

/// The typed conjunctions.
#[tactic(auto, using(crate::proofs::TypingLemmas::behind_next, crate::proofs::JsonLemmas::behind_none))]
fn typed_all_of(
    alloc: Global,
    written: Items<WrittenAllOf>,
) -> Result<Items<AllOf>, OrMemory<CheckError>>
    ensures { Gives result (collected (map typed_all_of written)) }
{
    let mut typed = Items::new(alloc);
    for all_of in written.into_vec() {
        let matches = typed_matches(alloc, all_of.matches)?;
        typed.push(AllOf { matches })?;
    }
    Ok(typed)
}

/// The typed parts of a target.
#[tactic(auto, using(crate::proofs::TypingLemmas::behind_next, crate::proofs::JsonLemmas::behind_none))]
fn typed_any_of(
    alloc: Global,
    written: Items<WrittenAnyOf>,
) -> Result<Items<AnyOf>, OrMemory<CheckError>>
    ensures { Gives result (collected (map typed_any_of written)) }
{
    let mut typed = Items::new(alloc);
    for any_of in written.into_vec() {
        let all_of = typed_all_of(alloc, any_of.all_of)?;
        typed.push(AnyOf { all_of })?;
    }
    Ok(typed)
}

/// The typed target.
fn typed_target(alloc: Global, written: WrittenTarget) -> Result<Target, OrMemory<CheckError>>
    ensures { Gives result (typed_target written) }
{
    let any_of = typed_any_of(alloc, written.any_of)?;
    Ok(Target { any_of })
}

/// The typed variables: each is defined after those before it.
#[tactic(auto, using(crate::proofs::AddingLemmas::variable_first))]
fn typed_variables(
    alloc: Global,
    written: Items<WrittenVariable>,
) -> Result<Variables, OrMemory<CheckError>>
    ensures { Gives result (typed_variables [] written) }
{
    let mut variables = Variables::new(alloc);
    for variable in written.into_vec() {
        let WrittenVariable { name, expression } = variable;
        variables.define(alloc, name, &expression)?;
    }
    Ok(variables)
}

/// Puts the typed rule after those that the policy has.
fn add_rule(
    alloc: Global,
    policy: &mut Policy,
    written: WrittenRule,
) -> Result<(), OrMemory<CheckError>>
    ensures { Gives (result_map_both (λ _. policy.new) (λ e. e) result) (with_typed_rule policy.old written) }
{
    let WrittenRule {
        effect,
        target,
        condition,
        duties,
    } = written;
    let target = typed_target(alloc, target)?;
    policy.add_rule(
        alloc,
        Rule {
            effect,
            target,
            condition,
            duties,
        },
    )
}

/// The policy with the typed rules after those that it has.
#[tactic(auto, using(crate::proofs::AddingLemmas::rule_first, crate::proofs::AddingLemmas::rules_end))]
fn with_rules(
    alloc: Global,
    mut policy: Policy,
    written: Items<WrittenRule>,
) -> Result<Policy, OrMemory<CheckError>>
    ensures { Gives result (with_typed_rules policy written) }
{
    for rule in written.into_vec() {
        add_rule(alloc, &mut policy, rule)?;
    }
    Ok(policy)
}

/// The typed policy. Its faults are those of its target, its variables, its rules and its duties, in this
/// order.
#[tactic(auto, using(crate::proofs::AddingLemmas::policy_built))]
fn typed_policy(alloc: Global, written: WrittenPolicy) -> Result<Policy, OrMemory<CheckError>>
    ensures { Gives result (typed_policy written) }
{
    let WrittenPolicy {
        key,
        algorithm,
        target,
        variables,
        rules,
        duties,
    } = written;
    let target = typed_target(alloc, target)?;
    let variables = typed_variables(alloc, variables)?;
    let DocumentKey { id, version, .. } = key;
    let policy = Policy::new(alloc, id, version, algorithm, target, variables)?;
    let mut policy = with_rules(alloc, policy, rules)?;
    policy.set_duties(alloc, &duties)?;
    Ok(policy)
}

/// The typed children of a policy set.
#[cycle(typing)]
#[tactic(auto, using(crate::proofs::TypingLemmas::behind_next, crate::proofs::JsonLemmas::behind_none))]
fn typed_children(
    alloc: Global,
    written: Items<WrittenTree>,
) -> Result<Items<Document>, OrMemory<CheckError>>
    ensures { Gives result (collected (map typed_tree written)) }
{
    let mut typed = Items::new(alloc);
    for child in written.into_vec() {
        typed.push(typed_tree(alloc, child)?)?;
    }
    Ok(typed)
}

/// The typed policy set. Its faults are those of its target, its children and its duties, in this order.
#[cycle(typing)]
#[tactic(auto, using(crate::proofs::AddingLemmas::set_built))]
fn typed_set(
    alloc: Global,
    written: WrittenSet,
    children: Items<WrittenTree>,
) -> Result<Document, OrMemory<CheckError>>
    ensures { Gives result (typed_set written (map typed_tree children)) }
{
    let WrittenSet {
        key,
        algorithm,
        target,
        duties,
    } = written;
    let target = typed_target(alloc, target)?;
    let children = typed_children(alloc, children)?;
    let DocumentKey { id, version, .. } = key;
    let mut set = PolicySet::new(alloc, id, version, algorithm, target)?;
    set.set_duties(alloc, &duties)?;
    Ok(Document::PolicySet(Shared::new(alloc, set)?, children))
}

/// The typed document, or part of one.
#[cycle(typing)]
pub(crate) fn typed_tree(
    alloc: Global,
    written: WrittenTree,
) -> Result<Document, OrMemory<CheckError>>
    ensures { Gives result (typed_tree written) }
{
    match written {
        WrittenTree::Policy(policy) => {
            let policy = typed_policy(alloc, policy)?;
            Ok(Document::Policy(Shared::new(alloc, policy)?))
        }
        WrittenTree::PolicySet(set, children) => typed_set(alloc, set, children),
        WrittenTree::Reference(reference) => Ok(Document::Reference(reference)),
    }
}
