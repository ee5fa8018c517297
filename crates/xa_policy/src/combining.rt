//! Combining algorithms: the steps of each, and what it makes of all children.
ghost use Rattle.std.specs.Prelude.{◌≡◌, [], ◌∷◌, map};
ghost use Rattle.xa_expr.specs.declared.matching.Matching.TheVariants as target;
ghost use Rattle.xa_policy.specs.Combining.{applies, combined_decision, decision_of};
ghost use Rattle.xa_policy.specs.Combining.{deny_overrides, first_applicable, may_apply};
ghost use Rattle.xa_policy.specs.Combining.{only_one_applicable, permit_overrides};
ghost use Rattle.xa_policy.specs.Evaluation.{ends};
ghost use Rattle.xa_policy.specs.Overriding.{overrides};
ghost use Rattle.xa_policy.specs.walking.Walk.{decision_of_none, ending_decision, joined_decision};
ghost use Rattle.xa_policy.specs.walking.Walk.{walked_decision};

use crate::decision::{Decision, Effect};
use xa_expr::Matching;

/// A combining algorithm (XACML 3.0, core, appendix C). In the names, RULE stands for
/// `urn:oasis:names:tc:xacml:3.0:rule-combining-algorithm` and POLICY for
/// `urn:oasis:names:tc:xacml:3.0:policy-combining-algorithm`.
#[derive(Clone, Copy, Debug, PartialEq, Eq)]
pub enum Alg {
    /// `RULE:deny-overrides`, `POLICY:deny-overrides` (appendix C.2).
    DenyOverrides,
    /// `RULE:permit-overrides`, `POLICY:permit-overrides` (appendix C.4).
    PermitOverrides,
    /// `RULE:ordered-deny-overrides`, `POLICY:ordered-deny-overrides` (appendix C.3).
    OrderedDenyOverrides,
    /// `RULE:ordered-permit-overrides`, `POLICY:ordered-permit-overrides` (appendix C.5).
    OrderedPermitOverrides,
    /// `RULE:deny-unless-permit`, `POLICY:deny-unless-permit` (appendix C.6).
    DenyUnlessPermit,
    /// `RULE:permit-unless-deny`, `POLICY:permit-unless-deny` (appendix C.7).
    PermitUnlessDeny,
    /// `urn:oasis:names:tc:xacml:1.0:rule-combining-algorithm:first-applicable`,
    /// `urn:oasis:names:tc:xacml:1.0:policy-combining-algorithm:first-applicable` (appendix C.8).
    FirstApplicable,
    /// `urn:oasis:names:tc:xacml:1.0:policy-combining-algorithm:only-one-applicable` (appendix C.9). The
    /// standard has it for policies and policy sets alone: no policy that is read combines its rules so.
    OnlyOneApplicable,
}

impl Alg {
    /// Whether no child after one of this decision is evaluated.
    pub(crate) fn ends(self, decision: Decision) -> bool
        ensures { result ≡ ends self decision }
    {
        match self {
            Alg::DenyOverrides | Alg::OrderedDenyOverrides | Alg::PermitUnlessDeny => {
                decision.has_effect(Effect::Deny)
            }
            Alg::PermitOverrides | Alg::OrderedPermitOverrides | Alg::DenyUnlessPermit => {
                decision.has_effect(Effect::Permit)
            }
            Alg::FirstApplicable => decision.is_applicable(),
            Alg::OnlyOneApplicable => false,
        }
    }

    /// The decision of no children.
    pub(crate) fn decision_of_none(self) -> Decision
        ensures { result ≡ decision_of_none self }
    {
        match self {
            Alg::DenyUnlessPermit => Decision::Deny,
            Alg::PermitUnlessDeny => Decision::Permit,
            _ => Decision::NotApplicable,
        }
    }

    /// The decision so far, with that of a child that doesn't end the evaluation.
    pub(crate) fn joined_decision(self, so_far: Decision, decision: Decision) -> Decision
        ensures { result ≡ joined_decision self so_far decision }
    {
        match self {
            Alg::DenyOverrides | Alg::OrderedDenyOverrides => {
                overrides_of_two(Effect::Deny, so_far, decision)
            }
            Alg::PermitOverrides | Alg::OrderedPermitOverrides => {
                overrides_of_two(Effect::Permit, so_far, decision)
            }
            _ => so_far,
        }
    }

    /// The decision that comes of a child that ends the evaluation.
    pub(crate) fn ending_decision(self, decision: Decision) -> Decision
        ensures { result ≡ ending_decision self decision }
    {
        match self {
            Alg::FirstApplicable => first_applicable_of_one(decision),
            _ => decision,
        }
    }
}

/// A child of a policy or of a policy set, as it is combined (core, appendix C).
#[derive(Clone, Copy, Debug, PartialEq, Eq)]
pub struct Child {
    /// What it decides.
    pub decision: Decision,
    /// What its target comes to, by which only-one-applicable goes.
    pub target: Matching,
}

impl Child {
    /// Whether the child's target is Match.
    fn applies(self) -> bool
        ensures { result ≡ applies self }
    {
        matches!(self.target, Matching::Match)
    }

    /// Whether the child's target is Indeterminate.
    fn may_apply(self) -> bool
        ensures { result ≡ may_apply self }
    {
        matches!(self.target, Matching::Indeterminate(_))
    }
}

/// Deny-overrides of two.
#[tactic(auto, unfolding(crate::specs::Combining::deny_overrides))]
fn deny_overrides_of_two(first: Decision, second: Decision) -> Decision
    ensures { result ≡ deny_overrides (first ∷ second ∷ []) }
{
    match (first, second) {
        (Decision::Deny, _) | (_, Decision::Deny) => Decision::Deny,
        (Decision::IndeterminateDenyPermit, _) | (_, Decision::IndeterminateDenyPermit) => {
            Decision::IndeterminateDenyPermit
        }
        (Decision::IndeterminateDeny, Decision::IndeterminatePermit | Decision::Permit)
        | (Decision::IndeterminatePermit | Decision::Permit, Decision::IndeterminateDeny) => {
            Decision::IndeterminateDenyPermit
        }
        (Decision::IndeterminateDeny, _) | (_, Decision::IndeterminateDeny) => {
            Decision::IndeterminateDeny
        }
        (Decision::Permit, _) | (_, Decision::Permit) => Decision::Permit,
        (Decision::IndeterminatePermit, _) | (_, Decision::IndeterminatePermit) => {
            Decision::IndeterminatePermit
        }
        (Decision::NotApplicable, Decision::NotApplicable) => Decision::NotApplicable,
    }
}

/// Permit-overrides of two, the mirror of deny-overrides.
#[tactic(auto, using(crate::proofs::MirrorLemmas::permit_overrides_mirrors))]
fn permit_overrides_of_two(first: Decision, second: Decision) -> Decision
    ensures { result ≡ permit_overrides (first ∷ second ∷ []) }
{
    deny_overrides_of_two(first.mirror_of(), second.mirror_of()).mirror_of()
}

/// Deny-overrides or permit-overrides of two.
fn overrides_of_two(effect: Effect, first: Decision, second: Decision) -> Decision
    ensures { result ≡ overrides effect (first ∷ second ∷ []) }
{
    match effect {
        Effect::Permit => permit_overrides_of_two(first, second),
        Effect::Deny => deny_overrides_of_two(first, second),
    }
}

/// First-applicable of one. The algorithm doesn't track extended Indeterminates, so its own is {DP}
/// (appendix C.1).
#[tactic(auto, using(crate::proofs::FirstApplicableLemmas::first_applicable_alone))]
fn first_applicable_of_one(decision: Decision) -> Decision
    ensures { result ≡ first_applicable (decision ∷ []) }
{
    if decision.is_indeterminate() {
        Decision::IndeterminateDenyPermit
    } else {
        decision
    }
}

/// What an algorithm that goes by decisions makes of the children, by the steps that evaluation takes.
fn combine_decisions(algorithm: Alg, children: &[Child]) -> Decision
    ensures { result ≡ walked_decision algorithm (decision_of_none algorithm) (map decision_of children.now) }
{
    let mut so_far = algorithm.decision_of_none();
    for child in children {
        if algorithm.ends(child.decision) {
            return algorithm.ending_decision(child.decision);
        }
        so_far = algorithm.joined_decision(so_far, child.decision);
    }
    so_far
}

/// Only-one-applicable of an applicable child and the others after it. The first target that isn't No
/// match settles it.
#[tactic(auto, using(crate::proofs::OnlyOneLemmas::only_one_steps))]
fn unless_another_applies(decision: Decision, others: &[Child]) -> Decision
    ensures { result
        ≡ only_one_applicable (record { decision = decision; target = target.Match } ∷ others.now) }
{
    for other in others {
        if other.applies() || other.may_apply() {
            return Decision::IndeterminateDenyPermit;
        }
    }
    decision
}

/// Only-one-applicable, by the targets in their order. The first that isn't No match leaves it to the
/// others, or settles it.
#[tactic(auto, using(crate::proofs::OnlyOneLemmas::only_one_steps))]
fn only_one_applicable(children: &[Child]) -> Decision
    ensures { result ≡ only_one_applicable children.now }
{
    for (place, child) in children.iter().enumerate() {
        if child.applies() {
            return unless_another_applies(child.decision, &children[place + 1..]);
        }
        if child.may_apply() {
            return Decision::IndeterminateDenyPermit;
        }
    }
    Decision::NotApplicable
}

/// The decision that the algorithm makes of the children, in their order (core, appendix C).
#[tactic(auto, using(crate::proofs::WalkLemmas::walked_decisions))]
pub fn combine(algorithm: Alg, children: &[Child]) -> Decision
    ensures { result ≡ combined_decision algorithm children.now }
{
    match algorithm {
        Alg::OnlyOneApplicable => only_one_applicable(children),
        _ => combine_decisions(algorithm, children),
    }
}
