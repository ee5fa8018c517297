//! What a rule, a policy or a policy set decides: a decision, why, and what comes with it.
ghost use Rattle.std.specs.Prelude.{◌≡◌};
ghost use Rattle.xa_policy.specs.Evaluation.{by_target};
ghost use Rattle.xa_policy.specs.Rule.{left_open, not_applicable, undecided, without_duties};

use crate::decision::{Decision, Effect};
use crate::duty::Duties;
use std::alloc::Global;
use xa_expr::{Fault, Matching};
use xa_func::Status;

/// A decision with its status, its obligations and its advice (XACML 3.0, core, sections 7.11 to 7.18).
#[derive(Debug, Drop)]
pub struct Verdict {
    /// The decision.
    pub decision: Decision,
    /// Why the decision is Indeterminate; `Ok` if it isn't.
    pub status: Status,
    /// What comes with a Permit or a Deny.
    pub duties: Duties,
}

impl Verdict {
    /// The decision, without obligations and advice. Nothing is allocated.
    pub(crate) fn without_duties(alloc: Global, decision: Decision, status: Status) -> Verdict
        ensures { result ≡ without_duties decision status }
    {
        Verdict {
            decision,
            status,
            duties: Duties::new(alloc),
        }
    }

    /// NotApplicable, without obligations and advice. Nothing is allocated.
    pub(crate) fn not_applicable(alloc: Global) -> Verdict
        ensures { result ≡ not_applicable }
    {
        Verdict::without_duties(alloc, Decision::NotApplicable, Status::Ok)
    }

    /// Indeterminate{DP}, with the fault's status.
    pub(crate) fn undecided(alloc: Global, fault: Fault) -> Verdict
        ensures { result ≡ undecided fault }
    {
        Verdict::without_duties(alloc, Decision::IndeterminateDenyPermit, fault.status())
    }

    /// The effect, left open by a fault.
    pub(crate) fn left_open(alloc: Global, effect: Effect, fault: Fault) -> Verdict
        ensures { result ≡ left_open effect fault }
    {
        Verdict::without_duties(alloc, effect.left_open(), fault.status())
    }

    /// What a policy or a policy set decides by the value of its target, if its children come to this (core,
    /// section 7.14).
    pub(crate) fn by_target(self, alloc: Global, target: Matching) -> Verdict
        ensures { result ≡ by_target target self }
    {
        match target {
            Matching::Match => self,
            Matching::NoMatch => Verdict::not_applicable(alloc),
            Matching::Indeterminate(fault) => match self.decision {
                Decision::NotApplicable => Verdict::not_applicable(alloc),
                Decision::Permit => Verdict::left_open(alloc, Effect::Permit, fault),
                Decision::Deny => Verdict::left_open(alloc, Effect::Deny, fault),
                other => Verdict::without_duties(alloc, other, fault.status()),
            },
        }
    }
}
