//! What a tree decides, with the policies and policy sets that are named.
ghost use Rattle.std.specs.Prelude.{◌≡◌};
ghost use Rattle.xa_policy.specs.Evaluation.{with_ids, without_ids};
ghost use Rattle.xa_policy.specs.Rule.{not_applicable, undecided};

use crate::decision::Decision;
use crate::document_key::DocumentKey;
use crate::duty::Duties;
use crate::verdict::Verdict;
use std::alloc::Global;
use xa_expr::Fault;
use xa_func::Status;
use xa_value::{Items, Shared};

/// What a tree decides: a decision with its status, its obligations and its advice, and the policies and
/// policy sets that are named with it (XACML 3.0, core, sections 5.48 and 5.49).
#[derive(Debug, Drop)]
pub struct Evaluated {
    /// The decision.
    pub decision: Decision,
    /// Why the decision is Indeterminate; `Ok` if it isn't.
    pub status: Status,
    /// What comes with a Permit or a Deny.
    pub duties: Duties,
    /// The policies and policy sets that are named with a Permit or a Deny, in order; none if they weren't
    /// asked for.
    pub ids: Items<Shared<DocumentKey>>,
}

impl Evaluated {
    /// What is decided, with these policies and policy sets.
    pub(crate) fn new(verdict: Verdict, ids: Items<Shared<DocumentKey>>) -> Evaluated
        ensures { result ≡ with_ids ids verdict }
    {
        let Verdict {
            decision,
            status,
            duties,
        } = verdict;
        Evaluated {
            decision,
            status,
            duties,
            ids,
        }
    }

    /// NotApplicable, with no obligations, no advice and nothing named. Nothing is allocated.
    pub fn not_applicable(alloc: Global) -> Evaluated
        ensures { result ≡ without_ids not_applicable }
    {
        Evaluated::new(Verdict::not_applicable(alloc), Items::new(alloc))
    }

    /// Indeterminate{DP}, with the fault's status, no obligations, no advice and nothing named. Nothing is
    /// allocated.
    pub fn undecided(alloc: Global, fault: Fault) -> Evaluated
        ensures { result ≡ without_ids (undecided fault) }
    {
        Evaluated::new(Verdict::undecided(alloc, fault), Items::new(alloc))
    }
}
