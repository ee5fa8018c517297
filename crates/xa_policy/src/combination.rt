//! What the children of a policy or a policy set decide, as they are evaluated one after another.
ghost use Rattle.std.specs.Prelude.{◌≡◌, IfOk, OnOk};
ghost use Rattle.xa_policy.specs.Evaluation.{ends};
ghost use Rattle.xa_policy.specs.walking.Walk.{decided, fault_in, of_none, with_next};

use crate::combining::Alg;
use crate::decision::Decision;
use crate::duty::Duties;
use crate::verdict::Verdict;
use std::alloc::{AllocError, Global};
use xa_func::Status;

/// What the children so far come to under an algorithm that goes by their decisions.
#[derive(Debug, Drop)]
pub(crate) struct Combination {
    /// How the children's decisions are combined.
    algorithm: Alg,
    /// What the children so far decide, if there is no other.
    decision: Decision,
    /// The status of the first child so far that is Indeterminate, or of the one that ended the evaluation.
    fault: Option<Status>,
    /// The obligations and advice of the children so far that decide Permit or Deny, in order.
    duties: Duties,
}

impl Combination {
    /// No children yet.
    pub(crate) fn new(alloc: Global, algorithm: Alg) -> Combination
        ensures { result ≡ of_none algorithm }
    {
        Combination {
            algorithm,
            decision: algorithm.decision_of_none(),
            fault: None,
            duties: Duties::new(alloc),
        }
    }

    /// Takes the next child, and answers whether it ends the evaluation. If so, no child after it changes
    /// anything.
    pub(crate) fn add(&mut self, child: Verdict) -> Result<bool, AllocError>
        ensures ok { OnOk result (self.new ≡ with_next self.old child) }
        ensures ended { IfOk result (λ end. end ≡ ends self.old.algorithm child.decision) }
    {
        if self.algorithm.ends(child.decision) {
            self.decision = self.algorithm.ending_decision(child.decision);
            self.fault = fault_in(&child);
            self.duties = child.duties;
            return Ok(true);
        }
        self.fault = self.fault.or(fault_in(&child));
        self.decision = self
            .algorithm
            .joined_decision(self.decision, child.decision);
        if child.decision.effect().is_some() {
            self.duties.append(child.duties)?;
        }
        Ok(false)
    }

    /// What the children decide, if there is no other.
    pub(crate) fn result_so_far(self, alloc: Global) -> Verdict
        ensures { result ≡ decided self }
    {
        if self.decision.is_indeterminate() {
            let status = self.fault.unwrap_or(Status::Ok);
            return Verdict::without_duties(alloc, self.decision, status);
        }
        if self.decision.effect().is_none() {
            return Verdict::without_duties(alloc, self.decision, Status::Ok);
        }
        Verdict {
            decision: self.decision,
            status: Status::Ok,
            duties: self.duties,
        }
    }
}

/// The status, if what was decided is Indeterminate.
fn fault_in(child: &Verdict) -> Option<Status>
    ensures { result ≡ fault_in child.now }
{
    if child.decision.is_indeterminate() {
        Some(child.status)
    } else {
        None
    }
}
