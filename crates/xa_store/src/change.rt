//! Changes of domains. Each is planned by queries, which may refuse it, and then one transaction takes
//! the steps of the plan. `plan_X` finds the domain by its name, `plan_X_in_domain` plans in that domain, and
//! `plan_X_over` plans over what was found in it. `plan_X_new` and `plan_X_again` plan for what
//! isn't there yet, and for what is there already.
ghost use Rattle.std.specs.Prelude.{◌≡◌, ◌++◌, [], ◌∷◌, Result, Err, IfErr, IfOk};
ghost use Rattle.sqlite.specs.Held.{state};
ghost use Rattle.xa_records.specs.declared.refusal.Failure.{Failure as Failed};
ghost use Rattle.xa_store.specs.keeping.Execution.{Runs};
ghost use Rattle.xa_store.specs.keeping.Plan.{epoch_step};
ghost use Rattle.xa_store.specs.keeping.Turns.{answer_of};

pub(crate) mod document;
pub(crate) mod domain;
pub(crate) mod found;
pub(crate) mod laws;
pub(crate) mod number;
pub(crate) mod root;
pub(crate) mod source;
pub(crate) mod token;

use crate::step::transaction::run;
use crate::step::{RaisedEpoch, Step};
use sqlite::{Alter, Connection};
use std::alloc::{AllocError, Global};
use xa_records::ChangeError;
use xa_value::Items;

/// One step alone.
pub(crate) fn one_step(alloc: Global, step: Step) -> Result<Items<Step>, AllocError>
    ensures { IfOk result (λ steps. steps ≡ step ∷ []) }
{
    let mut steps = Items::new(alloc);
    steps.push(step)?;
    Ok(steps)
}

/// The steps, and then that of the domain's epoch.
pub(crate) fn with_epoch(
    mut steps: Items<Step>,
    raised: RaisedEpoch,
) -> Result<Items<Step>, AllocError>
    ensures { IfOk result (λ all. all ≡ steps ++ epoch_step raised.number raised.epoch ∷ []) }
{
    steps.push(Step::SetEpoch(raised))?;
    Ok(steps)
}

/// The step, and then that of the domain's epoch.
pub(crate) fn step_and_epoch(
    alloc: Global,
    step: Step,
    raised: RaisedEpoch,
) -> Result<Items<Step>, AllocError>
    ensures { IfOk result (λ steps. steps ≡ step ∷ epoch_step raised.number raised.epoch ∷ []) }
{
    let steps = one_step(alloc, step)?;
    with_epoch(steps, raised)
}

/// Takes the steps of a plan in one transaction, or tells why there is no plan.
pub(crate) fn carry_out<S: Alter>(
    alloc: Global,
    conn: &mut Connection<S>,
    planned: Result<Items<Step>, ChangeError>,
) -> Result<(), ChangeError>
    ensures runs { IfOk planned (λ steps. (ran : Result (Unit {0}) Failed)
        × Runs steps (state S.Store conn.old) (state S.Store conn.new) ran × (result ≡ answer_of ran)) }
    ensures keeps { IfErr planned (λ error. (conn.new ≡ conn.old) × (result ≡ Err error)) }
{
    let steps = planned?;
    Ok(run(alloc, conn, steps.as_slice())?)
}
