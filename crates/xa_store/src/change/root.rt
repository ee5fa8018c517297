//! The root of a domain is set or dropped.
ghost use Rattle.std.specs.Prelude.{◌≡◌, IfOk};
ghost use Rattle.sqlite.specs.Held.{state};
ghost use Rattle.xa_records.specs.Changes.{root_set, within};
ghost use Rattle.xa_store.specs.Meaning.{root_at};
ghost use Rattle.xa_store.specs.keeping.Plan.{PlansOver, root_steps};
ghost use Rattle.xa_store.specs.keeping.Quiet.{OnlyReadsForChangeOver};
ghost use Rattle.xa_store.specs.keeping.Turns.{PlansIn, Turns};

use crate::change::found::domain_to_change;
use crate::change::laws::root_reads_back;
use crate::change::number::raised_epoch;
use crate::change::{carry_out, with_epoch};
use crate::query::domain::FoundDomain;
use crate::query::root::root_of;
use crate::step::{RaisedEpoch, Step};
use sqlite::{Alter, Connection};
use std::alloc::{AllocError, Global};
use xa_policy::Reference;
use xa_records::{ChangeError, is_same_root};
use xa_value::{Items, Text};

/// The steps that set the root.
fn root_steps(
    alloc: Global,
    raised: RaisedEpoch,
    root: Option<Reference>,
) -> Result<Items<Step>, AllocError>
    ensures { IfOk result (λ steps. steps ≡ root_steps raised.number raised.epoch root) }
{
    let mut steps = Items::new(alloc);
    steps.push(Step::DropRoot(raised.number))?;
    match root {
        Some(root) => {
            steps.push(Step::AddRoot {
                number: raised.number,
                root,
            })?;
            with_epoch(steps, raised)
        }
        None => with_epoch(steps, raised),
    }
}

/// The plan of a new root, by the root that the domain has.
fn plan_root_over(
    alloc: Global,
    domain: FoundDomain,
    root_before: &Option<Reference>,
    root: Option<Reference>,
) -> Result<Items<Step>, ChangeError>
    ensures plans { PlansOver (within (root_set root)) domain
        (λ rows. root_before.now ≡ root_at rows.roots domain.number) result }
{
    if is_same_root(root_before, &root) {
        return Ok(Items::new(alloc));
    }
    // For the proof: the root reads back from its row.
    root_reads_back(&root);
    let raised = raised_epoch(domain)?;
    Ok(root_steps(alloc, raised, root)?)
}

/// The plan of a new root, or why there is no plan.
fn plan_root<S: Alter>(
    alloc: Global,
    conn: &mut Connection<S>,
    name: &Text,
    root: Option<Reference>,
) -> Result<Items<Step>, ChangeError>
    ensures only_reads { OnlyReadsForChangeOver S.Store conn.old conn.new result }
    ensures plans { PlansIn S.Store (within (root_set root)) name.now conn.old conn.new result }
{
    let domain = domain_to_change(conn, name)?;
    let root_before = root_of(alloc, conn, domain.number)?;
    plan_root_over(alloc, domain, &root_before, root)
}

/// Sets the root of the domain of that name, or drops it.
pub(crate) fn set<S: Alter>(
    alloc: Global,
    conn: &mut Connection<S>,
    name: &Text,
    root: Option<Reference>,
) -> Result<(), ChangeError>
    ensures turns { Turns (within (root_set root)) name.now
        (state S.Store conn.old) (state S.Store conn.new) result }
{
    let planned = plan_root(alloc, conn, name, root);
    carry_out(alloc, conn, planned)
}
