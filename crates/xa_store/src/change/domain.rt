//! The creation and the removal of a domain.
ghost use Rattle.std.specs.Prelude.{◌≡◌, ℕ, List, [], filter, IsTrue, IfOk};
ghost use Rattle.sqlite.specs.Held.{state};
ghost use Rattle.sqlite_keyed.specs.Keyed.{IsKeyedBy};
ghost use Rattle.sqlite_keyed.specs.Rules.{AreApart};
ghost use Rattle.xa_records.specs.Changes.{created, removed};
ghost use Rattle.xa_records.specs.DomainName.{is_domain_name};
ghost use Rattle.xa_store.specs.keeping.Lookup.{IsDomain, IsNext};
ghost use Rattle.xa_store.specs.Meaning.{Rows};
ghost use Rattle.xa_store.specs.keeping.Plan.{create_steps, number_key};
ghost use Rattle.xa_store.specs.keeping.Quiet.{OnlyReadsForChangeOver};
ghost use Rattle.xa_store.specs.Sound.{AreNumbered, same_name};
ghost use Rattle.xa_store.specs.keeping.Steps.{is_named};
ghost use Rattle.xa_store.specs.keeping.Turns.{IsPlanned, PlansIn, Turns};

use crate::change::found::domain_to_change;
use crate::change::number::next_after;
use crate::change::{carry_out, one_step};
use crate::query::domain::{FoundDomain, domain_named};
use crate::query::number::next_number;
use crate::step::Step;
use sqlite::{Alter, Connection};
use std::alloc::{AllocError, Global};
use xa_records::{ChangeError, Refusal};
use xa_value::{Items, Text};

/// The steps that make a domain.
fn create_steps(
    alloc: Global,
    name: &Text,
    number: i64,
    next: i64,
) -> Result<Items<Step>, AllocError>
    ensures { IfOk result (λ steps. steps ≡ create_steps name.now number next) }
{
    let mut steps = Items::new(alloc);
    let name = name.clone()?;
    steps.push(Step::AddDomain { number, name })?;
    steps.push(Step::SetNext(next))?;
    Ok(steps)
}

/// The plan of a creation, with the next number, if no domain has the name.
fn plan_create_new(alloc: Global, name: &Text, number: i64) -> Result<Items<Step>, ChangeError>
    requires { IsTrue (is_domain_name name.now) }
    ensures plans { (rows : Rows) → AreNumbered rows → AreApart same_name rows.domains
        → filter (is_named name.now) rows.domains ≡ [] → IsNext rows number
        → IsPlanned created name.now rows result }
{
    let next = next_after(number)?;
    Ok(create_steps(alloc, name, number, next)?)
}

/// The plan of a creation, or why there is no plan.
fn plan_create<S: Alter>(
    alloc: Global,
    conn: &mut Connection<S>,
    name: &Text,
) -> Result<Items<Step>, ChangeError>
    requires { IsTrue (is_domain_name name.now) }
    ensures only_reads { OnlyReadsForChangeOver S.Store conn.old conn.new result }
    ensures plans { PlansIn S.Store created name.now conn.old conn.new result }
{
    let found = domain_named(conn, name)?;
    if found.is_some() {
        return Err(ChangeError::Refused(Refusal::Exists));
    }
    let number = next_number(conn)?;
    plan_create_new(alloc, name, number)
}

/// Makes the domain of that name, in which nothing has been put yet.
pub(crate) fn create<S: Alter>(
    alloc: Global,
    conn: &mut Connection<S>,
    name: &Text,
) -> Result<(), ChangeError>
    requires { IsTrue (is_domain_name name.now) }
    ensures turns { Turns created name.now (state S.Store conn.old) (state S.Store conn.new) result }
{
    let planned = plan_create(alloc, conn, name);
    carry_out(alloc, conn, planned)
}

/// The plan of a removal, of the domain that was found.
fn plan_remove_in_domain(alloc: Global, domain: FoundDomain) -> Result<Items<Step>, ChangeError>
    ensures plans { (name : List ℕ) → (rows : Rows) → AreNumbered rows → IsKeyedBy number_key rows.domains
        → IsDomain name rows domain → IsPlanned removed name rows result }
{
    Ok(one_step(alloc, Step::DropDomain(domain.number))?)
}

/// The plan of a removal, or why there is no plan.
fn plan_remove<S: Alter>(
    alloc: Global,
    conn: &mut Connection<S>,
    name: &Text,
) -> Result<Items<Step>, ChangeError>
    ensures only_reads { OnlyReadsForChangeOver S.Store conn.old conn.new result }
    ensures plans { PlansIn S.Store removed name.now conn.old conn.new result }
{
    let domain = domain_to_change(conn, name)?;
    plan_remove_in_domain(alloc, domain)
}

/// Removes the domain of that name, with all that is in it.
pub(crate) fn remove<S: Alter>(
    alloc: Global,
    conn: &mut Connection<S>,
    name: &Text,
) -> Result<(), ChangeError>
    ensures turns { Turns removed name.now (state S.Store conn.old) (state S.Store conn.new) result }
{
    let planned = plan_remove(alloc, conn, name);
    carry_out(alloc, conn, planned)
}
