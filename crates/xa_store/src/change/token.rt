//! A token is put into a domain, gets another role, or is dropped.
ghost use Rattle.std.specs.Prelude.{◌≡◌, ℕ, nat_lt, List, None};
ghost use Rattle.sqlite.specs.Held.{state};
ghost use Rattle.xa_records.specs.Changes.{token_dropped, token_put, within};
ghost use Rattle.xa_store.specs.keeping.Lookup.{FindsRole, IsDomain};
ghost use Rattle.xa_store.specs.keeping.Plan.{PlansFound};
ghost use Rattle.xa_store.specs.keeping.Quiet.{OnlyReadsForChangeOver, OverRows};
ghost use Rattle.xa_store.specs.keeping.Turns.{IsPlanned, PlansIn, Turns};

use crate::change::found::{domain_to_change, role_to_change};
use crate::change::laws::has_all_bytes;
use crate::change::{carry_out, one_step};
use crate::query::count::token_count;
use crate::query::domain::FoundDomain;
use crate::query::token::role_of;
use crate::step::Step;
use sqlite::{Alter, Connection};
use std::alloc::Global;
use xa_notation::Role;
use xa_records::{ChangeError, Digest, MAX_TOKENS, Refusal};
use xa_value::{Items, Text};

/// Whether a domain of so many tokens may have one more. For the proof: in a function of its own, the answer
/// is an equation.
fn may_have_one_more_token(count: usize) -> bool
    ensures { result ≡ nat_lt count 32 }
{
    count < MAX_TOKENS
}

/// The plan that adds a token, if the domain hasn't got it.
fn plan_put_token_new<S: Alter>(
    alloc: Global,
    conn: &mut Connection<S>,
    domain: FoundDomain,
    digest: Digest,
    role: Role,
) -> Result<Items<Step>, ChangeError>
    ensures only_reads { OnlyReadsForChangeOver S.Store conn.old conn.new result }
    ensures plans { OverRows S.Store conn.old conn.new (λ rows. (name : List ℕ) → IsDomain name rows domain
        → FindsRole domain.number digest rows None
        → IsPlanned (within (token_put digest role)) name rows result) }
{
    // For the proof: the digest has 32 bytes.
    has_all_bytes(&digest);
    let count = token_count(conn, domain.number)?;
    if !may_have_one_more_token(count) {
        return Err(ChangeError::Refused(Refusal::Quota));
    }
    let step = Step::AddToken {
        number: domain.number,
        digest,
        role,
    };
    Ok(one_step(alloc, step)?)
}

/// The plan that puts a token into the domain that was found.
fn plan_put_token_in_domain<S: Alter>(
    alloc: Global,
    conn: &mut Connection<S>,
    domain: FoundDomain,
    digest: Digest,
    role: Role,
) -> Result<Items<Step>, ChangeError>
    ensures only_reads { OnlyReadsForChangeOver S.Store conn.old conn.new result }
    ensures plans { PlansFound S.Store (within (token_put digest role)) domain conn.old conn.new result }
{
    let role_before = role_of(alloc, conn, domain.number, &digest)?;
    match role_before {
        Some(_) => {
            let step = Step::SetRole {
                number: domain.number,
                digest,
                role,
            };
            Ok(one_step(alloc, step)?)
        }
        None => plan_put_token_new(alloc, conn, domain, digest, role),
    }
}

/// The plan that puts a token into a domain, or why there is no plan.
fn plan_put_token<S: Alter>(
    alloc: Global,
    conn: &mut Connection<S>,
    name: &Text,
    digest: Digest,
    role: Role,
) -> Result<Items<Step>, ChangeError>
    ensures only_reads { OnlyReadsForChangeOver S.Store conn.old conn.new result }
    ensures plans { PlansIn S.Store (within (token_put digest role)) name.now conn.old conn.new result }
{
    let domain = domain_to_change(conn, name)?;
    plan_put_token_in_domain(alloc, conn, domain, digest, role)
}

/// Puts a token into the domain of that name, or replaces the role of one that is there.
pub(crate) fn put_token<S: Alter>(
    alloc: Global,
    conn: &mut Connection<S>,
    name: &Text,
    digest: Digest,
    role: Role,
) -> Result<(), ChangeError>
    ensures turns { Turns (within (token_put digest role)) name.now
        (state S.Store conn.old) (state S.Store conn.new) result }
{
    let planned = plan_put_token(alloc, conn, name, digest, role);
    carry_out(alloc, conn, planned)
}

/// The plan that drops a token of the domain that was found.
fn plan_drop_token_in_domain<S: Alter>(
    alloc: Global,
    conn: &mut Connection<S>,
    domain: FoundDomain,
    digest: Digest,
) -> Result<Items<Step>, ChangeError>
    ensures only_reads { OnlyReadsForChangeOver S.Store conn.old conn.new result }
    ensures plans { PlansFound S.Store (within (token_dropped digest)) domain conn.old conn.new result }
{
    role_to_change(alloc, conn, domain.number, &digest)?;
    let step = Step::DropToken {
        number: domain.number,
        digest,
    };
    Ok(one_step(alloc, step)?)
}

/// The plan that drops a token, or why there is no plan.
fn plan_drop_token<S: Alter>(
    alloc: Global,
    conn: &mut Connection<S>,
    name: &Text,
    digest: Digest,
) -> Result<Items<Step>, ChangeError>
    ensures only_reads { OnlyReadsForChangeOver S.Store conn.old conn.new result }
    ensures plans { PlansIn S.Store (within (token_dropped digest)) name.now conn.old conn.new result }
{
    let domain = domain_to_change(conn, name)?;
    plan_drop_token_in_domain(alloc, conn, domain, digest)
}

/// Drops a token of the domain of that name.
pub(crate) fn drop_token<S: Alter>(
    alloc: Global,
    conn: &mut Connection<S>,
    name: &Text,
    digest: Digest,
) -> Result<(), ChangeError>
    ensures turns { Turns (within (token_dropped digest)) name.now
        (state S.Store conn.old) (state S.Store conn.new) result }
{
    let planned = plan_drop_token(alloc, conn, name, digest);
    carry_out(alloc, conn, planned)
}
