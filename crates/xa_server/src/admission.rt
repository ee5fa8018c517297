//! Whether a message is let in, by the token that it shows. If not, the reply is 401 or 403.
ghost use Rattle.std.specs.Prelude.{◌≡◌, Some};
ghost use Rattle.xa_notation.specs.declared.token.Role.TheVariants.{Admin, Ask};
ghost use Rattle.xa_records.specs.Kept.{state_of};
ghost use Rattle.xa_records.specs.Readings.{gate_of};
ghost use Rattle.xa_server.specs.handling.Gates.{revision_of};
ghost use Rattle.xa_server.specs.handling.Replying.{OnlyReads, Opens, ShowsIfSound};
ghost use Rattle.xa_server.specs.Machine.{admitted, admitted_by, by_operator, digest_shown, permitted};
ghost use Rattle.xa_server.specs.Resources.{AllStand};

use crate::authorization::token_in;
use crate::error_code::ErrorCode;
use crate::gates::role_in;
use crate::handling_error::HandlingError;
use crate::resources::Resources;
use crate::revision::Revision;
use std::alloc::Global;
use xa_http::Message;
use xa_notation::Role;
use xa_records::{Digest, Gate, Records};
use xa_value::Text;

/// The digest of the token that the message shows, if it shows one.
fn digest_shown(message: &Message) -> Option<Digest>
    ensures { result ≡ digest_shown message.now }
{
    token_in(message.fields.as_slice()).map(|token| Digest::of(token))
}

/// Lets the message in if it shows the operator's token.
pub(crate) fn admit_operator(operator: Digest, message: &Message) -> Result<(), ErrorCode>
    ensures { result ≡ by_operator operator message.now }
{
    match digest_shown(message) {
        Some(digest) if digest == operator => Ok(()),
        _ => Err(ErrorCode::Unauthorized),
    }
}

/// Whether the role may do what needs that other one: what needs `Admin` is `Forbidden` to `Ask`.
fn permission(role: Role, needed: Role) -> Result<(), ErrorCode>
    ensures { result ≡ permitted role needed }
{
    match (role, needed) {
        (Role::Ask, Role::Admin) => Err(ErrorCode::Forbidden),
        (Role::Ask, Role::Ask) | (Role::Admin, _) => Ok(()),
    }
}

/// The domain's gate, if the digest is that of one of the domain's tokens, whose role may do what is needed.
/// An absent domain and a wrong token are both `Unauthorized`, and both take one call of the keeper.
#[tactic(auto, using(crate::proofs::AdmissionLemmas::role_is))]
fn gate_for<R: Records>(
    alloc: Global,
    records: &mut R,
    name: &Text,
    needed: Role,
    digest: &Digest,
) -> Result<Gate, HandlingError>
    ensures tells { (R.custody records.new).sound
        → Opens (R.custody records.old).kept (R.custody records.new).kept
        (gate_of name.now (R.custody records.old).kept) result
        (admitted_by needed (state_of name.now (R.custody records.old).kept) (Some digest.now)) }
    ensures keeper { OnlyReads (R.custody records.old) (R.custody records.new) result }
{
    let gate = records.gate(alloc, name)?.ok_or(ErrorCode::Unauthorized)?;
    let role = role_in(gate.tokens.as_slice(), digest).ok_or(ErrorCode::Unauthorized)?;
    permission(role, needed)?;
    Ok(gate)
}

/// Lets the message in if it shows one of the domain's tokens, whose role may ask for more than decisions.
pub(crate) fn admit<R: Records>(
    alloc: Global,
    records: &mut R,
    name: &Text,
    message: &Message,
) -> Result<(), HandlingError>
    ensures tells { ShowsIfSound (R.custody records.old) (R.custody records.new) result
        (admitted Admin (state_of name.now (R.custody records.old).kept) message.now) }
    ensures keeper { OnlyReads (R.custody records.old) (R.custody records.new) result }
{
    let digest = digest_shown(message).ok_or(ErrorCode::Unauthorized)?;
    gate_for(alloc, records, name, Role::Admin, &digest)?;
    Ok(())
}

/// Lets a message in that asks for a decision, if it shows one of the domain's tokens, and gives the
/// domain's revision. The gate that is remembered is asked first, and only whether it has the token. If it
/// hasn't, or none is remembered, the keeper is asked, and its gate is remembered. So a token that isn't
/// the domain's takes one call of the keeper, whether the domain is there or not. What that call costs may
/// differ.
pub(crate) fn admit_ask<R: Records>(
    alloc: Global,
    resources: &mut Resources,
    records: &mut R,
    name: &Text,
    message: &Message,
) -> Result<Revision, HandlingError>
    ensures tells { AllStand (R.custody records.old).kept resources.old → (R.custody records.new).sound
        → Opens (R.custody records.old).kept (R.custody records.new).kept
        (revision_of name.now (R.custody records.old).kept) result
        (admitted Ask (state_of name.now (R.custody records.old).kept) message.now) }
    ensures stands { AllStand (R.custody records.old).kept resources.old → (R.custody records.new).sound
        → AllStand (R.custody records.old).kept resources.new }
    ensures decisions { resources.new.decisions ≡ resources.old.decisions }
    ensures views { resources.new.views ≡ resources.old.views }
    ensures keeper { OnlyReads (R.custody records.old) (R.custody records.new) result }
{
    let digest = digest_shown(message).ok_or(ErrorCode::Unauthorized)?;
    if let Some(revision) = resources.revision_by_gate(name, &digest) {
        return Ok(revision);
    }
    let gate = gate_for(alloc, records, name, Role::Ask, &digest)?;
    let revision = Revision::of(&gate);
    resources.remember(name, gate);
    Ok(revision)
}
