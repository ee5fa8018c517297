//! The body that sets the root of a domain's policies.
ghost use Rattle.std.specs.Prelude.{◌≡◌};
ghost use Rattle.serde_json.specs.View.{view};
ghost use Rattle.xa_value.specs.Gives.{Gives};
ghost use Rattle.xa_notation.specs.Bodies.{chosen_root, root, root_named, root_of};

use crate::json::{chosen_member, json, member_count, needed_member};
use crate::member::Member;
use crate::notation_error::NotationError;
use crate::reference::reference;
use crate::tables::Choice;
use serde_json::Value as Json;
use std::alloc::Global;
use xa_policy::{DocumentKind, Reference};
use xa_value::OrMemory;

/// The reference that stands under the member's name.
fn root_named(
    alloc: Global,
    name: Member,
    value: &Json,
) -> Result<Reference, OrMemory<NotationError>>
    ensures { Gives result (root_named name (view value.now)) }
{
    match name {
        Member::PolicyIdReference => reference(alloc, DocumentKind::Policy, value),
        Member::PolicySetIdReference => reference(alloc, DocumentKind::PolicySet, value),
        _ => Err(NotationError::UnknownMember.into()),
    }
}

/// The reference, of an object that has one.
#[tactic(auto, unfolding(crate::specs::Bodies::chosen_root))]
fn chosen_root(alloc: Global, value: &Json) -> Result<Reference, OrMemory<NotationError>>
    ensures { Gives result (chosen_root (view value.now)) }
{
    let name = chosen_member(value, Choice::Root)?;
    root_named(alloc, name, needed_member(value, name)?)
}

/// The reference, and none of an object without members.
#[tactic(auto, unfolding(crate::specs::Bodies::root))]
fn root(alloc: Global, value: &Json) -> Result<Option<Reference>, OrMemory<NotationError>>
    ensures { Gives result (root (view value.now)) }
{
    if member_count(value)? == 0 {
        return Ok(None);
    }
    Ok(Some(chosen_root(alloc, value)?))
}

/// The root that a body sets, `{"PolicyIdReference":..}` or `{"PolicySetIdReference":..}` with a
/// reference as documents have it (XACML 3.0, core, sections 5.10 and 5.11), and none of `{}`; or its
/// first fault: NotJson, then UnknownMember, also of a second member, then the first fault of the
/// reference. A body that is no object is a BadValue.
#[tactic(auto, unfolding(crate::specs::Bodies::root_of))]
pub fn read_root(alloc: Global, body: &[u8]) -> Result<Option<Reference>, OrMemory<NotationError>>
    ensures { Gives result (root_of body.now) }
{
    let value = json(alloc, body)?;
    root(alloc, &value)
}
