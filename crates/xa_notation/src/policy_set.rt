//! Policy sets and their children.
ghost use Rattle.std.specs.Prelude.{◌≡◌};
ghost use Rattle.serde_json.specs.View.{items_view, view};
ghost use Rattle.xa_value.specs.Gives.{Gives};
ghost use Rattle.xa_notation.specs.Json.{each};
ghost use Rattle.xa_notation.specs.Shape.{child_named, too_deep, written_child};
ghost use Rattle.xa_notation.specs.Shape.{written_set_of, written_set_within};

use crate::duties::written_duties;
use crate::json::{check_members, chosen_member, items_if_any, member_at, needed_member};
use crate::member::Member;
use crate::notation_error::NotationError;
use crate::plain_members::{check_description, id, policy_algorithm, version};
use crate::policy::written_policy;
use crate::reference::reference;
use crate::tables::{Choice, Object};
use crate::target::written_target;
use crate::written::{WrittenSet, WrittenSetWithChildren, WrittenTree};
use serde_json::Value as Json;
use std::alloc::Global;
use xa_policy::{DocumentKey, DocumentKind};
use xa_value::{Items, OrMemory};

/// How many policy sets may stand inside one another.
pub(crate) const MAX_SETS: usize = 8;

/// Children in which at most `depth` policy sets stand inside one another.
#[cycle(sets)]
fn written_children(
    alloc: Global,
    values: &[Json],
    depth: usize,
) -> Result<Items<WrittenTree>, OrMemory<NotationError>>
    ensures { Gives result (each (written_child (written_set_within depth)) (items_view values.now)) }
{
    let mut children = Items::new(alloc);
    for value in values {
        children.push(written_child(alloc, value, depth)?)?;
    }
    Ok(children)
}

/// The child that stands under the member's name.
#[cycle(sets)]
fn child_named(
    alloc: Global,
    name: Member,
    value: &Json,
    depth: usize,
) -> Result<WrittenTree, OrMemory<NotationError>>
    ensures { Gives result (child_named (written_set_within depth) name (view value.now)) }
{
    match name {
        Member::Policy => Ok(WrittenTree::Policy(written_policy(alloc, value)?)),
        Member::PolicySet => Ok(written_set_within(alloc, value, depth)?.into_tree()),
        Member::PolicyIdReference => {
            let reference = reference(alloc, DocumentKind::Policy, value)?;
            Ok(WrittenTree::Reference(reference))
        }
        Member::PolicySetIdReference => {
            let reference = reference(alloc, DocumentKind::PolicySet, value)?;
            Ok(WrittenTree::Reference(reference))
        }
        _ => Err(NotationError::UnknownMember.into()),
    }
}

/// A child in which at most `depth` policy sets stand inside one another.
#[cycle(sets)]
#[tactic(auto, unfolding(crate::specs::Shape::written_child))]
fn written_child(
    alloc: Global,
    value: &Json,
    depth: usize,
) -> Result<WrittenTree, OrMemory<NotationError>>
    ensures { Gives result (written_child (written_set_within depth) (view value.now)) }
{
    let name = chosen_member(value, Choice::Child)?;
    child_named(alloc, name, needed_member(value, name)?, depth)
}

/// A policy set (core, section 5.1), in which at most `depth` others stand inside one another.
#[cycle(sets)]
#[tactic(auto, unfolding(crate::specs::Shape::written_set_of))]
fn written_set_of(
    alloc: Global,
    value: &Json,
    depth: usize,
) -> Result<WrittenSetWithChildren, OrMemory<NotationError>>
    ensures { Gives result (written_set_of (written_child (written_set_within depth)) (view value.now)) }
{
    check_members(value, Object::PolicySet)?;
    let id = id(alloc, needed_member(value, Member::PolicySetId)?)?;
    let version = version(needed_member(value, Member::Version)?)?;
    let algorithm = policy_algorithm(needed_member(value, Member::PolicyCombiningAlgId)?)?;
    check_description(member_at(value, Member::Description))?;
    let target = written_target(alloc, member_at(value, Member::Target))?;
    let children = items_if_any(member_at(value, Member::Children))?;
    let children = written_children(alloc, children, depth)?;
    let duties = written_duties(alloc, value)?;
    Ok(WrittenSetWithChildren {
        set: WrittenSet {
            key: DocumentKey {
                kind: DocumentKind::PolicySet,
                id,
                version,
            },
            algorithm,
            target,
            duties,
        },
        children,
    })
}

/// The fault of a policy set that stands inside too many others.
fn too_deep(value: &Json) -> NotationError
    ensures { result ≡ too_deep (view value.now) }
{
    if value.is_object() {
        NotationError::TooLarge
    } else {
        NotationError::BadValue
    }
}

/// A policy set in which at most `depth` stand inside one another, itself included.
#[cycle(sets)]
#[tactic(auto, unfolding(crate::specs::Shape::written_set_within))]
pub(crate) fn written_set_within(
    alloc: Global,
    value: &Json,
    depth: usize,
) -> Result<WrittenSetWithChildren, OrMemory<NotationError>>
    ensures { Gives result (written_set_within depth (view value.now)) }
{
    if depth == 0 {
        return Err(too_deep(value).into());
    }
    written_set_of(alloc, value, depth - 1)
}
