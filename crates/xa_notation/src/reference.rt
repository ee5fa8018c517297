//! References to policies and policy sets.
ghost use Rattle.std.specs.Prelude.{◌≡◌};
ghost use Rattle.serde_json.specs.View.{view};
ghost use Rattle.xa_value.specs.Gives.{Gives};
ghost use Rattle.xa_notation.specs.Shape.{reference};

use crate::json::{check_members, member_at, needed_member, text_copy};
use crate::member::Member;
use crate::notation_error::NotationError;
use crate::plain_members::{optional_pattern, optional_version};
use crate::tables::Object;
use serde_json::Value as Json;
use std::alloc::Global;
use xa_policy::{DocumentKind, Reference};
use xa_value::OrMemory;

/// A reference (XACML 3.0, core, sections 5.10 and 5.11).
#[tactic(auto, unfolding(crate::specs::Shape::reference))]
pub(crate) fn reference(
    alloc: Global,
    kind: DocumentKind,
    value: &Json,
) -> Result<Reference, OrMemory<NotationError>>
    ensures { Gives result (reference kind (view value.now)) }
{
    check_members(value, Object::Reference)?;
    let id = text_copy(alloc, needed_member(value, Member::Id)?)?;
    let pattern = optional_pattern(member_at(value, Member::Version))?;
    let earliest = optional_version(member_at(value, Member::EarliestVersion))?;
    let latest = optional_version(member_at(value, Member::LatestVersion))?;
    Ok(Reference {
        kind,
        id,
        version: pattern,
        earliest,
        latest,
    })
}
