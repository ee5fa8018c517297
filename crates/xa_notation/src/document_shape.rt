//! The shape of a whole document.
ghost use Rattle.std.specs.Prelude.{◌≡◌};
ghost use Rattle.serde_json.specs.View.{view};
ghost use Rattle.xa_value.specs.Gives.{Gives};
ghost use Rattle.xa_notation.specs.Shape.{document_named, written_document};

use crate::json::{chosen_member, needed_member};
use crate::member::Member;
use crate::notation_error::NotationError;
use crate::policy::written_policy;
use crate::policy_set::{MAX_SETS, written_set_within};
use crate::tables::Choice;
use crate::written::WrittenDocument;
use serde_json::Value as Json;
use std::alloc::Global;
use xa_value::OrMemory;

/// The document that stands under the member's name.
fn document_named(
    alloc: Global,
    name: Member,
    value: &Json,
) -> Result<WrittenDocument, OrMemory<NotationError>>
    ensures { Gives result (document_named name (view value.now)) }
{
    match name {
        Member::Policy => Ok(written_policy(alloc, value)?.into_document()?),
        Member::PolicySet => Ok(written_set_within(alloc, value, MAX_SETS)?.into_document()?),
        _ => Err(NotationError::UnknownMember.into()),
    }
}

/// A whole document.
#[tactic(auto, unfolding(crate::specs::Shape::written_document))]
pub(crate) fn written_document(
    alloc: Global,
    value: &Json,
) -> Result<WrittenDocument, OrMemory<NotationError>>
    ensures { Gives result (written_document (view value.now)) }
{
    let name = chosen_member(value, Choice::Document)?;
    document_named(alloc, name, needed_member(value, name)?)
}
