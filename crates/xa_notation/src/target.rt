//! Targets.
ghost use Rattle.std.specs.Prelude.{◌≡◌, option_map};
ghost use Rattle.serde_json.specs.View.{items_view, view};
ghost use Rattle.std.specs.Result.{result_map_both};
ghost use Rattle.xa_value.specs.Gives.{Gives};
ghost use Rattle.xa_notation.specs.Json.{not_empty};
ghost use Rattle.xa_notation.specs.Shape.{written_all_of, written_any_of, written_match};
ghost use Rattle.xa_notation.specs.Shape.{written_target, written_target_of};

use crate::attribute::{attribute_value, designator};
use crate::json::{
    Reader, check_members, each, items, items_if_any, member_at, needed_member, not_empty,
    text_copy,
};
use crate::member::Member;
use crate::notation_error::NotationError;
use crate::tables::Object;
use crate::written::{WrittenAllOf, WrittenAnyOf, WrittenMatch, WrittenTarget};
use serde_json::Value as Json;
use std::alloc::Global;
use xa_value::OrMemory;

/// Reads a match (XACML 3.0, core, section 5.9).
#[derive(Drop)]
struct MatchReader;

impl Reader for MatchReader {
    type Output = WrittenMatch;

    ghost reads = { λ _ d. written_match d };

    #[tactic(auto, unfolding(crate::specs::Shape::written_match))]
    fn read(&self, alloc: Global, value: &Json) -> Result<WrittenMatch, OrMemory<NotationError>> {
        check_members(value, Object::Match)?;
        let function = text_copy(alloc, needed_member(value, Member::MatchId)?)?;
        let literal = attribute_value(alloc, needed_member(value, Member::AttributeValue)?)?;
        let designator = designator(alloc, needed_member(value, Member::AttributeDesignator)?)?;
        Ok(WrittenMatch {
            function,
            literal,
            designator,
        })
    }
}

/// Reads matches that must all be true (core, section 5.8).
#[derive(Drop)]
struct AllOfReader;

impl Reader for AllOfReader {
    type Output = WrittenAllOf;

    ghost reads = { λ _ d. written_all_of d };

    #[tactic(auto, unfolding(crate::specs::Shape::written_all_of))]
    fn read(&self, alloc: Global, value: &Json) -> Result<WrittenAllOf, OrMemory<NotationError>> {
        check_members(value, Object::AllOf)?;
        let values = not_empty(items(needed_member(value, Member::Match)?)?)?;
        let matches = each(alloc, &MatchReader, values)?;
        Ok(WrittenAllOf { matches })
    }
}

/// Reads alternatives of which one must match (core, section 5.7).
#[derive(Drop)]
struct AnyOfReader;

impl Reader for AnyOfReader {
    type Output = WrittenAnyOf;

    ghost reads = { λ _ d. written_any_of d };

    #[tactic(auto, unfolding(crate::specs::Shape::written_any_of))]
    fn read(&self, alloc: Global, value: &Json) -> Result<WrittenAnyOf, OrMemory<NotationError>> {
        check_members(value, Object::AnyOf)?;
        let values = not_empty(items(needed_member(value, Member::AllOf)?)?)?;
        let all_of = each(alloc, &AllOfReader, values)?;
        Ok(WrittenAnyOf { all_of })
    }
}

/// A target (core, section 5.6).
#[tactic(auto, unfolding(crate::specs::Shape::written_target_of))]
fn written_target_of(alloc: Global, value: &Json) -> Result<WrittenTarget, OrMemory<NotationError>>
    ensures { Gives result (written_target_of (view value.now)) }
{
    check_members(value, Object::Target)?;
    let values = items_if_any(member_at(value, Member::AnyOf))?;
    let any_of = each(alloc, &AnyOfReader, values)?;
    Ok(WrittenTarget { any_of })
}

/// A target that may be left out, and is empty then.
pub(crate) fn written_target(
    alloc: Global,
    value: Option<&Json>,
) -> Result<WrittenTarget, OrMemory<NotationError>>
    ensures { Gives result (written_target (option_map (λ v. view v.now) value.entry)) }
{
    match value {
        Some(value) => written_target_of(alloc, value),
        None => Ok(WrittenTarget::empty(alloc)),
    }
}
