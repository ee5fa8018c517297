//! Ids, versions, effects, algorithms, types, categories and descriptions.
ghost use Rattle.std.specs.Prelude.{◌≡◌, option_map};
ghost use Rattle.serde_json.specs.View.{view};
ghost use Rattle.xa_value.specs.Gives.{Gives};
ghost use Rattle.xa_notation.specs.Json.{optional};
ghost use Rattle.xa_notation.specs.Values.{category, data_type, description, effect, effect_named};
ghost use Rattle.xa_notation.specs.Values.{id, pattern, policy_algorithm, rule_algorithm, version};

use crate::algorithm::{policy_algorithm_named, rule_algorithm_named};
use crate::json::text;
use crate::notation_error::NotationError;
use serde_json::Value as Json;
use std::alloc::Global;
use xa_policy::{Alg, Effect, Pattern, Version};
use xa_value::{DataType, OrMemory, Text, category_uri};

/// The most bytes of the id of a policy or a policy set: a bound of this project's own, so that ids fit
/// a path.
const MAX_ID_BYTES: usize = 512;

/// A copy of the id of a policy or a policy set, of 1 to 512 bytes; the fault is BadValue.
pub(crate) fn id(alloc: Global, value: &Json) -> Result<Text, OrMemory<NotationError>>
    ensures { Gives result (id (view value.now)) }
{
    let id = text(value)?;
    if id.is_empty() || id.len() > MAX_ID_BYTES {
        return Err(NotationError::BadValue.into());
    }
    Ok(Text::new(alloc, id)?)
}

/// A version; the fault is BadValue.
pub(crate) fn version(value: &Json) -> Result<Version, NotationError>
    ensures { result ≡ version (view value.now) }
{
    Version::read(text(value)?).map_err(|_| NotationError::BadValue)
}

/// A pattern of versions; the fault is BadValue.
pub(crate) fn pattern(value: &Json) -> Result<Pattern, NotationError>
    ensures { result ≡ pattern (view value.now) }
{
    Pattern::read(text(value)?).map_err(|_| NotationError::BadValue)
}

/// A version that may be left out.
pub(crate) fn optional_version(value: Option<&Json>) -> Result<Option<Version>, NotationError>
    ensures { result ≡ optional version (option_map (λ v. view v.now) value.entry) }
{
    match value {
        Some(value) => Ok(Some(version(value)?)),
        None => Ok(None),
    }
}

/// A pattern that may be left out.
pub(crate) fn optional_pattern(value: Option<&Json>) -> Result<Option<Pattern>, NotationError>
    ensures { result ≡ optional pattern (option_map (λ v. view v.now) value.entry) }
{
    match value {
        Some(value) => Ok(Some(pattern(value)?)),
        None => Ok(None),
    }
}

/// The effect of the name; the fault is BadValue.
#[tactic(auto, unfolding(crate::specs::Values::effect_named))]
fn effect_named(text: &str) -> Result<Effect, NotationError>
    ensures { result ≡ effect_named text.now }
{
    match text {
        "Permit" => Ok(Effect::Permit),
        "Deny" => Ok(Effect::Deny),
        _ => Err(NotationError::BadValue),
    }
}

/// An effect, by its name; the fault is BadValue.
pub(crate) fn effect(value: &Json) -> Result<Effect, NotationError>
    ensures { result ≡ effect (view value.now) }
{
    effect_named(text(value)?)
}

/// The algorithm of a policy. The faults are BadValue of what is no text, and UnknownAlgorithm.
pub(crate) fn rule_algorithm(value: &Json) -> Result<Alg, NotationError>
    ensures { result ≡ rule_algorithm (view value.now) }
{
    rule_algorithm_named(text(value)?).ok_or(NotationError::UnknownAlgorithm)
}

/// The algorithm of a policy set, with the same faults.
pub(crate) fn policy_algorithm(value: &Json) -> Result<Alg, NotationError>
    ensures { result ≡ policy_algorithm (view value.now) }
{
    policy_algorithm_named(text(value)?).ok_or(NotationError::UnknownAlgorithm)
}

/// A data type, by its URI or its name alone; the fault is BadValue.
pub fn data_type(value: &Json) -> Result<DataType, NotationError>
    ensures { result ≡ data_type (view value.now) }
{
    DataType::from_uri(text(value)?).ok_or(NotationError::BadValue)
}

/// A copy of the URI of a category. The value is its shorthand, or any text; the fault is BadValue.
pub fn category(alloc: Global, value: &Json) -> Result<Text, OrMemory<NotationError>>
    ensures { Gives result (category (view value.now)) }
{
    Ok(Text::new(alloc, category_uri(text(value)?))?)
}

/// A copy of the URI of a category that may be left out.
pub(crate) fn optional_category(
    alloc: Global,
    value: Option<&Json>,
) -> Result<Option<Text>, OrMemory<NotationError>>
    ensures { Gives result (optional category (option_map (λ v. view v.now) value.entry)) }
{
    match value {
        Some(value) => Ok(Some(category(alloc, value)?)),
        None => Ok(None),
    }
}

/// Checks a description, which is a text that may be left out; the fault is BadValue.
pub(crate) fn check_description(value: Option<&Json>) -> Result<(), NotationError>
    ensures { result ≡ description (option_map (λ v. view v.now) value.entry) }
{
    match value {
        Some(value) => {
            text(value)?;
            Ok(())
        }
        None => Ok(()),
    }
}
