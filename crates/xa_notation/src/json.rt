//! How objects, their members and plain values are read from JSON.
ghost use Rattle.std.specs.Prelude.{◌≡◌, Result, is_some, option_map, MatchResult};
ghost use Rattle.std.specs.Option.{ok_or};
ghost use Rattle.std.specs.Result.{result_map_both};
ghost use Rattle.serde_json.specs.Data.{Data};
ghost use Rattle.serde_json.specs.Find.{as_object};
ghost use Rattle.serde_json.specs.View.{view, items_view, members_view};
ghost use Rattle.xa_value.specs.Gives.{Gives};
ghost use Rattle.xa_notation.specs.declared.notation_error.NotationError.{NotationError as ReadFault};
ghost use Rattle.xa_notation.specs.Json.{json, at, needed_member, is_named, has_only};
ghost use Rattle.xa_notation.specs.Json.{knows, has_entry, has_needed, fits, size_of};
ghost use Rattle.xa_notation.specs.Json.{present_member, sole_member, chosen_member, text};
ghost use Rattle.xa_notation.specs.Json.{flag, items, items_if_any, not_empty, optional, each};
ghost use Rattle.xa_notation.specs.parsing.Json.{behind};

use crate::member::Member;
use crate::notation_error::NotationError;
use crate::tables::{Choice, Entry, Object};
use serde_json::{Map, Value as Json};
use std::alloc::Global;
use xa_value::{Items, OrMemory, Text};

/// What is read from one value.
pub trait Reader {
    /// What a value is read as.
    type Output;

    /// What the value stands for.
    ghost reads: { Self → Data → Result Self.Output ReadFault };

    /// What the value stands for, or its first fault.
    fn read(&self, alloc: Global, value: &Json) -> Result<Self::Output, OrMemory<NotationError>>
        ensures { Gives result (reads self.now (view value.now)) };
}

/// The JSON that a text is (RFC 8259); the fault is NotJson. Of several members of one name the last one
/// counts.
#[tactic(auto, unfolding(crate::specs::Json::json))]
pub fn json(alloc: Global, text: &[u8]) -> Result<Json, OrMemory<NotationError>>
    ensures { MatchResult result (λ v. json text.now ≡ Ok (view v)) (λ e. Gives (Err e) (json text.now)) }
{
    match Json::from_slice(alloc, text) {
        Ok(value) => Ok(value),
        Err(error) if error.is_memory() => Err(OrMemory::Memory),
        Err(_) => Err(OrMemory::Error(NotationError::NotJson)),
    }
}

/// The member, if it is there.
pub fn member_at(value: &Json, name: Member) -> Option<&Json>
    ensures { option_map (λ v. view v.now) result ≡ at name (view value.now) }
{
    value.get(name.name())
}

/// The member, which has to be there; the fault is MissingMember.
pub fn needed_member(value: &Json, name: Member) -> Result<&Json, NotationError>
    ensures { result_map_both (λ v. view v.now) (λ e. e) result ≡ needed_member name (view value.now) }
{
    member_at(value, name).ok_or(NotationError::MissingMember(name))
}

/// The members of an object; the fault is BadValue.
fn members(value: &Json) -> Result<&Map<String, Json>, NotationError>
    ensures { result_map_both (λ m. members_view m.now.entries) (λ e. e) result
        ≡ ok_or (as_object (view value.now)) NotationError.BadValue }
{
    value.as_object().ok_or(NotationError::BadValue)
}

/// Whether the table has a member of the name.
fn is_named(entries: &[Entry], name: &str) -> bool
    ensures { result ≡ is_named entries.now name.now }
{
    entries.iter().any(|entry| entry.is_of(name))
}

/// Whether the table has all these members.
fn has_only(entries: &[Entry], members: &Map<String, Json>) -> bool
    ensures { result ≡ has_only entries.now (members_view members.now.entries) }
{
    for (name, _) in members.iter() {
        if !is_named(entries, name.as_str()) {
            return false;
        }
    }
    true
}

/// Checks that the value is an object, else BadValue, and has no members but those of the table, else
/// UnknownMember.
fn check_known(value: &Json, entries: &[Entry]) -> Result<(), NotationError>
    ensures { result ≡ knows entries.now (view value.now) }
{
    if has_only(entries, members(value)?) {
        Ok(())
    } else {
        Err(NotationError::UnknownMember)
    }
}

/// Checks that the member is there if the entry says that it has to be; the fault is MissingMember.
fn check_entry(value: &Json, entry: Entry) -> Result<(), NotationError>
    ensures { result ≡ has_entry entry (view value.now) }
{
    match entry {
        Entry::Required(name) => {
            needed_member(value, name)?;
            Ok(())
        }
        Entry::Optional(_) => Ok(()),
    }
}

/// Checks that all members are there that the table says have to be; the fault is MissingMember, of the
/// first in table order.
fn check_needed(value: &Json, entries: &[Entry]) -> Result<(), NotationError>
    ensures { result ≡ has_needed entries.now (view value.now) }
{
    for entry in entries {
        check_entry(value, *entry)?;
    }
    Ok(())
}

/// Checks that the value is an object whose members are those of its table. The faults are, in this
/// order, BadValue of what is no object, UnknownMember, and MissingMember in table order.
#[tactic(auto, unfolding(crate::specs::Json::fits))]
pub fn check_members(value: &Json, object: Object) -> Result<(), NotationError>
    ensures { result ≡ fits object (view value.now) }
{
    check_known(value, object.members())?;
    check_needed(value, object.members())
}

/// Whether the member is there.
fn has_member(value: &Json, name: Member) -> bool
    ensures { result ≡ is_some (at name (view value.now)) }
{
    member_at(value, name).is_some()
}

/// The first of these members that is there.
fn present_member(value: &Json, names: &[Member]) -> Option<Member>
    ensures { result ≡ present_member names.now (view value.now) }
{
    names.iter().copied().find(|name| has_member(value, *name))
}

/// The one that is there, of an object of that many members.
fn sole_member(first: Member, count: usize, found: Option<Member>) -> Result<Member, NotationError>
    ensures { result ≡ sole_member first count found }
{
    match (count, found) {
        (0, _) => Err(NotationError::MissingMember(first)),
        (1, Some(name)) => Ok(name),
        _ => Err(NotationError::UnknownMember),
    }
}

/// How many members an object has; the fault is BadValue.
#[tactic(auto, using(crate::proofs::JsonLemmas::count_of_members_view))]
pub(crate) fn member_count(value: &Json) -> Result<usize, NotationError>
    ensures { result ≡ size_of (view value.now) }
{
    Ok(members(value)?.len())
}

/// The one of the alternatives that is there, of an object of one member. The faults are BadValue of what
/// is no object, MissingMember of the first alternative if there is no member, and UnknownMember.
#[tactic(auto, unfolding(crate::specs::Json::chosen_member))]
pub(crate) fn chosen_member(value: &Json, choice: Choice) -> Result<Member, NotationError>
    ensures { result ≡ chosen_member choice (view value.now) }
{
    let count = member_count(value)?;
    sole_member(
        choice.first(),
        count,
        present_member(value, choice.alternatives()),
    )
}

/// A text; the fault is BadValue.
pub(crate) fn text(value: &Json) -> Result<&str, NotationError>
    ensures { result_map_both (λ t. t.now) (λ e. e) result ≡ text (view value.now) }
{
    value.as_str().ok_or(NotationError::BadValue)
}

/// A copy of a text; the fault is BadValue.
pub fn text_copy(alloc: Global, value: &Json) -> Result<Text, OrMemory<NotationError>>
    ensures { Gives result (text (view value.now)) }
{
    Ok(Text::new(alloc, text(value)?)?)
}

/// A copy of a text that may be left out; the fault is BadValue.
pub fn optional_text(
    alloc: Global,
    value: Option<&Json>,
) -> Result<Option<Text>, OrMemory<NotationError>>
    ensures { Gives result (optional text (option_map (λ v. view v.now) value.entry)) }
{
    match value {
        Some(value) => Ok(Some(text_copy(alloc, value)?)),
        None => Ok(None),
    }
}

/// True or false; the fault is BadValue.
pub(crate) fn flag(value: &Json) -> Result<bool, NotationError>
    ensures { result ≡ flag (view value.now) }
{
    value.as_bool().ok_or(NotationError::BadValue)
}

/// An array's items; the fault is BadValue.
pub fn items(value: &Json) -> Result<&[Json], NotationError>
    ensures { result_map_both (λ vs. items_view vs.now) (λ e. e) result ≡ items (view value.now) }
{
    let items = value.as_array().ok_or(NotationError::BadValue)?;
    Ok(items.as_slice())
}

/// The items of an array that may be left out, and has none then; the fault is BadValue.
pub(crate) fn items_if_any(value: Option<&Json>) -> Result<&[Json], NotationError>
    ensures { result_map_both (λ vs. items_view vs.now) (λ e. e) result
        ≡ items_if_any (option_map (λ v. view v.now) value.entry) }
{
    match value {
        Some(value) => items(value),
        None => Ok(&[]),
    }
}

/// The items, of which there has to be one at least; the fault is BadValue.
#[tactic(auto, using(crate::proofs::JsonLemmas::some_items))]
pub(crate) fn not_empty(items: &[Json]) -> Result<&[Json], NotationError>
    ensures { result_map_both (λ vs. items_view vs.now) (λ e. e) result ≡ not_empty (items_view items.now) }
{
    let [_, ..] = items else {
        return Err(NotationError::BadValue);
    };
    Ok(items)
}

/// Each of the values, read in order, after the items. `each` gives none: they are a parameter for the
/// prover, since what the loop keeps is this clause of the items so far.
fn each_behind<R: Reader>(
    alloc: Global,
    mut items: Items<R::Output>,
    reader: &R,
    values: &[Json],
) -> Result<Items<R::Output>, OrMemory<NotationError>>
where
    R::Output: Drop,
    ensures { Gives result (behind items (each (R.reads reader.now) (items_view values.now))) }
{
    for value in values {
        items.push(reader.read(alloc, value)?)?;
    }
    Ok(items)
}

/// Each of the values, read in order; the fault is the first of them.
#[tactic(auto, using(crate::proofs::JsonLemmas::behind_none))]
pub fn each<R: Reader>(
    alloc: Global,
    reader: &R,
    values: &[Json],
) -> Result<Items<R::Output>, OrMemory<NotationError>>
where
    R::Output: Drop,
    ensures { Gives result (each (R.reads reader.now) (items_view values.now)) }
{
    each_behind(alloc, Items::new(alloc), reader, values)
}
