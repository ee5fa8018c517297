//! The JSON of a body, as a tree that borrows its texts from it.
ghost use Rattle.std.specs.Prelude.{◌≡◌, ◌≢◌, Ok, Err, Some, None, IfOk, IfErr, MatchResult};
ghost use Rattle.json.specs.Value.{value_view, items_view, members_view};
ghost use Rattle.serde_json.specs.Read.{read};
ghost use Rattle.xa_value.specs.Gives.{Gives};
ghost use Rattle.xa_profile.specs.Json.{json};
ghost use Rattle.xa_profile.specs.parsing.Tree.{is_readable, items_are_readable, members_are_readable, view};

use crate::number::number;
use crate::request_error::RequestError;
use json::{Error, Reader, Scratch, Value as Json};
use simdutf8::basic::from_utf8;
use std::alloc::Global;
use xa_value::OrMemory;

/// How deep arrays and objects may nest: as deep as `serde_json` reads them.
const MAX_DEPTH: usize = 127;

/// Whether the value holds no number that is too large.
#[cycle(is_readable)]
fn is_readable(value: &Json<'_>) -> bool
    ensures { result ≡ is_readable (value_view value.now) }
{
    match value {
        Json::Number(text) => number(text).is_some(),
        Json::Array(items) => items_are_readable(items),
        Json::Object(members) => members_are_readable(members),
        Json::Null | Json::Bool(_) | Json::String(_) => true,
    }
}

/// Whether no item holds a number that is too large.
#[cycle(is_readable)]
fn items_are_readable(items: &Vec<Json<'_>>) -> bool
    ensures { result ≡ items_are_readable (items_view items.now.items) }
{
    for item in items {
        if !is_readable(item) {
            return false;
        }
    }
    true
}

/// Whether no member's value holds a number that is too large.
#[cycle(is_readable)]
fn members_are_readable<'a>(members: &Vec<(&'a str, Json<'a>)>) -> bool
    ensures { result ≡ members_are_readable (members_view members.now.items) }
{
    for member in members {
        if !is_readable(&member.1) {
            return false;
        }
    }
    true
}

/// The JSON of a text. A number that is too large makes it invalid.
fn value_of<'a>(alloc: Global, text: &'a str, scratch: &'a mut Scratch) -> Result<Json<'a>, Error>
    ensures ok { IfOk result (λ v. read text.now ≡ Some (view v)) }
    ensures invalid { IfErr result (λ e. e ≢ Error.OutOfMemory → read text.now ≡ None) }
{
    let mut reader = Reader::new(text, scratch)?;
    let value = Json::read(alloc, &mut reader, MAX_DEPTH)?;
    if reader.next().is_some() {
        return Err(Error::Invalid);
    }
    if !is_readable(&value) {
        return Err(Error::Invalid);
    }
    Ok(value)
}

/// The JSON of a body. A text that has escapes stands in the scratch room without them; every other text
/// is that of the body.
#[tactic(auto, unfolding(crate::specs::Json::json))]
pub(crate) fn json<'a>(
    alloc: Global,
    body: &'a [u8],
    scratch: &'a mut Scratch,
) -> Result<Json<'a>, OrMemory<RequestError>>
    ensures { MatchResult result (λ v. json body.now ≡ Ok (view v)) (λ e. Gives (Err e) (json body.now)) }
{
    let Ok(text) = from_utf8(body) else {
        return Err(OrMemory::Error(RequestError::NotJson));
    };
    match value_of(alloc, text, scratch) {
        Ok(value) => Ok(value),
        Err(Error::OutOfMemory) => Err(OrMemory::Memory),
        Err(_) => Err(OrMemory::Error(RequestError::NotJson)),
    }
}
