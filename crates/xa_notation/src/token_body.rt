//! The bodies by which a domain gets and loses tokens.
ghost use Rattle.std.specs.Prelude.{◌≡◌};
ghost use Rattle.serde_json.specs.View.{view};
ghost use Rattle.xa_value.specs.Gives.{Gives};
ghost use Rattle.xa_notation.specs.Bodies.{new_token, new_token_of, old_token};
ghost use Rattle.xa_notation.specs.Bodies.{old_token_of, role, role_named, token};

use crate::json::{check_members, json, needed_member, text};
use crate::member::Member;
use crate::notation_error::NotationError;
use crate::tables::Object;
use crate::token::{Role, is_token};
use serde_json::Value as Json;
use std::alloc::Global;
use xa_value::{OrMemory, Text};

/// A token that a domain gets. It isn't `Debug`: a token that gets into a log is no secret any more.
#[derive(Drop)]
pub struct NewToken {
    /// What it may do.
    pub role: Role,
    /// The token, 8 to 64 visible ASCII characters.
    pub token: Text,
}

/// The role of the name; the fault is BadValue.
#[tactic(auto, unfolding(crate::specs::Bodies::role_named))]
fn role_named(text: &str) -> Result<Role, NotationError>
    ensures { result ≡ role_named text.now }
{
    match text {
        "ask" => Ok(Role::Ask),
        "admin" => Ok(Role::Admin),
        _ => Err(NotationError::BadValue),
    }
}

/// A role, by its name; the fault is BadValue.
fn role(value: &Json) -> Result<Role, NotationError>
    ensures { result ≡ role (view value.now) }
{
    role_named(text(value)?)
}

/// A copy of a text that is a token; the fault is BadValue.
fn token(alloc: Global, value: &Json) -> Result<Text, OrMemory<NotationError>>
    ensures { Gives result (token (view value.now)) }
{
    let token = text(value)?;
    if !is_token(token.as_bytes()) {
        return Err(NotationError::BadValue.into());
    }
    Ok(Text::new(alloc, token)?)
}

/// The token and its role, of an object with these members.
#[tactic(auto, unfolding(crate::specs::Bodies::new_token))]
fn new_token(alloc: Global, value: &Json) -> Result<NewToken, OrMemory<NotationError>>
    ensures { Gives result (new_token (view value.now)) }
{
    check_members(value, Object::NewToken)?;
    let role = role(needed_member(value, Member::Role)?)?;
    let token = token(alloc, needed_member(value, Member::Token)?)?;
    Ok(NewToken { role, token })
}

/// The token, of an object with this member.
#[tactic(auto, unfolding(crate::specs::Bodies::old_token))]
fn old_token(alloc: Global, value: &Json) -> Result<Text, OrMemory<NotationError>>
    ensures { Gives result (old_token (view value.now)) }
{
    check_members(value, Object::OldToken)?;
    token(alloc, needed_member(value, Member::Token)?)
}

/// The token that a body gives to a domain, `{"Role":"ask","Token":".."}`, or its first fault: NotJson, then
/// UnknownMember, then MissingMember, then BadValue of the role and of the token. The role is `ask` or
/// `admin`, and the token has 8 to 64 visible ASCII characters. A body that is no object is a BadValue.
#[tactic(auto, unfolding(crate::specs::Bodies::new_token_of))]
pub fn read_new_token(alloc: Global, body: &[u8]) -> Result<NewToken, OrMemory<NotationError>>
    ensures { Gives result (new_token_of body.now) }
{
    let value = json(alloc, body)?;
    new_token(alloc, &value)
}

/// The token that a body takes from a domain, `{"Token":".."}`, or its first fault, as of [`read_new_token`].
#[tactic(auto, unfolding(crate::specs::Bodies::old_token_of))]
pub fn read_old_token(alloc: Global, body: &[u8]) -> Result<Text, OrMemory<NotationError>>
    ensures { Gives result (old_token_of body.now) }
{
    let value = json(alloc, body)?;
    old_token(alloc, &value)
}
