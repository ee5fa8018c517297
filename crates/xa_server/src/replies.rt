//! The replies of a server: bytes that it sent, or a refusal and its fixed 503.
ghost use Rattle.std.specs.Prelude.{◌≡◌, IfOk};
ghost use Rattle.xa_http.specs.Reply.{http_bytes};
ghost use Rattle.xa_server.specs.Replies.{bytes_of, created_reply, decision_reply};
ghost use Rattle.xa_server.specs.Replies.{done_reply, json_reply, unavailable_reply};

use http::StatusCode;
use std::alloc::{AllocError, Global};
use xa_http::{Extra, Media, reply};
use xa_records::Failure;
use xa_value::Items;

/// The reply of a message that is refused (RFC 9110, section 15.6.4).
const UNAVAILABLE: &[u8] =
    b"HTTP/1.1 503 Service Unavailable\r\nContent-Type: application/json\r\nContent-Length: 23\r\n\r\n{\"Error\":\"Unavailable\"}";

/// What a message gets: the bytes of its reply, or a refusal.
#[derive(Debug, Drop)]
pub enum Reply {
    /// The bytes of the reply.
    Sent(Items<u8>),
    /// No answer of its own; nothing has changed. `Store`: the storage failed. `Memory`: there was none, or a
    /// limit of the server's was reached; `Server::take_refused` tells which of both.
    Refused(Failure),
}

impl Reply {
    /// The bytes that are sent: of a refused message the fixed 503 (RFC 9110, section 15.6.4).
    pub fn bytes(&self) -> &[u8]
        ensures { result.now ≡ bytes_of self.now }
    {
        match self {
            Reply::Sent(bytes) => bytes.as_slice(),
            Reply::Refused(_) => unavailable_reply(),
        }
    }
}

/// The reply of a message that is refused: the fixed 503.
#[tactic(auto, using(crate::proofs::ReplyLemmas::unavailable_is))]
fn unavailable_reply() -> &'static [u8]
    ensures { result.now ≡ unavailable_reply }
{
    UNAVAILABLE
}

/// The reply of a message that is turned away: the fixed 503, too. It is sent, and no refusal.
pub(crate) fn turned_away_reply(alloc: Global) -> Result<Items<u8>, AllocError>
    ensures { IfOk result (λ bytes. bytes ≡ unavailable_reply) }
{
    Ok(Items::from_vec(Vec::from_slice(alloc, unavailable_reply())?))
}

/// The bytes of a reply of that status, with that media type, extra field and body.
pub(crate) fn items_of_reply(
    alloc: Global,
    status: StatusCode,
    media: Media,
    extra: Extra,
    body: &[u8],
) -> Result<Items<u8>, AllocError>
    ensures { IfOk result (λ bytes. bytes ≡ http_bytes status media extra body.now) }
{
    Ok(Items::from_vec(reply(alloc, status, media, extra, body)?))
}

/// The reply with what was read.
#[tactic(auto, unfolding(crate::specs::Replies::json_reply))]
pub(crate) fn json_reply(alloc: Global, body: &[u8]) -> Result<Items<u8>, AllocError>
    ensures { IfOk result (λ bytes. bytes ≡ json_reply body.now) }
{
    items_of_reply(alloc, StatusCode::OK, Media::Json, Extra::Nothing, body)
}

/// The reply with a response.
#[tactic(auto, unfolding(crate::specs::Replies::decision_reply))]
pub(crate) fn decision_reply(alloc: Global, body: &[u8]) -> Result<Items<u8>, AllocError>
    ensures { IfOk result (λ bytes. bytes ≡ decision_reply body.now) }
{
    items_of_reply(
        alloc,
        StatusCode::OK,
        Media::XacmlJson,
        Extra::Nothing,
        body,
    )
}

/// The reply to a change that was made.
#[tactic(auto, unfolding(crate::specs::Replies::done_reply))]
pub(crate) fn done_reply(alloc: Global) -> Result<Items<u8>, AllocError>
    ensures { IfOk result (λ bytes. bytes ≡ done_reply) }
{
    items_of_reply(alloc, StatusCode::OK, Media::Json, Extra::Nothing, b"{}")
}

/// The reply to a change that has put something where nothing was.
#[tactic(auto, unfolding(crate::specs::Replies::created_reply))]
pub(crate) fn created_reply(alloc: Global) -> Result<Items<u8>, AllocError>
    ensures { IfOk result (λ bytes. bytes ≡ created_reply) }
{
    items_of_reply(
        alloc,
        StatusCode::CREATED,
        Media::Json,
        Extra::Nothing,
        b"{}",
    )
}
