//! What stands at the front of a stream: a whole head, the beginning of one, or none that is taken.
ghost use Rattle.std.specs.Prelude.{◌≡◌, ◌+◌, ◌≤◌, length, drop, IfOk, IsSome, MatchBool, MatchOption};
ghost use Rattle.httparse.specs.Grammar.{HasNoRequest, MayBecomeRequest};
ghost use Rattle.httparse.specs.Spans.{RequestExceeds};
ghost use Rattle.xa_http.specs.Messages.{window, BeginsWithMessage, BeginsWithSome, IsUnfinished};
ghost use Rattle.xa_http.specs.parsing.Front.{HasHead, IsFront, IsHeadOf};

use crate::fault::SessionFault;
use crate::head::read_head;
use crate::length::body_length;
use crate::limits::{MAX_FIELDS, MAX_HEAD_BYTES};
use crate::message::Message;
use httparse::spans::{EMPTY_HEADER_SPAN, HeaderSpan, parse_request};
use httparse::{Error, Status};
use std::alloc::{AllocError, Global};
use xa_value::Items;

/// The offsets of at most this many field lines are read. More don't fit into a head: each has a
/// colon and a line end.
const HEADER_ROOM: usize = 8_192;

/// A whole head.
#[derive(Debug, Drop)]
pub(crate) struct Head {
    /// The message without its body.
    pub(crate) message: Message,
    /// How many bytes the head has.
    pub(crate) len: usize,
    /// How many bytes the body has.
    pub(crate) body_len: usize,
}

/// What stands at the front of a stream.
pub(crate) enum Beginning {
    /// A whole head.
    Head(Head),
    /// Not yet a whole head.
    More,
    /// No message that is taken, and why.
    Fault(SessionFault),
}

/// The bytes in which a head is looked for.
#[tactic(auto, using(std::proofs::lemmas::List::take_min), unfolding(crate::specs::Messages::window))]
fn window(held: &[u8]) -> &[u8]
    ensures front { result.now ≡ window held.now }
    ensures within { length result.now ≤ length held.now }
{
    let len = MAX_HEAD_BYTES.min(held.len());
    &held[..len]
}

/// The front of bytes in which no head is whole.
#[tactic(auto, unfolding(crate::specs::Messages::IsUnfinished, crate::specs::Messages::IsFaulty))]
fn front_of_open_head(held: &[u8]) -> Beginning
    requires none { HasNoRequest (window held.now) }
    requires open { MayBecomeRequest (window held.now) }
    ensures { IsFront held.now result }
{
    if held.len() < MAX_HEAD_BYTES {
        Beginning::More
    } else {
        Beginning::Fault(SessionFault::HeadTooLarge)
    }
}

/// The front of bytes that begin with the head of that message, which has `len` bytes.
#[tactic(auto, using(crate::proofs::FrontLemmas::has_head))]
fn whole_head(held: &[u8], message: Message, len: usize) -> Beginning
    requires { IsHeadOf (window held.now) message len }
    ensures { IsFront held.now result }
{
    match body_length(message.fields.as_slice()) {
        Ok(body_len) => Beginning::Head(Head {
            message,
            len,
            body_len,
        }),
        Err(fault) => Beginning::Fault(fault),
    }
}

/// What stands at the front of the bytes, unless they have more field lines than the room.
#[tactic(auto, unfolding(crate::specs::Messages::IsFaulty))]
fn front_in(
    alloc: Global,
    held: &[u8],
    room: &mut [HeaderSpan],
) -> Result<Option<Beginning>, AllocError>
    ensures { IfOk result (λ front.
        MatchOption front (RequestExceeds (length room.old) (window held.now)) (IsFront held.now)) }
{
    let window = window(held);
    match parse_request(window, room) {
        Ok(Status::Complete(spans)) => {
            let message = read_head(alloc, window, &spans, room)?;
            Ok(Some(whole_head(held, message, spans.len)))
        }
        Ok(Status::Partial) => Ok(Some(front_of_open_head(held))),
        Err(Error::TooManyHeaders) => Ok(None),
        Err(_) => Ok(Some(Beginning::Fault(SessionFault::BadHead))),
    }
}

/// Room for the offsets of as many field lines as a head's bytes can have.
fn large_room(alloc: Global) -> Result<Vec<HeaderSpan>, AllocError>
    ensures { IfOk result (λ room. 8192 ≤ length room.items) }
{
    let mut room = Vec::new(alloc);
    room.resize(HEADER_ROOM, EMPTY_HEADER_SPAN)?;
    Ok(room)
}

/// What stands at the front of the bytes. Only bytes with more field lines than a head may have
/// need the large room: they may still begin no head at all.
#[tactic(auto, using(crate::proofs::FrontLemmas::too_many))]
pub(crate) fn read_front(alloc: Global, held: &[u8]) -> Result<Beginning, AllocError>
    ensures { IfOk result (IsFront held.now) }
{
    let mut room = [EMPTY_HEADER_SPAN; MAX_FIELDS];
    if let Some(front) = front_in(alloc, held, &mut room)? {
        return Ok(front);
    }
    let mut room = large_room(alloc)?;
    match front_in(alloc, held, &mut room)? {
        Some(front) => Ok(front),
        None => unreachable!(),
    }
}

/// Whether the body that follows the head is whole.
#[tactic(auto, using(crate::proofs::FrontLemmas::head_within, crate::proofs::FrontLemmas::body_open, crate::proofs::FrontLemmas::begins_whole))]
pub(crate) fn is_whole(held: &[u8], head: &Head) -> bool
    requires { HasHead held.now head.now }
    ensures { MatchBool result (BeginsWithSome held.now) (IsUnfinished held.now) }
{
    let (_, after) = held.split_at(head.len);
    head.body_len <= after.len()
}

/// The body that follows the head, once it is whole.
#[tactic(auto, using(crate::proofs::FrontLemmas::head_within, crate::proofs::FrontLemmas::body_open, crate::proofs::FrontLemmas::whole))]
pub(crate) fn whole_body(
    alloc: Global,
    held: &[u8],
    head: &Head,
) -> Result<Option<Items<u8>>, AllocError>
    requires { HasHead held.now head.now }
    ensures message { IfOk result (λ body.
        MatchOption body (IsUnfinished held.now) (λ bytes. BeginsWithMessage held.now
        (record head.now.message { body = bytes }) (drop (head.now.len + head.now.body_len) held.now))) }
    ensures within { IfOk result (λ body. IsSome body → head.now.len + head.now.body_len ≤ length held.now) }
{
    let (_, after) = held.split_at(head.len);
    if after.len() < head.body_len {
        return Ok(None);
    }
    let (body, _) = after.split_at(head.body_len);
    Ok(Some(Items::from_vec(Vec::from_slice(alloc, body)?)))
}
