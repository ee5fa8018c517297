//! Rows of streams and their parts: the messages of a stream, where a message's target leads, and which
//! texts are tokens and names.
use crate::answer::Answer;
use crate::field::{bytes_of, only_bytes, two_fields};
use crate::no_answer::NoAnswer;
use std::alloc::Global;
use xa_http::{Message, Next, Route, RouteFault, Routes, Session};
use xa_notation::is_token;
use xa_records::{Digest, is_domain_name};
use xa_value::{Items, OrMemory};

/// Adds a message (RFC 9112, section 2.1): its method, its target, its field lines and its body, and whether
/// it is the last of its stream.
fn push_message(answer: &mut Answer, message: &Message) {
    answer.push_field("method:", message.method.as_slice());
    answer.push_field("target:", message.target.as_slice());
    for field in message.fields.as_slice() {
        answer.push_field("name:", field.name.as_slice());
        answer.push_field("value:", field.value.as_slice());
    }
    answer.push_field("body:", message.body.as_slice());
    if message.close {
        answer.push_word("close");
    }
}

/// Takes in a piece. Takes the whole messages off the stream and adds each, and then why no more follow.
fn take_piece(answer: &mut Answer, session: &mut Session, piece: &str) -> Result<(), NoAnswer> {
    session.feed(&bytes_of(answer.alloc(), piece)?)?;
    for _ in 0..u64::MAX {
        match session.next()? {
            Next::Message(message) => {
                push_message(answer, &message);
                continue;
            }
            Next::More => answer.push_word("More"),
            Next::Fault(fault) => answer.push_shown("!", &fault),
            Next::Ended => answer.push_word("!Ended"),
        }
        return Ok(());
    }
    Ok(())
}

/// The messages of a stream that comes in these pieces (RFC 9112, section 2). After each piece it is said why
/// no more follow.
pub fn stream(answer: &mut Answer, pieces: &[&str]) -> Result<(), NoAnswer> {
    let mut session = Session::new(answer.alloc());
    for piece in pieces {
        take_piece(answer, &mut session, piece)?;
    }
    Ok(())
}

/// The message of that method and target alone.
fn message_of(alloc: Global, method: &str, target: &str) -> Result<Message, NoAnswer> {
    Ok(Message {
        method: Items::from_vec(bytes_of(alloc, method)?),
        target: Items::from_vec(bytes_of(alloc, target)?),
        fields: Items::new(alloc),
        body: Items::new(alloc),
        close: false,
    })
}

/// Adds what is asked for and the domain, and of a document the parts of its key.
fn push_route(answer: &mut Answer, route: &Route) {
    match route {
        Route::Domains => answer.push_word("domains"),
        Route::Operator { domain, command } => {
            answer.push_shown("", command);
            answer.push_field("", domain.as_slice());
        }
        Route::Decide { domain } => {
            answer.push_word("Decide");
            answer.push_field("", domain.as_slice());
        }
        Route::Domain { domain, command } => {
            answer.push_shown("", command);
            answer.push_field("", domain.as_slice());
        }
        Route::Document {
            domain,
            parts,
            command,
        } => {
            answer.push_shown("", command);
            answer.push_field("", domain.as_slice());
            answer.push_field("", parts.kind.as_slice());
            answer.push_field("", parts.id.as_slice());
            answer.push_field("", parts.version.as_slice());
        }
    }
}

/// What a message of that method and target asks for.
pub fn route(answer: &mut Answer, fields: &[&str]) -> Result<(), NoAnswer> {
    let (method, target) = two_fields(fields)?;
    let message = message_of(answer.alloc(), method, target)?;
    let routes = Routes::new(answer.alloc())?;
    match routes.route(answer.alloc(), &message) {
        Ok(route) => push_route(answer, &route),
        Err(OrMemory::Error(RouteFault::BadMethod(_))) => answer.push_word("!BadMethod"),
        Err(OrMemory::Error(fault)) => answer.push_shown("!", &fault),
        Err(OrMemory::Memory) => answer.cut(),
    }
    Ok(())
}

/// Whether the text has the shape of a token.
pub fn token(answer: &mut Answer, fields: &[&str]) -> Result<(), NoAnswer> {
    let text = only_bytes(answer.alloc(), fields)?;
    answer.push_shown("", &is_token(&text));
    Ok(())
}

/// Whether the text has the shape of a domain's name.
pub fn domain(answer: &mut Answer, fields: &[&str]) -> Result<(), NoAnswer> {
    let text = only_bytes(answer.alloc(), fields)?;
    answer.push_shown("", &is_domain_name(&text));
    Ok(())
}

/// The digest of the bytes of the field.
fn digest_in(alloc: Global, field: &str) -> Result<Digest, NoAnswer> {
    let bytes = bytes_of(alloc, field)?;
    let bytes = <[u8; 32]>::try_from(bytes.as_slice()).ok();
    Ok(Digest::from_bytes(bytes.ok_or(NoAnswer::Malformed)?))
}

/// Whether the bytes of the second field are the digest of those of the first.
pub fn digest(answer: &mut Answer, fields: &[&str]) -> Result<(), NoAnswer> {
    let (text, bytes) = two_fields(fields)?;
    let digest = Digest::of(&bytes_of(answer.alloc(), text)?);
    let other = digest_in(answer.alloc(), bytes)?;
    answer.push_shown("", &(digest == other));
    Ok(())
}
