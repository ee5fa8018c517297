//! What stands in rows of a server before the first event, and the server that it makes. `made:BYTES` are
//! messages that have to succeed, and aren't answered. `views:COUNT` says how many views are cached at the
//! most, if not 128, and `room:BYTES` how many bytes they may take. `reply:BYTES` limits the body of each
//! response, and `reading:BYTES` the texts that are read for each message. `limit:UNITS` limits the work for
//! each message of the events.
use crate::answer::Answer;
use crate::clock::moment_of;
use crate::field::{number_of, word_and_text};
use crate::front_calls::ServerCalls;
use crate::no_answer::NoAnswer;
use crate::scripts::{ScriptReader, server_over};
use std::alloc::Global;
use xa_http::Message;
use xa_records::Records;
use xa_server::{Front, Reply, Server};
use xa_value::Moment;

/// What is set of a server, and the messages that come to it before the first event.
#[derive(Drop)]
pub struct Setup {
    /// How many views are cached at the most.
    views: Option<usize>,
    /// How many bytes the cached views may take.
    room: Option<usize>,
    /// The limit of each response's body, in bytes.
    reply: Option<u64>,
    /// The limit of the texts that are read for each message, in bytes.
    reading: Option<u64>,
    /// The limit of work for each message of the events, in units.
    limit: Option<u64>,
    /// The messages.
    made: ScriptReader,
    /// Their moment, which is also that of the first event.
    pub moment: Moment,
}

impl Setup {
    /// Takes in what the field says, if that may stand before the first event. Whether it may.
    fn take(&mut self, alloc: Global, field: &str) -> Result<bool, NoAnswer> {
        let (word, text) = word_and_text(field);
        match word {
            "views" => self.views = Some(number_of(text)?),
            "room" => self.room = Some(number_of(text)?),
            "reply" => self.reply = Some(number_of(text)?),
            "reading" => self.reading = Some(number_of(text)?),
            "limit" => self.limit = Some(number_of(text)?),
            "made" => self.made.read(alloc, field)?,
            _ => return Ok(false),
        }
        Ok(true)
    }

    /// The server with all that is set of it before the messages.
    fn set<R: Records + Drop>(&self, mut server: Server<R>) -> Server<R> {
        if let Some(most) = self.views {
            server = server.with_max_views(most);
        }
        if let Some(bytes) = self.room {
            server = server.with_view_bytes(bytes);
        }
        server
            .with_reply_limit(self.reply)
            .with_reading_limit(self.reading)
    }

    /// The server with the limit of work that is set of it after the messages.
    fn limited<R: Records>(&self, server: Server<R>) -> Server<R> {
        server.with_work_limit(self.limit)
    }
}

/// What stands in the fields before the first event, and the events.
pub fn setup_and_events<'a>(
    alloc: Global,
    fields: &'a [&'a str],
) -> Result<(Setup, &'a [&'a str]), NoAnswer> {
    let moment = moment_of("0")?;
    let mut setup = Setup {
        views: None,
        room: None,
        reply: None,
        reading: None,
        limit: None,
        made: ScriptReader::new(alloc, moment),
        moment,
    };
    let mut count = 0usize;
    for field in fields {
        if !setup.take(alloc, field)? {
            break;
        }
        count = count.saturating_add(1);
    }
    Ok((setup, fields.get(count..).unwrap_or(&[])))
}

/// Whether the reply is a success (RFC 9110, section 15.3).
fn is_success(reply: &Reply) -> bool {
    let bytes = reply.bytes();
    bytes.starts_with(b"HTTP/1.1 200 ") || bytes.starts_with(b"HTTP/1.1 201 ")
}

/// Sends the messages. The first reply that is no success is the row's whole answer.
fn make<V: ServerCalls>(
    answer: &mut Answer,
    server: &mut V,
    messages: &[(Moment, Message)],
) -> Result<(), NoAnswer> {
    let replies = server.replies_to(messages)?;
    for reply in &replies {
        if !is_success(reply) {
            answer.push_field("", reply.bytes());
            return Err(NoAnswer::Answered);
        }
    }
    Ok(())
}

/// The server, after the messages.
fn server_after<V: ServerCalls + Drop>(
    answer: &mut Answer,
    mut server: V,
    messages: &[(Moment, Message)],
) -> Result<V, NoAnswer> {
    make(answer, &mut server, messages)?;
    Ok(server)
}

/// A server over the keeper, which is set up so.
pub fn server_made<R: Records + Drop>(
    answer: &mut Answer,
    records: R,
    setup: &Setup,
) -> Result<Server<R>, NoAnswer> {
    let server = setup.set(server_over(answer.alloc(), records)?);
    let server = server_after(answer, server, &setup.made.messages)?;
    Ok(setup.limited(server))
}

/// A front of a server over the keeper, which is set up so.
pub fn front_made<R: Records + Drop>(
    answer: &mut Answer,
    records: R,
    setup: &Setup,
) -> Result<Front<R>, NoAnswer> {
    let server = server_made(answer, records, setup)?;
    Ok(Front::new(answer.alloc(), server)?)
}
