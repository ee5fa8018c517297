//! Scripts of messages, and the servers that answer them.
use crate::clock::moment_of;
use crate::field::{bytes_of, word_and_text};
use crate::no_answer::NoAnswer;
use std::alloc::{AllocFailed, Global};
use xa_http::{Message, Next, Session};
use xa_records::{Digest, Records};
use xa_server::Server;
use xa_value::Moment;

/// The token of the operator.
const OPERATOR_TOKEN: &str = "operator-token-1";

/// A script as far as it is read.
#[derive(Drop)]
pub struct ScriptReader {
    /// The stream.
    session: Session,
    /// The moment of what follows.
    moment: Moment,
    /// The messages, each with its moment.
    pub messages: Vec<(Moment, Message)>,
}

impl ScriptReader {
    /// Nothing is read. What follows has that moment.
    pub fn new(alloc: Global, moment: Moment) -> ScriptReader {
        ScriptReader {
            session: Session::new(alloc),
            moment,
            messages: Vec::new(alloc),
        }
    }

    /// Takes in an event, and takes the whole messages off the stream, which has to want more then.
    pub fn read(&mut self, alloc: Global, event: &str) -> Result<(), NoAnswer> {
        let (word, text) = word_and_text(event);
        match word {
            "moment" => self.moment = moment_of(text)?,
            "made" | "piece" => self.session.feed(&bytes_of(alloc, text)?)?,
            _ => return Err(NoAnswer::Malformed),
        }
        for _ in 0..u64::MAX {
            match self.session.next()? {
                Next::Message(message) => self.messages.push((self.moment, message))?,
                Next::More => return Ok(()),
                _ => return Err(NoAnswer::Malformed),
            }
        }
        Ok(())
    }
}

/// A server over the keeper.
pub fn server_over<R: Records + Drop>(
    alloc: Global,
    records: R,
) -> Result<Server<R>, AllocFailed<R>> {
    Server::new(alloc, records, Digest::of(OPERATOR_TOKEN.as_bytes()))
}

/// The messages of the script, each with its moment.
pub fn messages_of(alloc: Global, events: &[&str]) -> Result<Vec<(Moment, Message)>, NoAnswer> {
    let mut reader = ScriptReader::new(alloc, moment_of("0")?);
    for event in events {
        reader.read(alloc, event)?;
    }
    Ok(reader.messages)
}
