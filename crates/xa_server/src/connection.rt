//! A connection: the messages of its own bytes, each answered by a server.
//!
//! `answer` is its step: it cuts off the first message and has it served, or ends the session by a fault.
//! `answer_now` is the same at a clock's moment.
ghost use Rattle.std.specs.Prelude.{◌≡◌, ◌+◌, ◌≤◌, true, length, IfOk, MatchResult, Ok};
ghost use Rattle.xa_http.specs.declared.session.Look.TheVariants as look;
ghost use Rattle.xa_http.specs.Messages.{IsLook};
ghost use Rattle.xa_http.specs.Stream.{fed};
ghost use Rattle.xa_server.specs.Connection.{AnswersNext, AnswersNow, EndsBy, IsHolding, TakesPiece};
ghost use Rattle.xa_server.specs.Connection.{answer_of, empty_stream};
ghost use Rattle.xa_server.specs.Interruption.{ServesMessage};

mod turning_away;

use crate::clock::Clock;
use crate::drive_end::DriveEnd;
use crate::error_code::fault_reply;
use crate::holding::Holding;
use crate::replies::Reply;
use crate::server::Server;
use std::alloc::{AllocError, Global};
use std::marker::Model;
use xa_http::{Look, Message, Next, Session, SessionFault};
use xa_records::Records;
use xa_value::Moment;

/// How many bytes a connection holds at most: more than the longest message, of 16,384 bytes of a head and
/// 524,288 of a body, and a piece of 65,536. So one that waits for the rest of a message has room for each
/// piece that is read.
const MAX_CONNECTION_BYTES: usize = 1_048_576;

/// Why a connection doesn't take a piece of its stream. Nothing has changed.
#[derive(Clone, Copy, Debug, PartialEq, Eq)]
pub enum TakeError {
    /// There was no memory for it.
    Memory,
    /// What the connection holds and the piece are more than 1,048,576 bytes together.
    Full,
}

/// The reply to a message of a connection, or to the fault by which its stream ends.
#[derive(Debug, Drop)]
pub struct Answer {
    /// The reply.
    pub reply: Reply,
    /// Whether it is the last of its connection: its session has ended with it (RFC 9112, section 9.6).
    pub last: bool,
}

/// What a connection is answered.
#[derive(Debug, Drop)]
pub enum Answered {
    /// The reply to its first message, or to the fault by which its stream ends.
    Reply(Answer),
    /// No whole message has come yet.
    Waits,
    /// The session has ended before.
    Ended,
}

impl Answered {
    /// The answer, if there is one.
    pub(crate) fn into_answer(self) -> Option<Answer>
        ensures { result ≡ answer_of self }
    {
        match self {
            Answered::Reply(answer) => Some(answer),
            Answered::Waits | Answered::Ended => None,
        }
    }
}

/// A connection. It owns its session: whoever holds it answers its messages, and no other's.
#[derive(Drop)]
pub struct Connection {
    /// Where memory comes from.
    alloc: Global,
    /// The session of its stream.
    session: Session,
    /// Whether that has ended by a fault.
    by_fault: bool,
}

impl Model for Connection {
    ghost use Rattle.xa_http.specs.Stream.{Stream};

    ghost Value = { Stream };

    ghost view = { λ c. c.session };
}

impl Connection {
    /// A connection of which nothing has come. No memory is taken for it.
    pub fn new(alloc: Global) -> Connection
        ensures { result ≡ empty_stream }
    {
        Connection {
            alloc,
            session: Session::new(alloc),
            by_fault: false,
        }
    }

    /// Whether its session has ended by a fault.
    pub(crate) fn has_ended_by_fault(&self) -> bool {
        self.by_fault
    }

    /// Whether its session has ended: no message of it is answered any more.
    pub fn has_ended(&self) -> bool
        ensures { result ≡ self.now.ended }
    {
        self.session.has_ended()
    }

    /// Takes a piece of its stream, whole; or nothing of it, if it would then hold more than 1,048,576 bytes
    /// (`Full`), or if there is no memory (`Memory`). One whose session has ended takes it too, and answers
    /// nothing to it.
    pub fn take(&mut self, piece: &[u8]) -> Result<(), TakeError>
        ensures { TakesPiece piece.now self.old result self.new }
    {
        if self.session.held_len().saturating_add(piece.len()) > MAX_CONNECTION_BYTES {
            return Err(TakeError::Full);
        }
        self.feed(piece).map_err(|_| TakeError::Memory)
    }

    /// `take`, of a piece for which there is room: it fails for want of memory alone.
    pub fn feed(&mut self, piece: &[u8]) -> Result<(), AllocError>
        requires { length self.old.held + length piece.now ≤ 1_048_576 }
        ensures { MatchResult result (λ _. self.new ≡ fed self.old piece.now) (λ _. self.new ≡ self.old) }
    {
        self.session.feed(piece)
    }

    /// What stands at the front of its stream. Nothing is changed. One whose session has ended takes no
    /// memory for it.
    pub fn look(&mut self) -> Result<Look, AllocError>
        ensures look { IfOk result (IsLook self.old) }
        ensures same { self.new ≡ self.old }
        ensures ended { self.old.ended ≡ true → result ≡ Ok look.Ended }
    {
        self.session.look()
    }

    /// What it holds of its stream. Nothing is changed.
    pub fn holding(&mut self) -> Result<Holding, AllocError>
        ensures holding { IfOk result (IsHolding self.old) }
        ensures same { self.new ≡ self.old }
    {
        Ok(match self.session.look()? {
            Look::Message | Look::Fault(_) => Holding::Whole,
            Look::More if self.session.held_len() == 0 => Holding::Nothing,
            Look::More => Holding::Part,
            Look::Ended => Holding::Ended,
        })
    }

    /// Has the first whole message that it holds answered by the server, at that moment, or the fault by
    /// which its stream ends; nothing if there is neither. The reply to a fault is the same at every
    /// moment. Without memory before the message is cut off, or for the reply to the fault, nothing has
    /// changed. If no message is whole the server isn't asked.
    #[tactic(auto, using(crate::proofs::NextLemmas::waits_answered, crate::proofs::NextLemmas::ended_answered))]
    pub fn answer<R: Records>(
        &mut self,
        server: &mut Server<R>,
        moment: Moment,
    ) -> Result<Answered, AllocError>
        ensures { AnswersNext R.custody moment server.old self.old result server.new self.new }
    {
        match self.session.cut()? {
            Next::Message(message) => Ok(Answered::Reply(self.serve(server, moment, &message))),
            Next::Fault(fault) => Ok(Answered::Reply(self.end_by(fault)?)),
            Next::More => Ok(Answered::Waits),
            Next::Ended => Ok(Answered::Ended),
        }
    }

    /// `answer`, a message at the clock's moment. No clock is asked for anything else. Fails with `NoClock`,
    /// if it tells no moment for a message, or with `Memory`: then the server and the connection are as they
    /// were.
    pub fn answer_now<R: Records, C: Clock>(
        &mut self,
        server: &mut Server<R>,
        clock: &mut C,
    ) -> Result<Answered, DriveEnd>
        ensures { AnswersNow R.custody (C.told clock.old) (C.told clock.new) server.old self.old result
            server.new self.new }
    {
        match self.look()? {
            Look::Message => {
                let Some(moment) = clock.now() else {
                    return Err(DriveEnd::NoClock);
                };
                Ok(self.answer(server, moment)?)
            }
            Look::Fault(fault) => Ok(Answered::Reply(self.end_by(fault)?)),
            Look::More => Ok(Answered::Waits),
            Look::Ended => Ok(Answered::Ended),
        }
    }

    /// Has a message that was cut off answered by the server, at that moment.
    fn serve<R: Records>(&self, server: &mut Server<R>, moment: Moment, message: &Message) -> Answer
        ensures last { result.last ≡ self.now.ended }
        ensures serves { ServesMessage R.custody server.old server.new (moment, message.now) result.reply }
    {
        let reply = server.serve(moment, message);
        let last = self.session.has_ended();
        Answer { reply, last }
    }

    /// Ends its session by the fault that stands at the front of its stream, and gives the reply to it.
    /// Without memory for that the session hasn't ended.
    fn end_by(&mut self, fault: SessionFault) -> Result<Answer, AllocError>
        requires { IsLook self.old (look.Fault fault) }
        ensures { MatchResult result (λ answer. EndsBy fault self.old answer self.new)
            (λ _. self.new ≡ self.old) }
    {
        let reply = Reply::Sent(fault_reply(self.alloc, fault)?);
        self.session.end();
        self.by_fault = true;
        Ok(Answer { reply, last: true })
    }
}
