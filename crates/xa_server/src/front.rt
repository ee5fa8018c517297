//! Many connections over one server.
//!
//! A front is a server beside its connections, and each of its calls is one of theirs: `Connection` has what
//! is proved of it, and a front says that no other connection has changed. Who serves one connection alone
//! borrows it (`lines`), and makes the same calls, as `drive` does. `play` makes a list of calls, by `step`.
ghost use Rattle.std.specs.Prelude.{◌≡◌, [], ◌∷◌, IfErr, IfOk, IsSomeAnd, OnErr, MatchResult};
ghost use Rattle.xa_server.specs.Connection.{IsHolding};
ghost use Rattle.xa_server.specs.Front.{AnswersLine, IsPlayed};
ghost use Rattle.xa_server.specs.FrontLaws.{LinesAreStreams, PlaysGoOn};
ghost use Rattle.xa_server.specs.Lines.{IsClosed, IsHeld, IsOpened, IsUnasked, all_open, line_at, none_open};

mod turning_away;

use crate::connection::Answer;
use crate::event::{Event, Outcome};
use crate::front_error::FrontError;
use crate::holding::Holding;
use crate::lines::{Conn, Lines};
use crate::server::Server;
use std::alloc::{AllocError, AllocFailed, Global};
pub use turning_away::unchanging_messages_leave_the_state;
use xa_records::Records;
use xa_value::Moment;

/// A server with 64 connections, which may all be open at once. The messages of each are cut from its
/// own bytes, whatever comes on the others in between; all are answered by the one server.
#[derive(Drop)]
pub struct Front<R: Records> {
    /// Where memory comes from.
    alloc: Global,
    /// The server, which answers all messages.
    pub server: Server<R>,
    /// The connections.
    pub lines: Lines,
}

impl<R: Records> Front<R> {
    /// A front over the server, with no connection open. Without memory the server is handed back.
    pub fn new(alloc: Global, server: Server<R>) -> Result<Front<R>, AllocFailed<Server<R>>>
        ensures { MatchResult result (λ front. (front.server ≡ server) × (front.lines ≡ none_open))
            (λ failed. failed.value ≡ server) }
    {
        let Ok(lines) = Lines::new(alloc) else {
            return Err(AllocFailed { value: server });
        };
        Ok(Front {
            alloc,
            server,
            lines,
        })
    }

    /// A front over the server, with all 64 connections open. Without memory the server is handed back.
    pub fn all_open(alloc: Global, server: Server<R>) -> Result<Front<R>, AllocFailed<Server<R>>>
        ensures { MatchResult result (λ front. (front.server ≡ server) × (front.lines ≡ all_open))
            (λ failed. failed.value ≡ server) }
    {
        let Ok(lines) = Lines::all_open(alloc) else {
            return Err(AllocFailed { value: server });
        };
        Ok(Front {
            alloc,
            server,
            lines,
        })
    }

    /// The server, as the messages so far have left it. Its connections are gone.
    pub fn into_server(self) -> Server<R>
        ensures { result ≡ self.server }
    {
        self.server
    }

    /// Opens the connection of the least number of which none is open. It holds nothing, and takes no memory.
    /// Fails with `TooManyConnections`, if all 64 are open.
    pub fn open(&mut self) -> Result<Conn, FrontError>
        ensures opened { IsOpened self.old.lines result self.new.lines }
        ensures server { self.new.server ≡ self.old.server }
    {
        self.lines.open(self.alloc)
    }

    /// Takes a piece of the connection's stream, whole; or nothing of it, if the connection would hold
    /// more than 1,048,576 bytes (`Full`), if there is no memory (`Memory`), or if it isn't open
    /// (`NoSuchConnection`). A connection whose session has ended takes it too, and answers nothing to it.
    #[tactic(auto, using(crate::proofs::LineLemmas::held_at, crate::proofs::LineLemmas::refused_at))]
    pub fn piece(&mut self, conn: Conn, piece: &[u8]) -> Result<(), FrontError>
        ensures held { IsHeld conn piece.now self.old.lines result self.new.lines }
        ensures server { self.new.server ≡ self.old.server }
    {
        match self.lines.get_mut(conn) {
            Some(connection) => Ok(connection.take(piece)?),
            None => Err(FrontError::NoSuchConnection),
        }
    }

    /// What the connection holds of its stream. Nothing is changed. Fails with `NoSuchConnection`, if it
    /// isn't open; else with `Memory` alone.
    pub fn holding(&mut self, conn: Conn) -> Result<Holding, FrontError>
        ensures holding { IfOk result (λ holding.
            IsSomeAnd (line_at conn self.old.lines) (λ stream. IsHolding stream holding)) }
        ensures err { IfErr result (IsUnasked (line_at conn self.old.lines)) }
        ensures same { self.new ≡ self.old }
    {
        match self.lines.get_mut(conn) {
            Some(connection) => Ok(connection.holding()?),
            None => Err(FrontError::NoSuchConnection),
        }
    }

    /// Answers the first whole message of the connection's bytes, or the fault by which its stream ends;
    /// nothing if there is neither. No other connection's bytes change. Without memory before the
    /// message is cut off, or for the reply to the fault, nothing has changed. The reply to a fault is
    /// the same at every moment. Fails with `NoSuchConnection`, if it isn't open; else with `Memory`
    /// alone.
    #[tactic(auto, using(crate::proofs::NextLemmas::unanswered_at))]
    pub fn answer(&mut self, conn: Conn, moment: Moment) -> Result<Option<Answer>, FrontError>
        ensures answered { AnswersLine R.custody conn moment self.old result self.new }
        ensures err { OnErr result (self.new ≡ self.old) }
    {
        let Some(connection) = self.lines.get_mut(conn) else {
            return Err(FrontError::NoSuchConnection);
        };
        let answered = connection.answer(&mut self.server, moment)?;
        Ok(answered.into_answer())
    }

    /// Closes the connection. The bytes that it holds are gone. Fails with `NoSuchConnection`, if it
    /// isn't open.
    pub fn close(&mut self, conn: Conn) -> Result<(), FrontError>
        ensures closed { IsClosed conn self.old.lines result self.new.lines }
        ensures server { self.new.server ≡ self.old.server }
    {
        self.lines.close(conn)
    }

    /// Makes one call, and gives what it has given: that is to play one event, and takes no memory for a
    /// list.
    pub fn step(&mut self, event: &Event<'_>) -> Outcome
        ensures { IsPlayed R.custody self.old self.new (event.now ∷ []) (result ∷ []) }
    {
        match event {
            Event::Begin => Outcome::Begun(self.open()),
            Event::Piece(conn, piece) => Outcome::Held(self.piece(*conn, piece)),
            Event::Answer(conn, moment) => Outcome::Answered(self.answer(*conn, *moment)),
            Event::Finish(conn) => Outcome::Finished(self.close(*conn)),
        }
    }

    /// Makes these calls, one after another. Whatever comes on which connection, and in which pieces,
    /// each domain's replies are those of its own machine, used by it alone; with refusals, as if the
    /// refused messages had never come. What becomes of the connections doesn't depend on the keeper.
    /// Room for all outcomes is taken first, and without it nothing is done.
    pub fn play(&mut self, events: &[Event<'_>]) -> Result<Vec<Outcome>, AllocError>
        ensures played { IfOk result (λ outcomes.
            IsPlayed R.custody self.old self.new events.now outcomes.items) }
        ensures err { OnErr result (self.new ≡ self.old) }
    {
        let mut outcomes = Vec::with_capacity(self.alloc, events.len())?;
        for event in events {
            let outcome = self.step(event);
            outcomes.push(outcome).unwrap();
        }
        Ok(outcomes)
    }

    /// Law: events that were played, and then others, were played together. So who makes calls one after
    /// another, by `step`, has played them, and needs no list of outcomes.
    pub fn plays_go_on()
        ensures { PlaysGoOn R.custody }
    {}
}

/// Law: while a connection is open, the messages that are answered on it are the first of the bytes that
/// it takes, each with its reply, however the pieces of all connections are cut and mixed.
pub fn lines_are_streams()
    ensures { LinesAreStreams }
{}
