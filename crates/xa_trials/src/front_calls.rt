//! The calls of a server and of a front, by which rows know them. These types have many parts, and their
//! calls have long clauses, on which no row rests. So what rows do is proved of any type with these calls.
use crate::keepers::Reopen;
use crate::no_answer::NoAnswer;
use crate::scripts::server_over;
use std::alloc::Global;
use xa_http::Message;
use xa_records::Records;
use xa_server::{
    AcceptError, Answer, Clock, Conn, DriveEnd, Event, Front, Outcome, Peers, Reader, Reply,
    Server, Writer, drive, drive_next,
};
use xa_value::Moment;

/// What answers messages: a server.
pub trait ServerCalls {
    /// The reply to the message.
    fn reply_to(&mut self, moment: Moment, message: &Message) -> Reply;

    /// The replies to the messages.
    fn replies_to(&mut self, messages: &[(Moment, Message)]) -> Result<Vec<Reply>, NoAnswer>;
}

impl<R: Records> ServerCalls for Server<R> {
    fn reply_to(&mut self, moment: Moment, message: &Message) -> Reply {
        self.serve(moment, message)
    }

    fn replies_to(&mut self, messages: &[(Moment, Message)]) -> Result<Vec<Reply>, NoAnswer> {
        Ok(self.run(messages)?)
    }
}

/// What has connections: a front.
pub trait FrontCalls {
    /// Opens a connection.
    fn begin(&mut self) -> Result<Conn, NoAnswer>;

    /// Hands over the next bytes of a connection.
    fn feed(&mut self, conn: Conn, bytes: &[u8]) -> Result<(), NoAnswer>;

    /// The next answer of a connection, if there is one.
    fn next_answer(&mut self, conn: Conn, moment: Moment) -> Result<Option<Answer>, NoAnswer>;

    /// Closes a connection.
    fn finish(&mut self, conn: Conn) -> Result<(), NoAnswer>;

    /// What comes of the events, which are played.
    fn outcomes(&mut self, events: &[Event<'_>]) -> Result<Vec<Outcome>, NoAnswer>;

    /// Drives a connection. How that has ended.
    fn drive<I: Reader, W: Writer, C: Clock>(
        &mut self,
        conn: Conn,
        reader: &mut I,
        writer: &mut W,
        clock: &mut C,
    ) -> DriveEnd;

    /// Takes the next connection, and drives it. How that has ended.
    fn drive_next<P: Peers, C: Clock>(
        &mut self,
        peers: &mut P,
        clock: &mut C,
    ) -> Result<DriveEnd, AcceptError>;
}

impl<R: Records> FrontCalls for Front<R> {
    fn begin(&mut self) -> Result<Conn, NoAnswer> {
        Ok(self.open()?)
    }

    fn feed(&mut self, conn: Conn, bytes: &[u8]) -> Result<(), NoAnswer> {
        Ok(self.piece(conn, bytes)?)
    }

    fn next_answer(&mut self, conn: Conn, moment: Moment) -> Result<Option<Answer>, NoAnswer> {
        Ok(self.answer(conn, moment)?)
    }

    fn finish(&mut self, conn: Conn) -> Result<(), NoAnswer> {
        Ok(self.close(conn)?)
    }

    fn outcomes(&mut self, events: &[Event<'_>]) -> Result<Vec<Outcome>, NoAnswer> {
        Ok(self.play(events)?)
    }

    fn drive<I: Reader, W: Writer, C: Clock>(
        &mut self,
        conn: Conn,
        reader: &mut I,
        writer: &mut W,
        clock: &mut C,
    ) -> DriveEnd {
        drive(self, conn, reader, writer, clock)
    }

    fn drive_next<P: Peers, C: Clock>(
        &mut self,
        peers: &mut P,
        clock: &mut C,
    ) -> Result<DriveEnd, AcceptError> {
        drive_next(&mut self.server, peers, clock)
    }
}

/// What a server counts.
#[derive(Clone, Copy)]
pub enum Count {
    /// How many texts of policies it has read.
    Readings,
    /// How many decisions it has evaluated.
    Evaluations,
    /// How many decisions it hasn't cached for want of memory.
    Unkept,
}

/// A front whose server is asked what it has counted, or gives way to another.
pub trait Renew: FrontCalls {
    /// A front of another server over the same keeper.
    fn front_after_restart(self, alloc: Global) -> Result<Self, NoAnswer>;

    /// What the server has counted, and another front of it.
    fn count_and_front(self, alloc: Global, count: Count) -> Result<(u64, Self), NoAnswer>;
}

impl<R: Reopen + Drop> Renew for Front<R> {
    fn front_after_restart(self, alloc: Global) -> Result<Front<R>, NoAnswer> {
        let records = self.into_server().into_records();
        let server = server_over(alloc, records.keeper_after_stop(alloc)?)?;
        Ok(Front::new(alloc, server)?)
    }

    fn count_and_front(self, alloc: Global, count: Count) -> Result<(u64, Front<R>), NoAnswer> {
        let server = self.into_server();
        let number = match count {
            Count::Readings => server.readings(),
            Count::Evaluations => server.evaluations(),
            Count::Unkept => server.unkept(),
        };
        Ok((number, Front::new(alloc, server)?))
    }
}
