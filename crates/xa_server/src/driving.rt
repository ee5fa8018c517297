//! A connection, from its first byte to its end.
//!
//! The steps, from the outermost. Each has a function of its own, whose clauses settle one question:
//! 1. `drive`: is the connection open? From there on no other is in scope (`IsConnection`).
//! 2. `drive_open`: when has it ended? It answers what it holds, and reads where it waits (`IsDrivenWithin`).
//! 3. `read_piece`: what did the reader give, and was it taken? (`ReadsOnce`)
//! 4. `answer_next`: was there a next? (`IsNextAnswered`)
//! 5. `Connection::answer_now`: what stands at the front of the stream? By a look, without a clock. A message
//!    is answered at the clock's moment, a fault at any (`AnswersNow`).
//! 6. `send_answer`: is the reply sent whole, and does the connection go on? (`IsSentAs`)
ghost use Rattle.std.specs.Prelude.{◌≡◌, ◌<◌, ℕ, true, List, length, Option, Ok};
ghost use Rattle.xa_server.specs.Driven.{IsConnection, IsDrivenWithin, IsWaiting, seen_by, situation};
ghost use Rattle.xa_server.specs.handling.Driving.{IsNextAnswered, IsSentAs, ReadsOnce};
ghost use Rattle.xa_server.specs.Replies.{bytes_of};
ghost use Rattle.xa_server.specs.Served.{may_go_on};
ghost use Rattle.xa_server.specs.Transfers.{IsWritten, ReadEnd};

use crate::clock::Clock;
use crate::connection::{Answer, Answered, Connection};
use crate::drive_end::DriveEnd;
use crate::front::Front;
use crate::lines::Conn;
use crate::reader::Reader;
use crate::replies::Reply;
use crate::sending::send_whole;
use crate::server::Server;
use crate::writer::Writer;
use std::io::ErrorKind;
use xa_records::{Failure, Records};

/// How many bytes are read at once, so that one call of the system gives many small messages. The room for
/// them stands on the stack.
const PIECE_BYTES: usize = 65_536;

/// How often a connection is read from at most; then it ends by `TooManyReads`. No time is bounded here: a
/// peer that sends a byte now and then holds its connection for so many reads. What bounds a message's time
/// stands before the program.
pub const MAX_READS: u32 = 1_000_000;

/// Whether a connection goes on after a reply. After a message that was refused for want of storage it does
/// if the keeper can go on: one that can't refuses every message that wants it.
fn may_go_on<R: Records>(server: &Server<R>, reply: &Reply) -> bool
    ensures { result ≡ may_go_on reply.now (R.custody server.now.records).is_open }
{
    match reply {
        Reply::Refused(Failure::Store) => server.is_open(),
        Reply::Refused(Failure::Memory) | Reply::Sent(_) => true,
    }
}

/// Sends the reply of an answer. The connection goes on after it, or fails with how it has ended: with
/// `WriteFault`, with `Shut`, if it may not go on, or with `Ended`, if the answer is its last.
fn send_answer<R: Records, W: Writer>(
    server: &Server<R>,
    writer: &mut W,
    answer: &Answer,
) -> Result<(), DriveEnd>
    ensures { IsSentAs (λ whole. IsWritten whole (bytes_of answer.now.reply)
        (W.contents writer.old) (W.contents writer.new) (W.writes writer.old) (W.writes writer.new))
        (may_go_on answer.now.reply (R.custody server.now.records).is_open) answer.now.last result }
{
    if !send_whole(writer, answer.reply.bytes()) {
        return Err(DriveEnd::WriteFault);
    }
    if !may_go_on(server, &answer.reply) {
        return Err(DriveEnd::Shut);
    }
    if answer.last {
        return Err(DriveEnd::Ended);
    }
    Ok(())
}

/// Has the next of a connection answered, and sends the reply. Whether there was one; if not, more bytes are
/// wanted. Fails with how the connection has ended, if it has: also if there was the fault by which its
/// stream ends, and the reply to it was sent.
fn answer_next<R: Records, W: Writer, C: Clock>(
    server: &mut Server<R>,
    connection: &mut Connection,
    writer: &mut W,
    clock: &mut C,
) -> Result<bool, DriveEnd>
    ensures answered { (left : Option (List ℕ)) (reads : Option (List ReadEnd))
        → IsNextAnswered R.custody result
        (situation W.Writer C.Clock left reads server.old connection.old writer.old clock.old)
        (situation W.Writer C.Clock left reads server.new connection.new writer.new clock.new) }
    ensures fewer { result ≡ Ok true → length connection.new.held < length connection.old.held }
{
    match connection.answer_now(server, clock) {
        Ok(Answered::Reply(answer)) => {
            send_answer(server, writer, &answer)?;
            Ok(true)
        }
        Ok(Answered::Waits) => Ok(false),
        Ok(Answered::Ended) => Err(DriveEnd::Ended),
        Err(end) => Err(end),
    }
}

/// Reads once, and hands over what was read, for which a connection that waits has room. An interrupted read
/// has read nothing. Fails with how the connection has ended by it, if it has.
#[tactic(auto, using(crate::proofs::CourseLemmas::interrupted, crate::proofs::CourseLemmas::failed_read, crate::proofs::CourseLemmas::ended_read, crate::proofs::CourseLemmas::has_room, crate::proofs::CourseLemmas::read_taken, crate::proofs::CourseLemmas::read_refused))]
fn read_piece<I: Reader>(
    connection: &mut Connection,
    reader: &mut I,
    piece: &mut [u8; PIECE_BYTES],
) -> Result<(), DriveEnd>
    requires { IsWaiting connection.old }
    ensures { ReadsOnce result connection.old connection.new
        (I.remaining reader.old) (I.remaining reader.new) (I.reads reader.old) (I.reads reader.new) }
{
    let count = match reader.receive(piece) {
        Ok(0) => return Err(DriveEnd::Ended),
        Ok(count) => count,
        Err(error) if error.kind() == ErrorKind::Interrupted => return Ok(()),
        Err(_) => return Err(DriveEnd::ReadFault),
    };
    Ok(connection.feed(&piece[..count])?)
}

/// Answers the messages of a connection until it ends: first those that it holds, then those that are read.
/// How it has ended.
pub(crate) fn drive_open<R: Records, I: Reader, W: Writer, C: Clock>(
    server: &mut Server<R>,
    connection: &mut Connection,
    reader: &mut I,
    writer: &mut W,
    clock: &mut C,
) -> DriveEnd
    ensures { IsDrivenWithin R.custody 1_000_000 result
        (situation W.Writer C.Clock (I.remaining reader.old) (I.reads reader.old) server.old connection.old
        writer.old clock.old)
        (situation W.Writer C.Clock (I.remaining reader.new) (I.reads reader.new) server.new connection.new
        writer.new clock.new) }
{
    let mut piece = [0; PIECE_BYTES];
    let mut reads = 0;
    loop {
        match answer_next(server, connection, writer, clock) {
            Ok(true) => continue,
            Ok(false) => {}
            Err(end) => return end,
        }
        if reads == MAX_READS {
            return DriveEnd::TooManyReads;
        }
        if let Err(end) = read_piece(connection, reader, &mut piece) {
            return end;
        }
        reads += 1;
    }
}

/// Answers the messages of a connection, each at the clock's moment, until it ends: first those that it
/// holds already, then those that are read. Each reply is sent whole and once, before the next message
/// is answered (RFC 9112, section 9.3.2): a message is done only after the reply to the one before it was
/// sent. At most 65,536 bytes are read at once, and at most 1,000,000 times. An interrupted read is one of
/// these, and the next follows it. A connection that isn't open has ended: nothing is read, and nothing
/// changes.
#[tactic(auto, using(crate::proofs::CourseLemmas::shut_driven))]
pub fn drive<R: Records, I: Reader, W: Writer, C: Clock>(
    front: &mut Front<R>,
    conn: Conn,
    reader: &mut I,
    writer: &mut W,
    clock: &mut C,
) -> DriveEnd
    ensures { let seen = seen_by W.Writer C.Clock in IsConnection R.custody result conn front.old front.new
        (seen (I.remaining reader.old) (I.reads reader.old) writer.old clock.old)
        (seen (I.remaining reader.new) (I.reads reader.new) writer.new clock.new) }
{
    let Some(connection) = front.lines.get_mut(conn) else {
        return DriveEnd::Ended;
    };
    drive_open(&mut front.server, connection, reader, writer, clock)
}
