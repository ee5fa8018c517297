//! What a connection is told: the replies to its messages, each written once it is answered.
ghost use Rattle.std.specs.Prelude.{◌≡◌, ◌≤◌, ◌<◌, Ok, IfErr, IfOk, IsTrue, OnOk, false, true, length};
ghost use Rattle.xa_http.specs.Stream.{fed};
ghost use Rattle.pdpd.specs.Exit.{breaks_off};
ghost use Rattle.pdpd.specs.Replay.{ConnectionTakes, IsSomeRun, StreamTakes};
ghost use Rattle.pdpd.specs.running.Replaying.{Writes};
ghost use Rattle.pdpd.specs.running.Telling.{HasRoom, IsToldAndWritten, Stands};

use crate::exit::Exit;
use crate::replay::heading::Heading;
use crate::replay::writing::write_reply;
use std::alloc::Global;
use std::io::Write;
use xa_records::Records;
use xa_server::{Answered, Connection, Server};

/// How many bytes of an entry are handed over at once. All messages that are whole then are answered
/// before the next piece, so that a connection always has room for it.
const PIECE_BYTES: usize = 65_536;

/// Answers the next of a connection, and writes the reply, if there is one. Whether its session goes on, so
/// that another message may be whole.
#[tactic(auto, using(crate::proofs::RunLemmas::some_none))]
fn answer_next<R: Records, W: Write>(
    server: &mut Server<R>,
    connection: &mut Connection,
    writer: &mut W,
    heading: &Heading,
) -> Result<bool, Exit>
    requires { connection.old.ended ≡ false }
    ensures told { OnOk result (IsToldAndWritten R.custody heading.now server.old server.new
        connection.old connection.new (W.contents writer.old) (W.contents writer.new)) }
    ensures stands { IfOk result (λ goes_on. Stands goes_on connection.new) }
    ensures fewer { result ≡ Ok true → length connection.new.held < length connection.old.held }
    ensures served { IsSomeRun R.custody server.old server.new }
    ensures err { IfErr result (λ exit. IsTrue (breaks_off exit)) }
{
    match connection.answer(server, heading.moment)? {
        Answered::Reply(answer) => {
            write_reply(writer, heading.connection, answer.reply.bytes())?;
            Ok(!answer.last)
        }
        Answered::Waits | Answered::Ended => Ok(false),
    }
}

/// Hands a piece over, and writes the replies to all messages that are whole then.
#[tactic(auto, using(crate::proofs::RunLemmas::some_none))]
fn take_piece<R: Records, W: Write>(
    server: &mut Server<R>,
    connection: &mut Connection,
    writer: &mut W,
    heading: &Heading,
    piece: &[u8],
) -> Result<(), Exit>
    requires goes_on { connection.old.ended ≡ false }
    requires room { HasRoom connection.old }
    requires few { length piece.now ≤ 65_536 }
    ensures told { OnOk result (IsToldAndWritten R.custody heading.now server.old server.new
        (fed connection.old piece.now) connection.new (W.contents writer.old) (W.contents writer.new)) }
    ensures stands { OnOk result (Stands false connection.new) }
    ensures served { IsSomeRun R.custody server.old server.new }
    ensures err { IfErr result (λ exit. IsTrue (breaks_off exit)) }
{
    connection.feed(piece)?;
    while answer_next(server, connection, writer, heading)? {}
    Ok(())
}

/// Hands bytes over, a piece at a time, and writes the replies to all messages that are whole after
/// each piece. What follows the end of the session is dropped.
fn take<R: Records, W: Write>(
    server: &mut Server<R>,
    connection: &mut Connection,
    writer: &mut W,
    heading: &Heading,
    bytes: &[u8],
) -> Result<(), Exit>
    requires goes_on { connection.old.ended ≡ false }
    requires room { HasRoom connection.old }
    ensures taken { OnOk result (Writes (W.contents writer.old) (W.contents writer.new)
        (StreamTakes R.custody heading.now bytes.now connection.old connection.new server.old server.new)) }
    ensures room { OnOk result (HasRoom connection.new) }
    ensures served { IsSomeRun R.custody server.old server.new }
    ensures err { IfErr result (λ exit. IsTrue (breaks_off exit)) }
{
    let mut rest = bytes;
    while rest.len() > PIECE_BYTES {
        let (piece, after) = rest.split_at(PIECE_BYTES);
        take_piece(server, connection, writer, heading, piece)?;
        if connection.has_ended() {
            return Ok(());
        }
        rest = after;
    }
    take_piece(server, connection, writer, heading, rest)
}

/// Hands the bytes of an entry to a connection, and writes the replies to them. An entry without bytes closes
/// it, and the next begins in its place; else one whose session has ended passes them over.
#[tactic(auto, using(crate::proofs::RunLemmas::some_none, crate::proofs::TakingLemmas::closed, crate::proofs::TakingLemmas::passed_over, crate::proofs::TakingLemmas::gone_on))]
pub fn answer_bytes<R: Records, W: Write>(
    alloc: Global,
    server: &mut Server<R>,
    connection: &mut Connection,
    writer: &mut W,
    heading: &Heading,
    bytes: &[u8],
) -> Result<(), Exit>
    requires { HasRoom connection.old }
    ensures taken { OnOk result (Writes (W.contents writer.old) (W.contents writer.new)
        (ConnectionTakes R.custody heading.now bytes.now connection.old connection.new
        server.old server.new)) }
    ensures room { OnOk result (HasRoom connection.new) }
    ensures served { IsSomeRun R.custody server.old server.new }
    ensures err { IfErr result (λ exit. IsTrue (breaks_off exit)) }
{
    if bytes.is_empty() {
        *connection = Connection::new(alloc);
        return Ok(());
    }
    if connection.has_ended() {
        return Ok(());
    }
    take(server, connection, writer, heading, bytes)
}
