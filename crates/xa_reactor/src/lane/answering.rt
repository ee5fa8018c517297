//! How the next of a connection is answered, or its message is turned away.
ghost use Rattle.std.specs.Prelude.{◌≡◌, false, true, IfOk, IsSomeAnd};
ghost use Rattle.xa_http.specs.Changing.{TellsChange};
ghost use Rattle.xa_server.specs.Lines.{line_at};
ghost use Rattle.xa_server.specs.TurningAway.{serves, serves_unchanging, turns_away};
ghost use Rattle.xa_reactor.specs.declared.access.Access.TheVariants as access;
ghost use Rattle.xa_reactor.specs.Step.{AreHandledBy};
ghost use Rattle.xa_reactor.specs.handling.Going.{AreAll, Asks, answer_asked, answer_in};

use crate::access::Access;
use crate::halt::Halt;
use crate::lane::Share;
use xa_records::Records;
use xa_server::{Answer, Clock, Conn, Front, FrontError};

/// Asks for the next answer to a connection, at the clock's moment.
fn ask<R: Records, C: Clock>(
    front: &mut Front<R>,
    clock: &mut C,
    conn: Conn,
) -> Result<Result<Option<Answer>, FrontError>, Halt>
    ensures serves { Asks R.custody conn (AreAll serves) (answer_asked result) front.old front.new }
    ensures unchanging { IsSomeAnd (line_at conn front.old.lines) (λ stream. TellsChange stream false)
        → Asks R.custody conn (AreAll serves_unchanging) (answer_asked result) front.old front.new }
{
    let Some(moment) = clock.now() else {
        return Err(Halt::NoClock);
    };
    Ok(front.answer(conn, moment))
}

/// Turns away the next message of a connection, which asks for a change.
fn turn_away<R: Records>(front: &mut Front<R>, conn: Conn) -> Result<Option<Answer>, FrontError>
    requires { IsSomeAnd (line_at conn front.old.lines) (λ stream. TellsChange stream true) }
    ensures { Asks R.custody conn (AreAll turns_away) (answer_in result) front.old front.new }
{
    front.turn_away(conn)
}

/// Answers the next of a connection that came at the first of two addresses: its message is turned away
/// exactly if it asks for a change.
fn answer_unchanging<R: Records, C: Clock>(
    front: &mut Front<R>,
    clock: &mut C,
    conn: Conn,
) -> Result<Result<Option<Answer>, FrontError>, Halt>
    ensures { Asks R.custody conn (AreHandledBy access.Asks) (answer_asked result) front.old front.new }
{
    let asks = match front.asks_for_change(conn) {
        Ok(asks) => asks,
        Err(error) => return Ok(Err(error)),
    };
    if asks {
        return Ok(turn_away(front, conn));
    }
    ask(front, clock, conn)
}

/// Answers the next of a connection, at the clock's moment; or turns its message away, if no change may be
/// asked for at the address where it came.
pub(super) fn answer_next<R: Records, C: Clock>(
    front: &mut Front<R>,
    clock: &mut C,
    share: Share,
) -> Result<Result<Option<Answer>, FrontError>, Halt>
    ensures { Asks R.custody share.conn (AreHandledBy share.access) (answer_asked result)
        front.old front.new }
{
    match share.access {
        Access::Asks => answer_unchanging(front, clock, share.conn),
        Access::All | Access::Changes => ask(front, clock, share.conn),
    }
}
