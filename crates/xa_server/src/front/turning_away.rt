//! How a connection's message is turned away that asks for a change where none is taken.
ghost use Rattle.std.specs.Prelude.{◌≡◌, IfErr, IfOk, IsSomeAnd};
ghost use Rattle.xa_http.specs.Changing.{TellsChange};
ghost use Rattle.xa_server.specs.Lines.{IsUnasked, line_at};
ghost use Rattle.xa_server.specs.TurningAway.{LeavesState, TurnsAwayAt};

use crate::connection::Answer;
use crate::front::Front;
use crate::front_error::FrontError;
use crate::lines::Conn;
use xa_records::Records;

impl<R: Records> Front<R> {
    /// Whether the connection's first whole message asks for a change; it doesn't if none is whole. Nothing
    /// is changed. Fails with `NoSuchConnection`, if it isn't open; else with `Memory` alone.
    pub fn asks_for_change(&mut self, conn: Conn) -> Result<bool, FrontError>
        ensures tells { IfOk result (λ changes.
            IsSomeAnd (line_at conn self.old.lines) (λ stream. TellsChange stream changes)) }
        ensures err { IfErr result (IsUnasked (line_at conn self.old.lines)) }
        ensures same { self.new ≡ self.old }
    {
        match self.lines.get_mut(conn) {
            Some(connection) => Ok(connection.asks_for_change(self.server.routes())?),
            None => Err(FrontError::NoSuchConnection),
        }
    }

    /// Turns away the first whole message of the connection's bytes: cuts it off, and gives the fixed 503
    /// as its answer, whatever it asks for; nothing if none is whole. The server isn't asked, and is
    /// unchanged; it tells of the message (`Server::take_refused`). No other connection's bytes change.
    /// Without memory before the message is cut off nothing has changed. Fails with `NoSuchConnection`, if
    /// it isn't open; else with `Memory` alone.
    #[tactic(auto, using(crate::proofs::TurningAwayLemmas::turned_at, crate::proofs::TurningAwayLemmas::unturned_at, crate::proofs::TurningAwayLemmas::kept_at))]
    pub fn turn_away(&mut self, conn: Conn) -> Result<Option<Answer>, FrontError>
        ensures turned { TurnsAwayAt conn self.old.lines result self.new.lines }
        ensures server { self.new.server ≡ self.old.server }
    {
        let Some(connection) = self.lines.get_mut(conn) else {
            return Err(FrontError::NoSuchConnection);
        };
        let Some(turned) = connection.turn_away()? else {
            return Ok(None);
        };
        self.server.note_turned_away(&turned.message);
        Ok(Some(turned.answer))
    }
}

/// Law: a message that asks for no change leaves its domain as it is. So what is served where each message
/// that asks for one is turned away changes nothing.
pub fn unchanging_messages_leave_the_state()
    ensures { LeavesState }
{}
