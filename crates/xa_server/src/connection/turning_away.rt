//! How the first message of a connection is turned away: it is cut off, and no server is asked.
ghost use Rattle.std.specs.Prelude.{◌≡◌, IfOk, MatchResult};
ghost use Rattle.xa_http.specs.Changing.{TellsChange};
ghost use Rattle.xa_server.specs.TurningAway.{TurnsAway};

use crate::connection::{Answer, Connection};
use crate::replies::{Reply, turned_away_reply};
use std::alloc::AllocError;
use xa_http::{Message, Next, Routes};

/// A message that was turned away.
#[derive(Drop)]
pub(crate) struct TurnedAway {
    /// The message.
    pub(crate) message: Message,
    /// The answer: the fixed 503.
    pub(crate) answer: Answer,
}

impl Connection {
    /// Whether the first whole message that it holds asks for a change; it doesn't if none is whole. Nothing
    /// is changed.
    pub fn asks_for_change(&mut self, routes: &Routes) -> Result<bool, AllocError>
        ensures tells { IfOk result (TellsChange self.old) }
        ensures same { self.new ≡ self.old }
    {
        self.session.asks_for_change(routes)
    }

    /// Turns away the first whole message that it holds: cuts it off, and gives the fixed 503 as the answer
    /// to it. Nothing if none is whole, also if its stream ends by a fault. Without memory nothing has
    /// changed.
    pub(crate) fn turn_away(&mut self) -> Result<Option<TurnedAway>, AllocError>
        ensures { MatchResult result (λ turned. TurnsAway self.old turned self.new)
            (λ _. self.new ≡ self.old) }
    {
        let reply = Reply::Sent(turned_away_reply(self.alloc)?);
        let Next::Message(message) = self.session.cut()? else {
            return Ok(None);
        };
        let last = self.session.has_ended();
        Ok(Some(TurnedAway {
            message,
            answer: Answer { reply, last },
        }))
    }
}
