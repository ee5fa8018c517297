//! What a crash leaves of a list of messages.
ghost use Rattle.xa_server.specs.Interruption.{KeepsAnswered};
ghost use Rattle.xa_server.specs.Steps.{PlaysAreKept, StepsAreKept};

use crate::front::Front;
use crate::server::Server;
use xa_records::Records;

impl<R: Records> Server<R> {
    /// Law: a crash in one of a list of messages, or after it, leaves for some k the states after the first
    /// k messages, once the keeper's storage is opened again. All that were answered are among these k.
    /// The message that the crash has met may be; those that were refused before it are as if they had
    /// never come. After each message before the last the keeper could go on, as `is_open` tells: after any
    /// but a refusal for want of storage it always can. The law rests on the clauses of `serve` alone.
    pub fn keeps_what_was_answered(&self)
        ensures { KeepsAnswered R.custody self.now }
    {}

    /// Law: an answer of a connection (`Connection::answer`) is a step, and so is one of a front
    /// (`Front::step`): a message is served, or none. Any number of steps, after which the keeper can go on,
    /// and then a crash inside the next, or after it, leave the states after the first k messages, as
    /// `keeps_what_was_answered` says. What `run`, `play` and `drive` say was served are steps.
    pub fn steps_are_kept()
        ensures { StepsAreKept R.custody }
    {}
}

impl<R: Records> Front<R> {
    /// Law: a step (`Front::step`) cuts off one message at most, and so one step is all that is done between
    /// two messages. Any number of steps, on whatever connections, after which the keeper can go on, and then
    /// a crash inside the next, or after it, leave the states after the first k of the messages that they cut
    /// off, as `keeps_what_was_answered` says.
    pub fn plays_are_kept()
        ensures { PlaysAreKept R.custody }
    {}
}
