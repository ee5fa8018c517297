//! A reactor: many connections over one front, in turns. In each turn every connection has one share: what
//! is under way to its peer goes on, one piece of its stream is read, and one of its messages is answered.
//!
//! The steps, from the outermost. Each has a function of its own, whose clauses settle one question:
//! 1. `Reactor::run`: what is done until all connections have ended? (`IsServedAtOnce`)
//! 2. `Reactor::turn`: what is done in one turn, and for whom? (`IsTurn`)
//! 3. `Reactor::take_some`: who is taken, and who has to go for it? (`AreTaken`)
//! 4. `Lane::go`: what is done for one connection in its share? (`IsStep`)
//! 5. `Lane::send_some`, `read_some`, `answer_next`: one write, one read, one answer.
//!
//! Where connections come from, and what is ready, a `Network` says, and the time a `Timer`. No clause
//! rests on what is ready: a call that is made too early finds nothing, and one that is left out comes a
//! turn later.
#![tactic(auto)]

mod access;
mod board;
mod door;
mod halt;
mod lane;
mod lanes;
mod limits;
mod network;
mod noted;
mod outgoing;
mod progress;
mod reactor;
mod timer;

pub use board::{Board, Ready};
pub use halt::Halt;
pub use lanes::PLACES;
pub use limits::{Limits, Stage};
pub use network::{Arrival, Network};
pub use noted::NotedNetwork;
pub use progress::Reason;
pub use reactor::{Reactor, streams_of_sittings, turns_go_on};
pub use timer::Timer;
