//! The reply that is under way to the peer of a connection.
ghost use Rattle.std.specs.Prelude.{◌≡◌, ◌<◌, ◌==◌, length, Some};
ghost use Rattle.xa_reactor.specs.Sending.{IsSentOf, answer_bytes, none_under_way, under_way_of};

use crate::network::Network;
use std::io::ErrorKind;
use std::marker::Model;
use xa_records::Failure;
use xa_server::{Answer, Reply};

/// How a write that doesn't wait ended.
#[derive(Clone, Copy, Debug, PartialEq, Eq)]
pub enum Sending {
    /// It took so many bytes; none if it was interrupted.
    Went(usize),
    /// Nothing is taken now.
    Blocked,
    /// It failed.
    Broke,
}

/// The reply that is under way to a peer, if one is.
#[derive(Drop)]
pub struct Outgoing {
    /// The answer whose reply it is.
    answer: Option<Answer>,
    /// How many bytes of it were sent.
    sent: usize,
}

impl Model for Outgoing {
    ghost use Rattle.std.specs.Prelude.{◌≤◌, length, drop};
    ghost use Rattle.xa_reactor.specs.Sending.{UnderWay, answer_bytes, is_last};

    ghost Value = { UnderWay };

    ghost view = { λ o. record {
      left = drop o.sent (answer_bytes o.answer);
      held = length (answer_bytes o.answer);
      last = is_last o.answer;
    } };

    ghost invariant = { λ o. o.sent ≤ length (answer_bytes o.answer) };
}

/// The bytes of an answer's reply, if there is one.
fn bytes_of_answer(answer: &Option<Answer>) -> &[u8]
    ensures { result.now ≡ answer_bytes answer.now }
{
    match answer {
        Some(answer) => answer.reply.bytes(),
        None => &[],
    }
}

impl Outgoing {
    /// Nothing is under way.
    pub(crate) fn nothing() -> Outgoing
        ensures { result ≡ none_under_way }
    {
        Outgoing {
            answer: None,
            sent: 0,
        }
    }

    /// The reply of this answer is under way, whole.
    pub(crate) fn of(answer: Answer) -> Outgoing
        ensures { result ≡ under_way_of (Some answer) }
    {
        Outgoing {
            answer: Some(answer),
            sent: 0,
        }
    }

    /// How many bytes are held for it: all of the reply, until it is sent whole.
    pub(crate) fn held(&self) -> usize
        ensures { result ≡ self.now.held }
    {
        bytes_of_answer(&self.answer).len()
    }

    /// Whether nothing is left to be sent.
    pub(crate) fn is_empty(&self) -> bool
        ensures { result ≡ (length self.now.left == 0) }
    {
        self.held() - self.sent == 0
    }

    /// Whether the reply is the last of its connection.
    pub(crate) fn is_last(&self) -> bool
        ensures { result ≡ self.now.last }
    {
        matches!(&self.answer, Some(answer) if answer.last)
    }

    /// Whether it tells that a message was refused for want of storage.
    pub(crate) fn wants_storage(&self) -> bool {
        matches!(&self.answer, Some(answer) if matches!(answer.reply, Reply::Refused(Failure::Store)))
    }

    /// Sends some of it to a place, by one write that doesn't wait.
    pub(crate) fn send<N: Network>(&mut self, network: &mut N, place: usize) -> Sending
        requires { 0 < length self.old.left }
        ensures { IsSentOf result place self.old self.new (N.done network.old) (N.done network.new) }
    {
        match network.send(place, &bytes_of_answer(&self.answer)[self.sent..]) {
            Ok(0) => Sending::Broke,
            Ok(count) => {
                self.sent += count;
                Sending::Went(count)
            }
            Err(error) if error.kind() == ErrorKind::WouldBlock => Sending::Blocked,
            Err(error) if error.kind() == ErrorKind::Interrupted => Sending::Went(0),
            Err(_) => Sending::Broke,
        }
    }
}
