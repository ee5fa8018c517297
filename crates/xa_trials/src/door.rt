//! Peers that wait to be taken, one after another, and those with which the server has parted.
ghost use Rattle.std.specs.Prelude.{Some};

use crate::answer::Answer;
use crate::no_answer::NoAnswer;
use crate::peer::{Receiver, Sender};
use std::alloc::Global;
use std::collections::VecDeque;
use xa_server::{AcceptError, Noted, PeerCall, Peers};

/// The other end of a connection: what it sends, and what it gets.
#[derive(Drop)]
pub struct Ends {
    /// What it sends.
    pub sender: Sender,
    /// What it gets.
    pub receiver: Receiver,
}

impl Ends {
    /// A peer that sends nothing.
    pub fn new(alloc: Global) -> Ends {
        Ends {
            sender: Sender::new(alloc),
            receiver: Receiver::new(alloc),
        }
    }

    /// Adds what it has got, and how much of what it sent is left.
    pub fn push(&self, answer: &mut Answer) -> Result<(), NoAnswer> {
        self.receiver.push_got(answer)?;
        self.sender.push_unread(answer);
        Ok(())
    }
}

/// Peers in the order in which they came.
#[derive(Drop)]
pub struct Door {
    /// Those that wait.
    pub waiting: VecDeque<Ends>,
    /// Those with which the server has parted.
    pub parted: VecDeque<Ends>,
    /// How many are still taken before it is shut.
    pub left: usize,
    /// Whether the last has been taken: then none is any more.
    is_shut: bool,
    /// The connections that were given, for clauses alone.
    noted: Noted<PeerCall>,
    /// Those that were taken back, too.
    noted_parted: Noted<PeerCall>,
}

impl Door {
    /// Nobody waits.
    pub fn new(alloc: Global) -> Door {
        Door {
            waiting: VecDeque::new(alloc),
            parted: VecDeque::new(alloc),
            left: 0,
            is_shut: false,
            noted: Noted::new(),
            noted_parted: Noted::new(),
        }
    }
}

impl Peers for Door {
    type Input = Sender;

    type Output = Receiver;

    ghost came = { λ door. Some door.noted.calls };

    ghost parted = { λ door. Some door.noted_parted.calls };

    fn next(&mut self) -> Result<(Sender, Receiver), AcceptError> {
        if self.is_shut {
            return Err(AcceptError::Failed);
        }
        let Some(ends) = self.waiting.pop_front() else {
            return Err(AcceptError::Failed);
        };
        self.left = self.left.saturating_sub(1);
        self.is_shut = self.left == 0;
        let Ends { sender, receiver } = ends;
        self.noted.note_peer(&sender, &receiver);
        Ok((sender, receiver))
    }

    fn part(&mut self, input: Sender, output: Receiver, _by_fault: bool) {
        self.noted_parted.note_peer(&input, &output);
        // Without memory it is lost, and so is its part of the row's answer.
        let _parted = self.parted.push_back(Ends {
            sender: input,
            receiver: output,
        });
    }
}
