//! What the stops of a script have struck.
use crate::answer::Answer;
use crate::no_answer::NoAnswer;
use std::alloc::Global;

/// Which messages were struck, and what a crash has left the last time.
#[derive(Drop)]
pub struct Sweep {
    /// How many stops there were.
    stops: u64,
    /// How many stops came before the first message, and then how many have struck each.
    counts: Vec<u64>,
    /// The number of the message that was struck the last time.
    struck: usize,
    /// All bytes of the files then, at both ends of the crash.
    left: Vec<u8>,
}

impl Sweep {
    /// No stop has come yet to so many messages.
    pub fn new(alloc: Global, messages: usize) -> Result<Sweep, NoAnswer> {
        let mut counts = Vec::new(alloc);
        counts.resize(messages.saturating_add(1), 0u64)?;
        Ok(Sweep {
            stops: 0,
            counts,
            struck: usize::MAX,
            left: Vec::new(alloc),
        })
    }

    /// Counts a stop that has struck that message.
    pub fn count(&mut self, struck: usize) {
        self.stops = self.stops.saturating_add(1);
        if let Some(count) = self.counts.get_mut(struck) {
            *count = count.saturating_add(1);
        }
    }

    /// Notes what a crash has left after that message. Whether the last crash left something else, or
    /// after another message.
    pub fn note(&mut self, struck: usize, left: Vec<u8>) -> bool {
        let is_new = self.struck != struck || self.left.as_slice() != left.as_slice();
        self.struck = struck;
        self.left = left;
        is_new
    }

    /// Adds how many stops there were, and how many have struck each message, as `NUMBER COUNT`; 0 is
    /// before the first.
    pub fn push(&self, answer: &mut Answer) {
        answer.push_shown("stops ", &self.stops);
        for (number, count) in self.counts.iter().enumerate() {
            answer.push_shown("", &number);
            answer.append_shown(" ", count);
        }
    }
}
