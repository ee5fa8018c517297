//! Equal fields in a row.
use crate::answer::Answer;
use crate::no_answer::NoAnswer;
use std::alloc::Global;

/// Fields that are added one after another. Equal ones in a row are added once, and after them how many
/// they are, as `*COUNT`.
#[derive(Drop)]
pub struct Runs {
    /// The bytes of the last field.
    before: Vec<u8>,
    /// Whether a connection has ended with them.
    is_last: bool,
    /// How many equal fields there are so far; 0 before the first.
    count: usize,
}

impl Runs {
    /// No field as yet.
    pub fn new(alloc: Global) -> Runs {
        Runs {
            before: Vec::new(alloc),
            is_last: false,
            count: 0,
        }
    }

    /// Adds how many the last ones are, if they are several.
    pub fn end(&mut self, answer: &mut Answer) {
        if self.count > 1 {
            answer.push_shown("*", &self.count);
        }
        self.count = 0;
    }

    /// Adds a field of these bytes. If a connection has ended with them, a further field says so.
    pub fn push(
        &mut self,
        answer: &mut Answer,
        bytes: &[u8],
        is_last: bool,
    ) -> Result<(), NoAnswer> {
        if self.count > 0 && self.is_last == is_last && self.before.as_slice() == bytes {
            self.count = self.count.saturating_add(1);
            return Ok(());
        }
        self.end(answer);
        answer.push_field("", bytes);
        push_last(answer, is_last);
        self.before.clear();
        self.before.extend_from_slice(bytes)?;
        self.is_last = is_last;
        self.count = 1;
        Ok(())
    }
}

/// Adds that a connection has ended, if it has.
pub fn push_last(answer: &mut Answer, is_last: bool) {
    if is_last {
        answer.push_word("last");
    }
}

/// Adds the next answer of a front, and whether its connection has ended with it; or that there is none.
pub fn push_answer(answer: &mut Answer, given: Option<&xa_server::Answer>) {
    match given {
        Some(given) => {
            answer.push_field("", given.reply.bytes());
            push_last(answer, given.last);
        }
        None => answer.push_word("!None"),
    }
}
