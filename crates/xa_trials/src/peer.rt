//! The other end of a connection that is driven: a reader and a writer of their own, whose calls
//! are short, are interrupted, or fail.
ghost use Rattle.std.specs.Prelude.{◌≡◌, Some};
ghost use Rattle.std.specs.Io.{ReadsAtMost, WritesAtMost};

use crate::answer::Answer;
use crate::field::{first_and_last, number_of};
use crate::no_answer::NoAnswer;
use crate::runs::Runs;
use std::alloc::Global;
use std::io::{self, ErrorKind};
use std::mem;
use xa_server::{Noted, ReadCall, Reader, WriteCall, Writer};

/// How calls of one kind go: how many bytes each gives or takes at most, which one fails, and which
/// are interrupted. They are counted from 1 on.
#[derive(Clone, Copy)]
pub struct CallPlan {
    /// How many bytes each gives or takes at most.
    size: usize,
    /// The number of the one that fails; 0 if none does.
    fails: u64,
    /// The number of the first that is interrupted.
    first: u64,
    /// The number of the last that is interrupted.
    last: u64,
    /// How many were made.
    count: u64,
}

impl CallPlan {
    /// Calls of which none fails.
    fn new() -> CallPlan {
        CallPlan {
            size: usize::MAX,
            fails: 0,
            first: 1,
            last: 0,
            count: 0,
        }
    }

    /// Sets what the text says: `size N`, `fails N`, or `interrupted N-M`.
    pub fn set(&mut self, text: &str) -> Result<(), NoAnswer> {
        let (word, number) = text.split_once(' ').ok_or(NoAnswer::Malformed)?;
        match word {
            "size" => self.size = number_of(number)?,
            "fails" => self.fails = number_of(number)?,
            "interrupted" => {
                let (first, last) = first_and_last(number)?;
                self.first = first;
                self.last = last;
            }
            _ => return Err(NoAnswer::Malformed),
        }
        Ok(())
    }

    /// How many bytes the next call may give or take.
    fn next(&mut self) -> io::Result<usize> {
        self.count = self.count.saturating_add(1);
        if self.first <= self.count && self.count <= self.last {
            return Err(io::Error::from(ErrorKind::Interrupted));
        }
        if self.count == self.fails {
            return Err(io::Error::from(ErrorKind::Other));
        }
        Ok(self.size)
    }
}

/// What the peer sends.
#[derive(Drop)]
pub struct Sender {
    /// How it is read.
    pub reads: CallPlan,
    /// The bytes, of which some are read already.
    pub bytes: Vec<u8>,
    /// How many of them are read.
    at: usize,
    /// How the reads have ended, for clauses alone.
    noted: Noted<ReadCall>,
}

impl Sender {
    /// Nothing is sent.
    pub fn new(alloc: Global) -> Sender {
        Sender {
            reads: CallPlan::new(),
            bytes: Vec::new(alloc),
            at: 0,
            noted: Noted::new(),
        }
    }

    /// Adds how many bytes are left, if there are some.
    pub fn push_unread(&self, answer: &mut Answer) {
        let unread = self.bytes.len().saturating_sub(self.at);
        if unread > 0 {
            answer.push_shown("unread ", &unread);
        }
    }

    /// Gives the next bytes.
    fn give(&mut self, room: &mut [u8]) -> io::Result<usize>
        ensures bound { ReadsAtMost result room.new }
        ensures noted { self.new.noted ≡ self.old.noted }
    {
        let size = self.reads.next()?.min(room.len());
        let rest = self.bytes.get(self.at..).unwrap_or(&[]);
        let count = size.min(rest.len());
        room[..count].copy_from_slice(&rest[..count]);
        self.at = self.at.saturating_add(count);
        Ok(count)
    }
}

impl Reader for Sender {
    ghost reads = { λ sender. Some sender.noted.calls };

    fn receive(&mut self, room: &mut [u8]) -> io::Result<usize> {
        let result = self.give(room);
        self.noted.note_read(&result, room);
        result
    }
}

/// What the peer gets.
#[derive(Drop)]
pub struct Receiver {
    /// Where memory comes from.
    alloc: Global,
    /// How it is written to.
    pub writes: CallPlan,
    /// How it is flushed.
    pub flushes: CallPlan,
    /// What was written since it was last flushed.
    kept: Vec<u8>,
    /// What it has got, at each flush.
    got: Vec<Vec<u8>>,
    /// How the writes and flushes have ended, for clauses alone.
    noted: Noted<WriteCall>,
}

impl Receiver {
    /// Nothing was got.
    pub fn new(alloc: Global) -> Receiver {
        Receiver {
            alloc,
            writes: CallPlan::new(),
            flushes: CallPlan::new(),
            kept: Vec::new(alloc),
            got: Vec::new(alloc),
            noted: Noted::new(),
        }
    }

    /// Adds what it has got at each flush, and what was written after the last one.
    pub fn push_got(&self, answer: &mut Answer) -> Result<(), NoAnswer> {
        let mut runs = Runs::new(self.alloc);
        for bytes in &self.got {
            runs.push(answer, bytes, false)?;
        }
        runs.end(answer);
        if !self.kept.is_empty() {
            answer.push_field("unflushed:", &self.kept);
        }
        Ok(())
    }

    /// Takes the next bytes.
    fn take(&mut self, bytes: &[u8]) -> io::Result<usize>
        ensures bound { WritesAtMost result bytes.now }
        ensures noted { self.new.noted ≡ self.old.noted }
    {
        let count = self.writes.next()?.min(bytes.len());
        self.kept.extend_from_slice(&bytes[..count])?;
        Ok(count)
    }

    /// Gets what it took since the last flush.
    fn get(&mut self) -> io::Result<()>
        ensures { self.new.noted ≡ self.old.noted }
    {
        self.flushes.next()?;
        if !self.kept.is_empty() {
            let kept = mem::replace(&mut self.kept, Vec::new(self.alloc));
            self.got.push(kept)?;
        }
        Ok(())
    }
}

impl Writer for Receiver {
    ghost writes = { λ receiver. Some receiver.noted.calls };

    fn send(&mut self, bytes: &[u8]) -> io::Result<usize> {
        let result = self.take(bytes);
        self.noted.note_write(&result, bytes);
        result
    }

    fn deliver(&mut self) -> io::Result<()> {
        let result = self.get();
        self.noted.note_flush(&result);
        result
    }
}
