//! Transcripts: entries of a line `CONNECTION MOMENT COUNT`, as many bytes as it counts, and a line feed.
ghost use Rattle.std.specs.Prelude.{◌≡◌, ◌≢◌, ◌≤◌, ◌<◌, [], Err, IfErr, IfOk, OnOk};
ghost use Rattle.std.specs.Io.KnownBytes.{IsAtEnd, Keeps};
ghost use Rattle.pdpd.specs.declared.exit.Exit.TheVariants.{Usage};
ghost use Rattle.pdpd.specs.declared.replay.transcript.EntryFault.TheVariants.{Failed};
ghost use Rattle.pdpd.specs.Exit.{exit_of_read};
ghost use Rattle.pdpd.specs.running.Reading.{Adds, IsOfReader, TakesBody, TakesByte};
ghost use Rattle.pdpd.specs.running.Reading.{TakesBytes, TakesHeading, TakesLine, remaining_of};
ghost use Rattle.pdpd.specs.Transcript.{IsNoBody, IsNoEntry, IsNoHeading, Rejects};
ghost use Rattle.pdpd.specs.Transcript.{TakesEntry, TakesOrRejects, most_reads};

use crate::exit::Exit;
use crate::replay::heading::{Heading, heading_of};
use crate::replay::read_buffer::ReadBuffer;
use crate::replay::transcript_fault::TranscriptFault;
use std::alloc::{AllocError, AllocFailed, Global};
use std::io::{self, ErrorKind, Read};

/// The most bytes of an entry's line, without its line feed. A heading without leading zeros has at most 23.
const MAX_LINE_BYTES: usize = 64;

/// How often a transcript is read from, in all: some minutes of single bytes or of interrupted
/// reads. One read more counts as a failed read.
const MAX_READS: u64 = 1_000_000_000;

/// Why the next entry can't be read.
#[derive(Clone, Copy)]
pub enum EntryFault {
    /// The next entry is malformed or cut.
    Malformed(TranscriptFault),
    /// The reader failed.
    Failed,
    /// There was no memory for it.
    Memory,
}

impl EntryFault {
    /// How the program ends by it, at that entry.
    pub fn exit(self, entry: u64) -> Exit
        ensures exit { result ≡ exit_of_read entry self }
        ensures other { result ≢ Usage }
    {
        match self {
            EntryFault::Malformed(fault) => Exit::Malformed { entry, fault },
            EntryFault::Failed => Exit::Failed,
            EntryFault::Memory => Exit::Memory,
        }
    }
}

impl From<AllocError> for EntryFault {
    ghost use Rattle.std.specs.Prelude.{◌≡◌};
    ghost use Rattle.pdpd.specs.declared.replay.transcript.EntryFault.TheVariants.{Memory};

    ghost from_gives = { λ _ fault. fault ≡ Memory };

    fn from(_: AllocError) -> EntryFault {
        EntryFault::Memory
    }
}

impl<T: Drop> From<AllocFailed<T>> for EntryFault {
    ghost use Rattle.std.specs.Prelude.{◌≡◌};
    ghost use Rattle.pdpd.specs.declared.replay.transcript.EntryFault.TheVariants.{Memory};

    ghost from_gives = { λ _ fault. fault ≡ Memory };

    fn from(_: AllocFailed<T>) -> EntryFault {
        EntryFault::Memory
    }
}

impl From<io::Error> for EntryFault {
    ghost use Rattle.pdpd.specs.running.Reading.{IsOfReader};

    ghost from_gives = { λ _ fault. IsOfReader fault };

    fn from(error: io::Error) -> EntryFault {
        match error.kind() {
            ErrorKind::OutOfMemory => EntryFault::Memory,
            _ => EntryFault::Failed,
        }
    }
}

/// A transcript, which is read a piece at a time.
#[derive(Drop)]
pub struct Transcript<R> {
    /// Where it is read from.
    reader: R,
    /// What is read of it and not yet taken.
    buffer: ReadBuffer,
    /// How often it may still be read from.
    reads_left: u64,
}

impl<R: Read> Transcript<R> {
    /// A transcript of which nothing is read yet.
    pub fn new(alloc: Global, reader: R) -> Result<Transcript<R>, AllocError>
    where
        R: Drop,
        ensures remaining { IfOk result (λ transcript.
            remaining_of R.remaining transcript ≡ R.remaining reader) }
        ensures reads { IfOk result (λ transcript. transcript.reads_left ≡ most_reads) }
    {
        Ok(Transcript {
            buffer: ReadBuffer::new(alloc)?,
            reader,
            reads_left: MAX_READS,
        })
    }

    /// Reads on, if all that was read is taken. Afterwards the buffer is empty only at the transcript's end.
    /// Each read is counted, also one that is interrupted.
    fn read_on(&mut self) -> Result<(), EntryFault>
        ensures keeps { OnOk result
            (Keeps (remaining_of R.remaining self.old) (remaining_of R.remaining self.new)) }
        ensures end { OnOk result (self.new.buffer ≡ [] → IsAtEnd (remaining_of R.remaining self.new)) }
        ensures fewer { self.new.reads_left ≤ self.old.reads_left }
        ensures counted { OnOk result (self.old.buffer ≡ [] → self.new.reads_left < self.old.reads_left) }
        ensures spent { self.old.buffer ≡ [] → self.old.reads_left ≡ 0 → result ≡ Err Failed }
        ensures err { IfErr result IsOfReader }
    {
        if !self.buffer.is_empty() {
            return Ok(());
        }
        while self.reads_left > 0 {
            self.reads_left -= 1;
            match self.buffer.fill(&mut self.reader) {
                Ok(()) => return Ok(()),
                Err(error) if error.kind() == ErrorKind::Interrupted => {}
                Err(error) => return Err(EntryFault::from(error)),
            }
        }
        Err(EntryFault::Failed)
    }

    /// The next byte, if the transcript goes on.
    fn next_byte(&mut self) -> Result<Option<u8>, EntryFault>
        ensures byte { IfOk result
            (TakesByte (remaining_of R.remaining self.old) (remaining_of R.remaining self.new)) }
        ensures err { IfErr result IsOfReader }
    {
        self.read_on()?;
        Ok(self.buffer.take_first())
    }

    /// Moves at most `most` bytes of the transcript to the end of `bytes`. Whether the transcript went on.
    fn append_to(&mut self, bytes: &mut Vec<u8>, most: usize) -> Result<bool, EntryFault>
        ensures added { IfOk result
            (Adds most (remaining_of R.remaining self.old) (remaining_of R.remaining self.new)
            bytes.old.items bytes.new.items) }
        ensures err { IfErr result IsOfReader }
    {
        self.read_on()?;
        let goes_on = !self.buffer.is_empty();
        self.buffer.move_to(bytes, most)?;
        Ok(goes_on)
    }

    /// The line before the next entry, in place of what `line` holds. Whether there is one.
    fn next_line(&mut self, line: &mut Vec<u8>) -> Result<bool, EntryFault>
        ensures { let left = remaining_of R.remaining self.old in
            let rest = remaining_of R.remaining self.new in
            TakesOrRejects (TakesLine left rest line.new.items) (Rejects IsNoHeading left rest) result }
    {
        line.clear();
        for _ in 0..MAX_LINE_BYTES + 1 {
            match self.next_byte()? {
                Some(b'\n') => return Ok(true),
                Some(byte) => line.push(byte)?,
                None if line.is_empty() => return Ok(false),
                None => return Err(EntryFault::Malformed(TranscriptFault::CutLine)),
            }
        }
        Err(EntryFault::Malformed(TranscriptFault::LongLine))
    }

    /// The heading of the next entry, if there is one. Its line takes the place of what `line` holds.
    fn next_heading(&mut self, line: &mut Vec<u8>) -> Result<Option<Heading>, EntryFault>
        ensures { let left = remaining_of R.remaining self.old in
            let rest = remaining_of R.remaining self.new in
            TakesOrRejects (TakesHeading left rest) (Rejects IsNoHeading left rest) result }
    {
        if !self.next_line(line)? {
            return Ok(None);
        }
        match heading_of(line) {
            Ok(heading) => Ok(Some(heading)),
            Err(fault) => Err(EntryFault::Malformed(TranscriptFault::Heading(fault))),
        }
    }

    /// That many bytes, in place of what `bytes` holds.
    fn take(&mut self, count: usize, bytes: &mut Vec<u8>) -> Result<(), EntryFault>
        ensures { let left = remaining_of R.remaining self.old in
            let rest = remaining_of R.remaining self.new in
            TakesOrRejects (λ _. TakesBytes left rest count bytes.new.items)
            (Rejects (IsNoBody count) left rest) result }
    {
        bytes.clear();
        while bytes.len() < count {
            if !self.append_to(bytes, count - bytes.len())? {
                return Err(EntryFault::Malformed(TranscriptFault::CutBytes));
            }
        }
        Ok(())
    }

    /// The bytes of an entry, in place of what `bytes` holds, and the line feed after them.
    fn body(&mut self, count: usize, bytes: &mut Vec<u8>) -> Result<(), EntryFault>
        ensures { let left = remaining_of R.remaining self.old in
            let rest = remaining_of R.remaining self.new in
            TakesOrRejects (λ _. TakesBody left rest count bytes.new.items)
            (Rejects (IsNoBody count) left rest) result }
    {
        self.take(count, bytes)?;
        // The last two arms give the same, but are proved apart.
        match self.next_byte()? {
            Some(b'\n') => Ok(()),
            Some(_) => Err(EntryFault::Malformed(TranscriptFault::NoLineFeed)),
            None => Err(EntryFault::Malformed(TranscriptFault::NoLineFeed)),
        }
    }

    /// The heading of the next entry, if there is one, and its bytes in place of what `bytes` holds.
    pub fn next_entry(&mut self, bytes: &mut Vec<u8>) -> Result<Option<Heading>, EntryFault>
        ensures { let left = remaining_of R.remaining self.old in
            let rest = remaining_of R.remaining self.new in
            TakesOrRejects (TakesEntry left rest bytes.new.items) (Rejects IsNoEntry left rest) result }
    {
        let Some(heading) = self.next_heading(bytes)? else {
            return Ok(None);
        };
        self.body(heading.count, bytes)?;
        Ok(Some(heading))
    }
}
