//! What is noted of readers, writers and connections.
ghost use Rattle.std.specs.Prelude.{◌≡◌, ◌++◌, ◌∷◌, []};
ghost use Rattle.xa_server.specs.Transfers.{flush_end, read_end, write_end};

use crate::noted::{Noted, Notes};
use crate::reader::Reader;
use crate::writer::Writer;
use std::io;
use std::marker::Model;

/// How a read has ended. No code makes one: clauses name its type.
#[derive(Drop)]
pub struct ReadCall {
    /// Nothing.
    seal: (),
}

impl Model for ReadCall {
    ghost use Rattle.std.specs.Prelude.{[]};
    ghost use Rattle.xa_server.specs.Codes.{read_coded};
    ghost use Rattle.xa_server.specs.Transfers.{ReadEnd, gave};

    ghost Value = { ReadEnd };

    ghost coded = { read_coded };

    ghost view = { λ _. gave 0 [] };
}

/// How a write or a flush has ended. No code makes one: clauses name its type.
#[derive(Drop)]
pub struct WriteCall {
    /// Nothing.
    seal: (),
}

impl Model for WriteCall {
    ghost use Rattle.xa_server.specs.Codes.{write_coded};
    ghost use Rattle.xa_server.specs.Transfers.{WriteEnd, flushed};

    ghost Value = { WriteEnd };

    ghost coded = { write_coded };

    ghost view = { λ _. flushed };
}

/// A connection, as it was given or taken back. No code makes one: clauses name its type.
#[derive(Drop)]
pub struct PeerCall {
    /// Nothing.
    seal: (),
}

impl Model for PeerCall {
    ghost use Rattle.std.specs.Prelude.{None};
    ghost use Rattle.xa_server.specs.Codes.{peer_coded};
    ghost use Rattle.xa_server.specs.Peers.{Peer};

    ghost Value = { Peer };

    ghost coded = { peer_coded };

    ghost view = { λ _. record { left = None; reads = None; contents = None; writes = None } };
}

/// How a read has ended, by its result and its room.
struct Reading;

impl Notes<io::Result<usize>, (), ReadCall> for Reading {
    ghost calls = { λ result _ room. read_end result room ∷ [] };
}

impl Noted<ReadCall> {
    /// Notes how a read into the room has ended.
    pub fn note_read(&mut self, outcome: &io::Result<usize>, room: &[u8])
        ensures { self.new.calls ≡ self.old.calls ++ read_end outcome.now room.now ∷ [] }
    {
        self.note_by::<io::Result<usize>, (), Reading>(outcome, &(), room);
    }
}

/// How a write has ended, by its result and its bytes.
struct Writing;

impl Notes<io::Result<usize>, (), WriteCall> for Writing {
    ghost calls = { λ result _ bytes. write_end result bytes ∷ [] };
}

/// How a flush has ended, by its result.
struct Flushing;

impl Notes<io::Result<()>, (), WriteCall> for Flushing {
    ghost calls = { λ result _ _. flush_end result ∷ [] };
}

impl Noted<WriteCall> {
    /// Notes how a write of the bytes has ended.
    pub fn note_write(&mut self, outcome: &io::Result<usize>, bytes: &[u8])
        ensures { self.new.calls ≡ self.old.calls ++ write_end outcome.now bytes.now ∷ [] }
    {
        self.note_by::<io::Result<usize>, (), Writing>(outcome, &(), bytes);
    }

    /// Notes how a flush has ended.
    pub fn note_flush(&mut self, outcome: &io::Result<()>)
        ensures { self.new.calls ≡ self.old.calls ++ flush_end outcome.now ∷ [] }
    {
        self.note_by::<io::Result<()>, (), Flushing>(outcome, &(), &[]);
    }
}

/// What is known of a connection, by its two ends.
struct Meeting;

impl<I: Reader, W: Writer> Notes<I, W, PeerCall> for Meeting {
    ghost calls = { λ input output _. record {
      left = I.remaining input;
      reads = I.reads input;
      contents = W.contents output;
      writes = W.writes output;
    } ∷ [] };
}

impl Noted<PeerCall> {
    /// Notes a connection, as it is.
    pub fn note_peer<I: Reader, W: Writer>(&mut self, input: &I, output: &W)
        ensures { self.new.calls ≡ self.old.calls ++ record {
          left = I.remaining input.now;
          reads = I.reads input.now;
          contents = W.contents output.now;
          writes = W.writes output.now;
        } ∷ [] }
    {
        self.note_by::<I, W, Meeting>(input, output, &[]);
    }
}
