//! What the program holds between the entries of a transcript, and what it does with an entry.
ghost use Rattle.std.specs.Prelude.{◌≡◌, ◌<◌, [], IsTrue, IfErr, IfOk, OnOk};
ghost use Rattle.std.specs.Io.Buffered.{writer_buffer, writer_contents, writer_inner};
ghost use Rattle.sha2.specs.Sha256.{sha256};
ghost use Rattle.xa_server.specs.Decisions.{nothing_cached};
ghost use Rattle.xa_server.specs.Lines.{all_open};
ghost use Rattle.pdpd.specs.declared.exit.Exit.TheVariants.{Memory};
ghost use Rattle.pdpd.specs.Exit.{breaks_off};
ghost use Rattle.pdpd.specs.Replay.{IsEntryReplied, IsSomeRun};
ghost use Rattle.pdpd.specs.running.Replaying.{AreReady, Writes};

use crate::exit::Exit;
use crate::replay::heading::Heading;
use crate::replay::telling::answer_bytes;
use std::alloc::Global;
use std::io::{BufWriter, Write};
use xa_records::{Digest, Records};
use xa_server::{Conn, Front, Server};

/// How many bytes of replies are held before they are written: so many that the system's calls cost little
/// beside them.
const BUFFER_BYTES: usize = 65_536;

/// What the program holds between entries.
#[derive(Drop)]
pub struct Replayer<R: Records + Drop, W: Write + Drop> {
    /// Where memory comes from.
    pub alloc: Global,
    /// The server, and the connections of the transcript, each by its own number. All are open: one that is
    /// closed gives its place to the next.
    pub front: Front<R>,
    /// Where the replies are written.
    pub writer: BufWriter<W>,
}

impl<R: Records + Drop, W: Write + Drop> Replayer<R, W> {
    /// A replayer over a keeper, for the operator of that token. All connections are open, and nothing has
    /// come on them.
    pub fn new(alloc: Global, records: R, writer: W, token: &str) -> Result<Replayer<R, W>, Exit>
        ensures operator { IfOk result (λ replayer. replayer.front.server.operator ≡ sha256 token.now) }
        ensures records { IfOk result (λ replayer. replayer.front.server.records ≡ records) }
        ensures decisions { IfOk result (λ replayer. replayer.front.server.decisions ≡ nothing_cached) }
        ensures opened { IfOk result (λ replayer. replayer.front.lines ≡ all_open) }
        ensures writer { IfOk result (λ replayer. writer_inner replayer.writer ≡ writer) }
        ensures unwritten { IfOk result (λ replayer. writer_buffer replayer.writer ≡ []) }
        ensures err { IfErr result (λ exit. exit ≡ Memory) }
    {
        let operator = Digest::of(token.as_bytes());
        let server = Server::new(alloc, records, operator)?;
        Ok(Replayer {
            alloc,
            front: Front::all_open(alloc, server)?,
            writer: BufWriter::with_capacity(alloc, BUFFER_BYTES, writer)?,
        })
    }

    /// Hands the bytes of an entry to its connection, and writes the replies to them. No other connection is
    /// in reach then.
    #[tactic(auto, using(crate::proofs::ReadyLemmas::entry_replied, crate::proofs::ReadyLemmas::ready_room, crate::proofs::ReadyLemmas::ready_put))]
    pub fn answer_entry(&mut self, heading: &Heading, bytes: &[u8]) -> Result<(), Exit>
        requires ready { AreReady self.old.front.lines }
        requires within { heading.now.connection < 64 }
        ensures ready { OnOk result (AreReady self.new.front.lines) }
        ensures replied { OnOk result (Writes
            (writer_contents W.contents self.old.writer) (writer_contents W.contents self.new.writer)
            (IsEntryReplied R.custody heading.now bytes.now self.old.front self.new.front)) }
        ensures served { IsSomeRun R.custody self.old.front.server self.new.front.server }
        ensures err { IfErr result (λ exit. IsTrue (breaks_off exit)) }
    {
        let conn = Conn {
            number: heading.connection,
        };
        let Some(connection) = self.front.lines.get_mut(conn) else {
            unreachable!()
        };
        answer_bytes(
            self.alloc,
            &mut self.front.server,
            connection,
            &mut self.writer,
            heading,
            bytes,
        )
    }
}
