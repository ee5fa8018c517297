//! How what has come on a connection is read, and handed on.
ghost use Rattle.std.specs.Prelude.{◌≡◌, ◌⊎◌, []};
ghost use Rattle.std.specs.Duration.{as_nanos};
ghost use Rattle.xa_reactor.specs.declared.limits.Stage.TheVariants as stages;
ghost use Rattle.xa_reactor.specs.declared.progress.Progress.TheVariants as progress;
ghost use Rattle.xa_reactor.specs.declared.progress.Reason.TheVariants as reasons;
ghost use Rattle.xa_reactor.specs.Step.{IsEnd};
ghost use Rattle.xa_reactor.specs.handling.Going.{FeedsBy, Reads, ReadsInTime, StaysInStage, Takes};

use crate::board::Ready;
use crate::lane::{Lane, PIECE_BYTES, Share};
use crate::limits::Stage;
use crate::network::Network;
use crate::progress::{Progress, Reason};
use std::io::ErrorKind;
use xa_records::Records;
use xa_server::{Conn, Front};

/// How many bytes are dropped at most behind the last reply.
const MOST_DROPPED: usize = 67_108_864;

/// Hands a piece to a connection's stream. Whether there was memory for it.
fn feed<R: Records>(front: &mut Front<R>, piece: &[u8], conn: Conn) -> bool
    ensures { FeedsBy R.custody conn piece.now result front.old front.new }
{
    front.piece(conn, piece).is_ok()
}

impl Lane {
    /// Drops what came behind the last reply.
    fn drop_piece(&mut self, count: usize) -> Progress
        requires { self.old.stage ≡ stages.Parting }
        ensures outgoing { self.new.outgoing ≡ self.old.outgoing }
        ensures stays { StaysInStage self.old self.new }
        ensures ends { (result ≡ progress.Goes) ⊎ (result ≡ progress.Ends reasons.Ended) }
    {
        self.moved = self.moved.saturating_add(count);
        if self.moved > MOST_DROPPED {
            Progress::Ends(Reason::Ended)
        } else {
            Progress::Goes
        }
    }

    /// Hands on what was read: to the front, or behind the last reply to nobody.
    fn take<R: Records>(&mut self, front: &mut Front<R>, piece: &[u8], share: Share) -> Progress
        ensures { Takes R.custody share result piece.now self.old self.new front.old front.new }
    {
        if self.stage == Stage::Parting {
            return self.drop_piece(piece.len());
        }
        if !feed(front, piece, share.conn) {
            return Progress::Ends(Reason::WantOfMemory);
        }
        self.note_piece(front, share)
    }

    /// What it holds once a piece has come to its stream.
    fn note_piece<R: Records>(&mut self, front: &mut Front<R>, share: Share) -> Progress
        ensures same { front.new ≡ front.old }
        ensures outgoing { self.new.outgoing ≡ self.old.outgoing }
        ensures time { ReadsInTime (as_nanos share.now) self.old self.new }
        ensures ends { IsEnd share.conn.number [] self.new result }
    {
        let Ok(holding) = front.holding(share.conn) else {
            return Progress::Ends(Reason::WantOfMemory);
        };
        self.holding = holding;
        if self.stage == Stage::Quiet {
            self.enter(Stage::Incoming, share.now);
        }
        Progress::Goes
    }

    /// Reads once, and hands on what was read.
    pub(super) fn read_some<R: Records, N: Network>(
        &mut self,
        front: &mut Front<R>,
        network: &mut N,
        ready: &mut Ready,
        room: &mut [u8; PIECE_BYTES],
        share: Share,
    ) -> Progress
        ensures { Reads R.custody N.done share result self.old self.new front.old front.new
            network.old network.new }
    {
        if !ready.readable {
            return Progress::Waits;
        }
        match network.receive(share.conn.number, room) {
            Ok(0) => Progress::Ends(Reason::Ended),
            Ok(count) => {
                ready.note_read(count, PIECE_BYTES);
                self.take(front, &room[..count], share)
            }
            Err(error) if error.kind() == ErrorKind::WouldBlock => {
                ready.readable = false;
                Progress::Waits
            }
            Err(error) if error.kind() == ErrorKind::Interrupted => Progress::Goes,
            Err(_) => Progress::Ends(Reason::Failed),
        }
    }
}
