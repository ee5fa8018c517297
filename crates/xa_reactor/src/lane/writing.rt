//! How the reply that is under way to a peer is sent, and what is waited for behind it.
ghost use Rattle.std.specs.Prelude.{◌≡◌, ◌≢◌, ◌<◌, [], length};
ghost use Rattle.std.specs.Duration.{as_nanos};
ghost use Rattle.xa_server.specs.Transfers.{Grows};
ghost use Rattle.xa_reactor.specs.declared.limits.Stage.TheVariants as stages;
ghost use Rattle.xa_reactor.specs.Sending.{none_under_way};
ghost use Rattle.xa_reactor.specs.Step.{IsEnd, PartsFor};
ghost use Rattle.xa_reactor.specs.Timing.{MarksAt};
ghost use Rattle.xa_reactor.specs.handling.Going.{EndsReply, Sends, StaysInStage, Writes, finish_by};

use crate::board::Ready;
use crate::lane::{Lane, Share};
use crate::limits::Stage;
use crate::network::Network;
use crate::outgoing::{Outgoing, Sending};
use crate::progress::{Progress, Reason};
use std::time::Duration;
use xa_records::Records;
use xa_server::{Front, Holding};

/// How many bytes of a reply have to be taken in ten seconds.
const LEAST_BYTES: usize = 65_536;

impl Lane {
    /// Counts bytes of a reply that were taken.
    fn count_sent(&mut self, count: usize, now: Duration)
        ensures outgoing { self.new.outgoing ≡ self.old.outgoing }
        ensures stays { StaysInStage self.old self.new }
        ensures marks { MarksAt (as_nanos now) count self.old self.new }
    {
        self.moved = self.moved.saturating_add(count);
        if self.moved >= LEAST_BYTES {
            self.mark = now;
            self.moved = 0;
        }
    }

    /// Parts with it: its peer is told that no more is sent.
    fn part_with<N: Network>(&mut self, network: &mut N, share: Share)
        ensures outgoing { self.new.outgoing ≡ self.old.outgoing }
        ensures holding { self.new.holding ≡ self.old.holding }
        ensures stage { self.new.stage ≡ stages.Parting }
        ensures since { self.new.since ≡ share.now }
        ensures done { Grows (N.done network.old) (N.done network.new)
            (finish_by share.conn.number self.new.stage) }
    {
        network.part(share.conn.number);
        self.enter(Stage::Parting, share.now);
    }

    /// What is waited for by what it holds. Behind a reply that isn't the last no session has ended, so it
    /// never waits for what can't come.
    fn wait_by(&mut self, holding: Holding, now: Duration)
        ensures outgoing { self.new.outgoing ≡ self.old.outgoing }
        ensures holding { self.new.holding ≡ self.old.holding }
        ensures stage { self.new.stage ≢ stages.Outgoing }
        ensures stays { self.new.stage ≢ stages.Parting }
        ensures since { self.new.since ≡ now }
    {
        match holding {
            Holding::Nothing => self.enter(Stage::Quiet, now),
            Holding::Part | Holding::Whole | Holding::Ended => self.enter(Stage::Incoming, now),
        }
    }

    /// What it holds now, and what is waited for by it.
    fn look<R: Records>(&mut self, front: &mut Front<R>, share: Share) -> Progress
        requires { self.old.stage ≡ stages.Outgoing }
        ensures same { front.new ≡ front.old }
        ensures outgoing { self.new.outgoing ≡ self.old.outgoing }
        ensures stays { self.new.stage ≢ stages.Parting }
        ensures time { EndsReply (as_nanos share.now) self.old self.new }
        ensures ends { IsEnd share.conn.number [] self.new result }
    {
        let Ok(holding) = front.holding(share.conn) else {
            return Progress::Ends(Reason::WantOfMemory);
        };
        self.holding = holding;
        self.wait_by(holding, share.now);
        Progress::Goes
    }

    /// What comes behind a reply that was sent whole: the next message, or the end.
    #[tactic(auto, using(crate::proofs::GoingLemmas::finish_other))]
    fn end_reply<R: Records, N: Network>(
        &mut self,
        front: &mut Front<R>,
        network: &mut N,
        share: Share,
    ) -> Progress
        requires { self.old.stage ≡ stages.Outgoing }
        ensures outgoing { self.new.outgoing ≡ none_under_way }
        ensures same { front.new ≡ front.old }
        ensures done { Grows (N.done network.old) (N.done network.new)
            (finish_by share.conn.number self.new.stage) }
        ensures time { EndsReply (as_nanos share.now) self.old self.new }
        ensures parts { self.new.stage ≡ stages.Parting → PartsFor self.old.outgoing.last share.parts }
        ensures ends { IsEnd share.conn.number [] self.new result }
    {
        let parts = self.outgoing.is_last() || share.parts;
        self.outgoing = Outgoing::nothing();
        if parts {
            self.part_with(network, share);
            return Progress::Goes;
        }
        self.look(front, share)
    }

    /// Sends some of what is under way, by one write.
    fn write<N: Network>(&mut self, network: &mut N, ready: &mut Ready, share: Share) -> Progress
        requires { 0 < length self.old.outgoing.left }
        ensures { Writes N.done share result self.old self.new network.old network.new }
    {
        match self.outgoing.send(network, share.conn.number) {
            Sending::Went(count) => {
                self.count_sent(count, share.now);
                Progress::Goes
            }
            Sending::Blocked => {
                ready.writable = false;
                Progress::Waits
            }
            Sending::Broke => Progress::Ends(Reason::Failed),
        }
    }

    /// Sends some of what is under way, if anything is, by one write.
    pub(super) fn send_some<R: Records, N: Network>(
        &mut self,
        front: &mut Front<R>,
        network: &mut N,
        ready: &mut Ready,
        share: Share,
    ) -> Progress
        ensures sends { Sends N.done share result self.old self.new network.old network.new }
        ensures same { front.new ≡ front.old }
    {
        if self.stage != Stage::Outgoing || self.outgoing.is_empty() {
            return Progress::Goes;
        }
        if !ready.writable {
            return Progress::Waits;
        }
        let sent = self.write(network, ready, share);
        if sent != Progress::Goes || !self.outgoing.is_empty() {
            return sent;
        }
        self.end_reply(front, network, share)
    }
}
