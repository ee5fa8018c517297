//! One of the connections, and what is done for it in its share of a turn.
ghost use Rattle.std.specs.Prelude.{◌≡◌, ◌≢◌, ◌≤◌, ◌-◌, ℕ, [], true, false};
ghost use Rattle.std.specs.Duration.{as_nanos};
ghost use Rattle.xa_server.specs.Front.{front_is_sound};
ghost use Rattle.xa_reactor.specs.declared.limits.Stage.TheVariants as stages;
ghost use Rattle.xa_reactor.specs.declared.limits.Terms.{Terms};
ghost use Rattle.xa_reactor.specs.Sending.{none_under_way};
ghost use Rattle.xa_reactor.specs.Step.{IsStep, Lasts, Step};
ghost use Rattle.xa_reactor.specs.Timing.{IsFresh, IsLate, IsParted};
ghost use Rattle.xa_reactor.specs.Turn.{EndsBy};
ghost use Rattle.xa_reactor.specs.handling.Going.{AnswersAndSends, EndsAlike, IsGoing, SendsAndReads};
ghost use Rattle.xa_reactor.specs.handling.Going.{TakesAnswer, answer_in};

mod answering;
mod reading;
mod writing;

use crate::access::Access;
use crate::board::Ready;
use crate::halt::Halt;
use crate::lane::answering::answer_next;
use crate::limits::{Limits, Stage, Terms, has_passed, left, slow_limit};
use crate::network::Network;
use crate::outgoing::Outgoing;
use crate::progress::{Progress, Reason};
use crate::timer::{Timer, time_by};
use std::time::Duration;
use xa_records::Records;
use xa_server::{Answer, Clock, Conn, Front, FrontError, Holding};

/// How many bytes are read at once.
pub const PIECE_BYTES: usize = 65_536;

/// What is known of a share beside its connection.
#[derive(Clone, Copy)]
pub struct Share {
    /// Whose it is.
    pub conn: Conn,
    /// The time: when the turn began, or later.
    pub now: Duration,
    /// Whether another reply may be under way.
    pub has_room: bool,
    /// Whether a connection ends with the reply that it is sent.
    pub parts: bool,
    /// At which address it came.
    pub access: Access,
}

impl Share {
    /// The same at the time that the timer tells now.
    fn at<T: Timer>(self, timer: &mut T) -> Share
        ensures same { result ≡ record self { now = result.now } }
        ensures later { as_nanos self.now ≤ as_nanos result.now }
    {
        Share {
            now: time_by(timer, self.now),
            ..self
        }
    }
}

/// Whether a connection is to be closed.
fn has_ended(progress: Progress) -> bool
    ensures { result ≡ false → IsGoing progress }
{
    match progress {
        Progress::Ends(_) => true,
        Progress::Waits => false,
        Progress::Goes => false,
    }
}

/// A connection that is open.
#[derive(Drop)]
pub struct Lane {
    /// The reply that is under way.
    pub outgoing: Outgoing,
    /// What it holds of its stream.
    pub holding: Holding,
    /// What is waited for.
    pub stage: Stage,
    /// Since when.
    pub since: Duration,
    /// Since when less than 65,536 bytes of the reply were taken.
    pub mark: Duration,
    /// How many bytes were: of a reply since then, and behind the last reply in all.
    pub moved: usize,
    /// At which address it came.
    pub access: Access,
}

impl Lane {
    /// A connection of which nothing has come.
    pub(crate) fn new(now: Duration, access: Access) -> Lane
        ensures fresh { IsFresh (as_nanos now) result }
        ensures access { result.access ≡ access }
        ensures nothing { result.outgoing ≡ none_under_way }
    {
        Lane {
            outgoing: Outgoing::nothing(),
            holding: Holding::Nothing,
            stage: Stage::Quiet,
            since: now,
            mark: now,
            moved: 0,
            access,
        }
    }

    /// What is waited for from now on.
    fn enter(&mut self, stage: Stage, now: Duration)
        ensures outgoing { self.new.outgoing ≡ self.old.outgoing }
        ensures holding { self.new.holding ≡ self.old.holding }
        ensures stage { self.new.stage ≡ stage }
        ensures since { self.new.since ≡ now }
        ensures mark { self.new.mark ≡ now }
        ensures moved { self.new.moved ≡ 0 }
    {
        self.stage = stage;
        self.since = now;
        self.mark = now;
        self.moved = 0;
    }

    /// For how long it is still waited for; none for ever.
    pub(crate) fn time_left(&self, limits: &Limits, now: Duration) -> Option<Duration> {
        let in_stage = left(limits.of(self.stage)?, self.since, now);
        Some(match self.stage {
            Stage::Outgoing => in_stage.min(left(slow_limit(), self.mark, now)),
            Stage::Quiet | Stage::Incoming | Stage::Parting => in_stage,
        })
    }

    /// Whether a reply is under way of which too few bytes were taken for too long.
    fn is_slow(&self, now: Duration) -> bool
        ensures { result ≡ true
            → (self.now.stage ≡ stages.Outgoing) × (10_000_000_000 ≤ as_nanos now - as_nanos self.now.mark) }
    {
        self.stage == Stage::Outgoing && left(slow_limit(), self.mark, now).is_zero()
    }

    /// Whether it was waited for as long as its stage may last.
    pub(crate) fn is_late(&self, terms: &Terms) -> bool
        ensures late { result ≡ true → IsLate terms.now self.now }
        ensures parted { result ≡ false → IsParted terms.now self.now }
    {
        has_passed(terms.limits.of(self.stage), self.since, terms.began)
            || self.is_slow(terms.began)
    }

    /// Why it is closed if it is late: one of which nothing had come was idle, and one that was parted with
    /// has ended.
    pub(crate) fn reason_if_late(&self) -> Reason
        ensures { (terms : Terms) (step : Step) → IsLate terms self.now → EndsBy terms step self.now result }
    {
        match self.stage {
            Stage::Quiet => Reason::Idle,
            Stage::Incoming | Stage::Outgoing => Reason::Late,
            Stage::Parting => Reason::Ended,
        }
    }

    /// Whether another answer may come in a share: nothing may be left of the last one, and a message may
    /// be whole.
    pub(crate) fn may_ask(&self, ready: Ready) -> bool {
        self.holding == Holding::Whole || ready.readable
    }

    /// Takes what was given for its next message: if that is an answer, the time of its reply begins.
    fn take_answer(&mut self, given: Result<Option<Answer>, FrontError>, now: Duration) -> Progress
        ensures { TakesAnswer (answer_in given) (as_nanos now) result self.old self.new }
    {
        match given {
            Ok(Some(answer)) => {
                self.outgoing = Outgoing::of(answer);
                self.holding = Holding::Part;
                self.enter(Stage::Outgoing, now);
                Progress::Goes
            }
            Ok(None) => {
                self.holding = Holding::Part;
                Progress::Waits
            }
            Err(_) => Progress::Ends(Reason::WantOfMemory),
        }
    }

    /// Whether it waits until fewer bytes of replies are under way: it holds a whole message, the last reply
    /// was sent, and it wasn't parted with.
    pub(crate) fn wants_room(&self) -> bool
        ensures { result ≡ true → (self.now.outgoing.left ≡ []) × (self.now.stage ≢ stages.Parting) }
    {
        self.holding == Holding::Whole && self.outgoing.is_empty() && self.stage != Stage::Parting
    }

    /// Whether something can be done for it at once.
    fn can_go(&self, ready: Ready, has_room: bool) -> bool {
        if !self.outgoing.is_empty() {
            ready.writable
        } else if self.holding == Holding::Whole {
            has_room
        } else {
            ready.readable
        }
    }

    /// What can be done for it after its share.
    fn progress_after(&self, last: Progress, ready: Ready, has_room: bool) -> Progress
        ensures { EndsAlike last result }
    {
        match last {
            Progress::Ends(reason) => Progress::Ends(reason),
            Progress::Waits | Progress::Goes if self.can_go(ready, has_room) => Progress::Goes,
            Progress::Waits | Progress::Goes => Progress::Waits,
        }
    }

    /// Sends what is under way, by one write; and reads once, if that went whole and no message is whole.
    fn send_and_read<R: Records, N: Network>(
        &mut self,
        front: &mut Front<R>,
        network: &mut N,
        ready: &mut Ready,
        room: &mut [u8; PIECE_BYTES],
        share: Share,
    ) -> Progress
        ensures { SendsAndReads R.custody N.done share result self.old self.new front.old front.new
            network.old network.new }
    {
        let sent = self.send_some(front, network, ready, share);
        if sent != Progress::Goes || !self.outgoing.is_empty() || self.holding == Holding::Whole {
            return sent;
        }
        self.read_some(front, network, ready, room, share)
    }

    /// Whether its reply tells that a message was refused for want of storage, and the keeper can't go on.
    fn is_shut<R: Records>(&self, front: &Front<R>) -> bool {
        self.outgoing.wants_storage() && !front.server.is_open()
    }

    /// Has its next message answered, and sends some of the reply, by one write. An answer may take long: the
    /// time of its reply begins behind it.
    fn answer_and_send<R: Records, N: Network, C: Clock, T: Timer>(
        &mut self,
        front: &mut Front<R>,
        network: &mut N,
        clock: &mut C,
        timer: &mut T,
        ready: &mut Ready,
        share: Share,
    ) -> Result<Progress, Halt>
        requires { self.old.outgoing.left ≡ [] }
        ensures { AnswersAndSends R.custody N.done share result self.old self.new
            front.old front.new network.old network.new }
    {
        let given = answer_next(front, clock, share)?;
        let share = share.at(timer);
        let taken = self.take_answer(given, share.now);
        if taken != Progress::Goes {
            return Ok(self.progress_after(taken, *ready, share.has_room));
        }
        let is_shut = self.is_shut(front);
        let sent = self.send_some(front, network, ready, share);
        if is_shut {
            return Err(Halt::Shut);
        }
        Ok(self.progress_after(sent, *ready, share.has_room))
    }

    /// Gives the connection its share: at most one read, one answer and two writes. Nothing is read and
    /// nothing answered while a reply is under way: so a peer that takes none is read from no more. Others
    /// may have had long shares before it, so the timer is asked.
    pub(crate) fn go<R: Records, N: Network, C: Clock, T: Timer>(
        &mut self,
        front: &mut Front<R>,
        network: &mut N,
        clock: &mut C,
        timer: &mut T,
        ready: &mut Ready,
        room: &mut [u8; PIECE_BYTES],
        share: Share,
    ) -> Result<Progress, Halt>
        ensures step { IsStep R.custody N.done share result self.old self.new front.old front.new
            network.old network.new }
        ensures sound { front_is_sound R.custody front.new → front_is_sound R.custody front.old }
        ensures lasts { Lasts share.conn front.old.lines front.new.lines }
    {
        if !self.can_go(*ready, share.has_room) {
            return Ok(Progress::Waits);
        }
        let share = share.at(timer);
        let read = self.send_and_read(front, network, ready, room, share);
        if has_ended(read) || !self.wants_room() || !share.has_room {
            return Ok(self.progress_after(read, *ready, share.has_room));
        }
        self.answer_and_send(front, network, clock, timer, ready, share)
    }
}
