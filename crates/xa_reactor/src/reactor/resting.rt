//! For how long nothing is to be done if nothing comes.
use crate::access::Access;
use crate::lanes::grace_left;
use crate::limits::{Terms, least, leaving_left};
use crate::reactor::Reactor;
use std::time::Duration;

impl Reactor {
    /// Whether one may wait at a door.
    pub(super) fn one_waits(&self) -> bool {
        self.board.waits(Access::All) || self.is_split && self.board.waits(Access::Changes)
    }

    /// How much is left of the time of a program that ends; none for ever, if it wasn't told to.
    fn time_to_leave(&self, now: Duration) -> Option<Duration> {
        match self.leaving {
            Some(since) => Some(leaving_left(since, now)),
            None => None,
        }
    }

    /// After what time the connection that has owed nothing for the longest time may be driven out for one of
    /// that access; none if none may. One for changes waits until the last one has gone.
    fn time_to_drive_out(&self, access: Access, now: Duration) -> Option<Duration> {
        match access {
            Access::All | Access::Asks => {
                let (_, since) = self.lanes.idlest(&self.board)?;
                Some(grace_left(since, now))
            }
            Access::Changes => None,
        }
    }

    /// For how long nothing is to be done at a door; none for ever.
    fn rest_at(&self, access: Access, now: Duration) -> Option<Duration> {
        if !self.board.waits(access) {
            return None;
        }
        let pause = self.doors.at(access).pause_left(now);
        if pause.is_zero() && !self.lanes.has_place(access) {
            return least(self.time_to_drive_out(access, now), self.time_to_leave(now));
        }
        Some(pause)
    }

    /// For how long nothing is to be done at the doors; none for ever.
    fn rest_at_doors(&self, now: Duration) -> Option<Duration> {
        if self.doors.are_shut {
            return None;
        }
        if !self.one_waits() && self.leaving.is_some() {
            return Some(Duration::ZERO);
        }
        if !self.is_split {
            return self.rest_at(Access::All, now);
        }
        least(
            self.rest_at(Access::Asks, now),
            self.rest_at(Access::Changes, now),
        )
    }

    /// For how long nothing is to be done if nothing comes; none for ever.
    pub(super) fn rest(&self, terms: &Terms, now: Duration) -> Option<Duration> {
        least(self.lanes.rest(&terms.limits, now), self.rest_at_doors(now))
    }
}
