//! The doors at which connections come: what is done if one can't be taken.
use crate::access::Access;
use crate::halt::Halt;
use std::time::Duration;

/// How often in a row taking a connection may fail.
const MAX_FAILURES: u32 = 1_000;

/// After how many milliseconds it is tried again if there was no room.
const PAUSE_MILLISECONDS: u64 = 10;

/// A door.
#[derive(Clone, Copy)]
pub(crate) struct Door {
    /// How often in a row taking a connection failed.
    failures: u32,
    /// When it is tried again, if it isn't at once.
    again: Option<Duration>,
}

impl Door {
    /// Nothing has failed.
    fn new() -> Door {
        Door {
            failures: 0,
            again: None,
        }
    }

    /// A connection was taken.
    pub(crate) fn succeed(&mut self) {
        self.failures = 0;
        self.again = None;
    }

    /// One couldn't be taken. Fails if so many couldn't in a row.
    pub(crate) fn pass_over(&mut self) -> Result<(), Halt> {
        self.failures = self.failures.saturating_add(1);
        if self.failures >= MAX_FAILURES {
            return Err(Halt::Door);
        }
        Ok(())
    }

    /// There was no room for one. It is tried again later. Fails if so many couldn't be taken in a row, and
    /// none is open that could make room.
    pub(crate) fn wait(&mut self, is_alone: bool, now: Duration) -> Result<(), Halt> {
        self.again = Some(now.saturating_add(Duration::from_millis(PAUSE_MILLISECONDS)));
        if is_alone { self.pass_over() } else { Ok(()) }
    }

    /// For how long none is taken.
    pub(crate) fn pause_left(&self, now: Duration) -> Duration {
        match self.again {
            Some(again) => again.saturating_sub(now),
            None => Duration::ZERO,
        }
    }
}

/// The only door, or the first of two, and that for changes.
#[derive(Clone, Copy)]
pub struct Doors {
    /// The only one, or the first.
    first: Door,
    /// That for changes. Nobody comes there if it is no address of its own.
    changes: Door,
    /// Whether no connection is taken any more, at any.
    pub are_shut: bool,
}

impl Doors {
    /// Nothing has failed at any.
    pub(crate) fn new() -> Doors {
        Doors {
            first: Door::new(),
            changes: Door::new(),
            are_shut: false,
        }
    }

    /// The one at which connections of that access come.
    pub(crate) fn at(&self, access: Access) -> &Door {
        match access {
            Access::All | Access::Asks => &self.first,
            Access::Changes => &self.changes,
        }
    }

    /// The same, to be changed.
    pub(crate) fn at_mut(&mut self, access: Access) -> &mut Door {
        match access {
            Access::All | Access::Asks => &mut self.first,
            Access::Changes => &mut self.changes,
        }
    }
}
