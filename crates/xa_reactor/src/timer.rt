//! What tells how time passes.
ghost use Rattle.std.specs.Prelude.{◌≤◌};
ghost use Rattle.std.specs.Duration.{as_nanos};

use std::time::Duration;

/// A clock that isn't set: it tells how much time has passed since some beginning. Nothing is promised of
/// what it tells. If it stands, no connection is late.
pub trait Timer {
    /// The time that has passed; none if it can't be told.
    fn elapsed(&mut self) -> Option<Duration>;
}

/// The time by a timer; but that one, if it is later, or if the timer tells none.
pub(crate) fn time_by<T: Timer>(timer: &mut T, least: Duration) -> Duration
    ensures { as_nanos least ≤ as_nanos result }
{
    match timer.elapsed() {
        Some(time) if least <= time => time,
        _ => least,
    }
}
