//! The machine's clock.
ghost use Rattle.std.specs.Prelude.{◌≡◌, ◌/◌, [], pos, IfSome, Some};
ghost use Rattle.std.specs.Duration.{as_nanos};

use std::rt::HostRuntime;
use std::time::{Clock as Time, Duration};
use xa_server::{Clock, Noted};
use xa_value::Moment;

/// The machine's clock, which tells seconds since 1970.
#[derive(Drop)]
pub struct WallClock {
    /// The runtime, which has the clock.
    rt: HostRuntime,
    /// What it has told.
    told: Noted<Option<Moment>>,
}

impl WallClock {
    /// The clock of the machine on which the program runs.
    pub fn new(rt: &HostRuntime) -> WallClock
        ensures { result.told.calls ≡ [] }
    {
        WallClock {
            rt: *rt,
            told: Noted::new(),
        }
    }
}

/// The moment that is so long after the beginning of 1970, in whole seconds; none after the year 9999.
fn moment_after(since: Duration) -> Option<Moment>
    ensures { IfSome result (λ moment. moment ≡ pos (as_nanos since / 1_000_000_000)) }
{
    Moment::new(i64::try_from(since.as_secs()).ok()?)
}

/// The present moment; none if the machine's clock can't be read.
fn present_moment(rt: &HostRuntime) -> Option<Moment> {
    moment_after(rt.since_1970().ok()?)
}

impl Clock for WallClock {
    ghost told = { λ clock. Some clock.told.calls };

    fn now(&mut self) -> Option<Moment> {
        let moment = present_moment(&self.rt);
        self.told.note(&moment);
        moment
    }
}
