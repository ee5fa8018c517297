//! The clock of rows, and their moments.
ghost use Rattle.std.specs.Prelude.{◌≡◌, Some};

use crate::field::number_of;
use crate::no_answer::NoAnswer;
use xa_server::{Clock, Noted};
use xa_value::Moment;

/// A clock that stands, and tells its moment only so many times.
#[derive(Drop)]
pub struct StandingClock {
    /// The moment at which it stands.
    moment: Moment,
    /// How often more it tells that.
    left: u64,
    /// What it has told.
    told: Noted<Option<Moment>>,
}

impl StandingClock {
    /// A clock that stands at that moment, and tells it so many times.
    pub fn new(moment: Moment, left: u64) -> StandingClock {
        StandingClock {
            moment,
            left,
            told: Noted::new(),
        }
    }

    /// Has it stand at another moment from now on.
    pub fn set(&mut self, moment: Moment) {
        self.moment = moment;
    }

    /// What it tells next.
    fn next(&mut self) -> Option<Moment>
        ensures { self.new.told ≡ self.old.told }
    {
        if self.left == 0 {
            return None;
        }
        self.left -= 1;
        Some(self.moment)
    }
}

impl Clock for StandingClock {
    ghost told = { λ clock. Some clock.told.calls };

    fn now(&mut self) -> Option<Moment> {
        let moment = self.next();
        self.told.note(&moment);
        moment
    }
}

/// The moment of this many seconds.
pub fn moment_of(seconds: &str) -> Result<Moment, NoAnswer> {
    Moment::new(number_of(seconds)?).ok_or(NoAnswer::Malformed)
}
