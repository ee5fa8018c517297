//! Moments, and the date and time that they show.
ghost use Rattle.std.specs.Prelude.{◌≡◌, ◌*ℤ◌, ◌≤ℤ◌, ◌<◌, pos, unsigned_abs, SomeIff};
ghost use Rattle.jiff_core.specs.Date.{epoch_day};
ghost use Rattle.xa_value.specs.Calendar.{instant, day_number};
ghost use Rattle.xa_value.specs.Days.{day_of_number};
ghost use Rattle.xa_value.specs.Moment.{IsMoment, utc, day_number_of, nanos_of};
ghost use Rattle.xa_value.specs.Moment.{date_of, time_of, date_time_of};
ghost use Rattle.xa_value.specs.Time.{day_nanos};

use crate::calendar::{Date, DateTime};
use crate::time::{SECOND_NANOS, Time};
use crate::zone::Offset;
use jiff_core::civil;
use std::marker::Model;

/// The seconds of a day.
const SECONDS_OF_A_DAY: i64 = 86_400;

/// A moment: whole seconds since 1970-01-01T00:00:00Z, from 0001-01-01T00:00:00Z to 9999-12-31T23:59:59Z
/// (XACML 3.0, core, section 10.2.5).
#[derive(Clone, Copy, Debug, PartialEq, Eq)]
pub struct Moment {
    seconds: i64,
}

impl Model for Moment {
    ghost use Rattle.std.specs.Prelude.{ℤ};
    ghost use Rattle.xa_value.specs.Moment.{IsMoment};

    ghost Value = { ℤ };

    ghost view = { λ m. m.seconds };

    ghost invariant = { λ m. IsMoment m.seconds };

    ghost inverse = { λ z. record { seconds = z } };
}

impl Moment {
    /// The first moment, 0001-01-01T00:00:00Z.
    const FIRST: i64 = -62_135_596_800;

    /// The last moment, 9999-12-31T23:59:59Z.
    const LAST: i64 = 253_402_300_799;

    /// The moment this many seconds after 1970-01-01T00:00:00Z, if it lies in the years 0001 to 9999.
    pub fn new(seconds: i64) -> Option<Moment>
        ensures { SomeIff result (IsMoment seconds) seconds }
    {
        if Moment::FIRST <= seconds && seconds <= Moment::LAST {
            Some(Moment { seconds })
        } else {
            None
        }
    }

    /// The seconds since 1970-01-01T00:00:00Z.
    pub fn seconds(self) -> i64
        ensures value { result ≡ self }
        ensures within { IsMoment result }
    {
        self.seconds
    }

    /// The moment's date, by UTC.
    pub fn date(self) -> Date
        ensures value { result ≡ date_of self }
        ensures day { day_number result.year result.month result.day ≡ day_number_of self }
    {
        Date::new(self.day(), utc()).unwrap()
    }

    /// The moment's time of day, by UTC.
    pub fn time(self) -> Time
        ensures { result ≡ time_of self }
    {
        Time::new(self.nanos(), utc()).unwrap()
    }

    /// The moment's date with its time, by UTC.
    pub fn date_time(self) -> DateTime
        ensures value { result ≡ date_time_of self }
        ensures instant { instant (day_number result.year result.month result.day) result.nanos result.zone
            ≡ self *ℤ pos 1_000_000_000 }
    {
        DateTime::new(self.day(), self.nanos(), utc()).unwrap()
    }

    /// The moment's day, by UTC.
    fn day(self) -> civil::Date
        ensures value { day_of_number (day_number_of self)
            ≡ record { year = unsigned_abs result.year; month = result.month; day = result.day } }
        ensures number { epoch_day result ≡ day_number_of self }
        ensures from_year_one { pos 1 ≤ℤ result.year }
    {
        civil::Date::from_unix_epoch_day(self.seconds.div_euclid(SECONDS_OF_A_DAY)).unwrap()
    }

    /// The nanoseconds since the midnight that began the moment's day, by UTC.
    fn nanos(self) -> u64
        ensures value { result ≡ nanos_of self }
        ensures within { result < day_nanos }
    {
        self.seconds.rem_euclid(SECONDS_OF_A_DAY) as u64 * SECOND_NANOS
    }
}

/// The zone of UTC, `Z`.
fn utc() -> Option<Offset>
    ensures { result ≡ utc }
{
    Offset::new(0)
}
