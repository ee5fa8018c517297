//! Days, times and durations: months and nanoseconds later, and ranges of times.
ghost use Rattle.std.specs.Prelude.{◌≡◌, ◌≤◌, ◌<◌, ◌≤ℤ◌, ◌+ℤ◌, pos, unsigned_abs, IfOk};
ghost use Rattle.std.specs.Int.{int_div_euclid, int_rem_euclid};
ghost use Rattle.xa_value.specs.Instant.{local_nanos};
ghost use Rattle.xa_value.specs.Time.{day_nanos};
ghost use Rattle.jiff_core.specs.Calendar.{IsWithin};
ghost use Rattle.jiff_core.specs.Date.{epoch_day};
ghost use Rattle.xa_value.specs.Duration.{IsMonths, IsNanos};
ghost use Rattle.xa_func.specs.Civil.{day_of, day_result};
ghost use Rattle.xa_func.specs.Dates.{directed, months_later, month_number, day_in_month, day_at};
ghost use Rattle.xa_func.specs.Dates.{date_after_months, date_time_after_months, date_time_at};
ghost use Rattle.xa_func.specs.Dates.{date_time_after_nanos, nanos_in_utc, distance, time_in_range};

use crate::fault::FuncFault;
use crate::func_id::Direction;
use jiff_core::civil;
use xa_value::{
    DAY_NANOS, Date, DateTime, DayTimeDuration, MINUTE_NANOS, Offset, Time, YearMonthDuration,
};

/// The months of the duration, added or subtracted.
pub(crate) fn directed_months(direction: Direction, duration: YearMonthDuration) -> i32
    ensures value { result ≡ directed direction duration }
    ensures within { IsMonths result }
{
    match direction {
        Direction::Add => duration.months(),
        Direction::Subtract => -duration.months(),
    }
}

/// The nanoseconds of the duration, added or subtracted.
pub(crate) fn directed_nanos(direction: Direction, duration: DayTimeDuration) -> i128
    ensures value { result ≡ directed direction duration }
    ensures within { IsNanos result }
{
    match direction {
        Direction::Add => duration.nanos(),
        Direction::Subtract => -duration.nanos(),
    }
}

/// Months since January of the year 0.
fn month_number(day: civil::Date) -> u32
    ensures value { pos result ≡ month_number (day_of day) }
    ensures within { result ≤ 120_000 }
{
    u32::from(day.year.unsigned_abs()) * 12 + u32::from(day.month - 1)
}

/// A day of the month with that `month_number`, or the month's last day if it is shorter.
#[tactic(auto, unfolding(crate::specs::Dates::day_in_month))]
fn day_in_month(day: u8, months: u32) -> Result<civil::Date, FuncFault>
    requires { 1 ≤ day }
    ensures value { day_result result ≡ day_in_month day (pos months) }
    ensures later { IfOk result (λ d. pos 1 ≤ℤ d.year) }
{
    let year = months / 12;
    if year < 1 || year > 9999 {
        return Err(FuncFault::CalendarRange);
    }
    let month = months % 12 + 1;
    Ok(civil::Date::constrain(year as i16, month as u8, day))
}

/// The day this many months later.
#[tactic(auto, unfolding(crate::specs::Dates::day_in_month))]
fn months_later(day: civil::Date, months: i32) -> Result<civil::Date, FuncFault>
    requires { IsMonths months }
    ensures value { day_result result ≡ months_later (day_of day) months }
    ensures later { IfOk result (λ d. pos 1 ≤ℤ d.year) }
{
    let number = i64::from(month_number(day)) + i64::from(months);
    if number < 0 {
        return Err(FuncFault::CalendarRange);
    }
    day_in_month(day.day, number as u32)
}

/// The day, if its year is 1 or later.
#[tactic(auto, using(crate::proofs::DateLemmas::day_at_civil, crate::proofs::DateLemmas::day_at_early))]
fn from_year_one(day: civil::Date) -> Result<civil::Date, FuncFault>
    ensures value { day_result result ≡ day_at (epoch_day day) }
    ensures later { IfOk result (λ d. pos 1 ≤ℤ d.year) }
{
    if day.year < 1 {
        return Err(FuncFault::CalendarRange);
    }
    Ok(day)
}

/// The day of that number.
#[tactic(auto, using(crate::proofs::DateLemmas::day_at_outside))]
fn day_at(number: i64) -> Result<civil::Date, FuncFault>
    ensures value { day_result result ≡ day_at number }
    ensures later { IfOk result (λ d. pos 1 ≤ℤ d.year) }
{
    let day = civil::Date::from_unix_epoch_day(number).map_err(|_| FuncFault::CalendarRange)?;
    from_year_one(day)
}

/// The nanoseconds as written, with this many added.
fn nanos_later(date_time: DateTime, nanos: i128) -> i128
    requires { IsNanos nanos }
    ensures value { result ≡ local_nanos date_time +ℤ nanos }
    ensures within { IsWithin 2_000_000_000_000_000_000_000 result }
{
    date_time.local_nanos() + nanos
}

/// The whole days of this many nanoseconds.
fn whole_days(nanos: i128) -> i64
    requires { IsWithin 2_000_000_000_000_000_000_000 nanos }
    ensures { result ≡ int_div_euclid nanos (pos day_nanos) }
{
    nanos.div_euclid(i128::from(DAY_NANOS)) as i64
}

/// The nanoseconds that are left of this many without whole days.
fn nanos_of_day(nanos: i128) -> u64
    ensures value { result ≡ unsigned_abs (int_rem_euclid nanos (pos day_nanos)) }
    ensures within { result < day_nanos }
{
    nanos.rem_euclid(i128::from(DAY_NANOS)) as u64
}

/// The day this many months later.
pub(crate) fn date_after_months(date: Date, months: i32) -> Result<Date, FuncFault>
    requires { IsMonths months }
    ensures { result ≡ date_after_months date months }
{
    let day = months_later(date.civil(), months)?;
    Date::new(day, date.zone()).ok_or(FuncFault::CalendarRange)
}

/// The day and time this many months later, at the same time of day.
pub(crate) fn date_time_after_months(
    date_time: DateTime,
    months: i32,
) -> Result<DateTime, FuncFault>
    requires { IsMonths months }
    ensures { result ≡ date_time_after_months date_time months }
{
    let day = months_later(date_time.civil(), months)?;
    DateTime::new(day, date_time.nanos(), date_time.zone()).ok_or(FuncFault::CalendarRange)
}

/// The day and time of this many nanoseconds.
fn date_time_at(nanos: i128, zone: Option<Offset>) -> Result<DateTime, FuncFault>
    requires { IsWithin 2_000_000_000_000_000_000_000 nanos }
    ensures { result ≡ date_time_at nanos zone }
{
    let day = day_at(whole_days(nanos))?;
    DateTime::new(day, nanos_of_day(nanos), zone).ok_or(FuncFault::CalendarRange)
}

/// The day and time this many nanoseconds later, as written.
pub(crate) fn date_time_after_nanos(date_time: DateTime, nanos: i128) -> Result<DateTime, FuncFault>
    requires { IsNanos nanos }
    ensures { result ≡ date_time_after_nanos date_time nanos }
{
    date_time_at(nanos_later(date_time, nanos), date_time.zone())
}

/// The time in UTC, in nanoseconds. A time without a zone takes `zone`, else UTC (XACML 3.0, core,
/// appendix A.3.8).
fn nanos_in_utc(time: Time, zone: Option<Offset>) -> i128
    ensures value { result ≡ nanos_in_utc time zone }
    ensures within { IsWithin 1_000_000_000_000_000 result }
{
    let minutes = match time.zone().or(zone) {
        None => 0,
        Some(offset) => offset.minutes(),
    };
    i128::from(time.nanos()) - i128::from(minutes) * i128::from(MINUTE_NANOS)
}

/// The nanoseconds from one time of day to the next occurrence of the other, 0 if they are the same.
fn distance(from: i128, to: i128) -> u64
    requires start { IsWithin 1_000_000_000_000_000 from }
    requires end { IsWithin 1_000_000_000_000_000 to }
    ensures { result ≡ distance from to }
{
    nanos_of_day(to - from)
}

/// Whether a clock that starts at `start` shows the time no later than `end` (XACML 3.0, core, appendix
/// A.3.8).
#[tactic(auto, unfolding(crate::specs::Dates::time_in_range))]
pub(crate) fn time_in_range(time: Time, start: Time, end: Time) -> bool
    ensures { result ≡ time_in_range time start end }
{
    let start_nanos = nanos_in_utc(start, time.zone());
    let time_nanos = nanos_in_utc(time, time.zone());
    let end_nanos = nanos_in_utc(end, time.zone());
    distance(start_nanos, time_nanos) <= distance(start_nanos, end_nanos)
}
